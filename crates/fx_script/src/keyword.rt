ghost use Rattle.std.specs.Prelude.{◌≡◌};
ghost use Rattle.std.specs.List.{filter, find};
ghost use Rattle.std.specs.Str.{bytes_eq};
ghost use Rattle.fx_script.specs.Keywords.{part_text, edge_text, simple_text, event_text, keyword_text, keywords, begins_with, stands_for, keyword_of};

/// The first word of a line, which says what kind of line it is.
#[derive(Clone, Copy, Debug, PartialEq, Eq)]
pub enum Keyword {
    /// A line between the parts of a job.
    Part(PartWord),
    /// A line that opens, divides or closes a block.
    Edge(EdgeWord),
    /// A statement without a block.
    Simple(SimpleWord),
    /// An event of the schedule.
    Event(EventWord),
}

#[derive(Clone, Copy, Debug, PartialEq, Eq)]
pub enum PartWord {
    Fenix,
    Ranks,
    Spares,
    Separation,
    Array,
    Counter,
    Callback,
    EndCallback,
    Begin,
    End,
    Schedule,
    Stop,
}

#[derive(Clone, Copy, Debug, PartialEq, Eq)]
pub enum EdgeWord {
    When,
    EndWhen,
    If,
    Else,
    EndIf,
    For,
    EndFor,
}

#[derive(Clone, Copy, Debug, PartialEq, Eq)]
pub enum SimpleWord {
    Let,
    Set,
    Print,
    Register,
    Barrier,
    Sum,
    Min,
    Max,
    Agree,
    Shift,
    Group,
    Member,
    Store,
    Commit,
    CommitBarrier,
    Restore,
    Drop,
}

#[derive(Clone, Copy, Debug, PartialEq, Eq)]
pub enum EventWord {
    Step,
    Rest,
    Deliver,
    Kill,
    Notice,
    Run,
}

/// The word that stands for a keyword.
pub fn keyword_text(keyword: Keyword) -> &'static str
    ensures { result.now ≡ keyword_text keyword }
{
    match keyword {
        Keyword::Part(word) => part_text(word),
        Keyword::Edge(word) => edge_text(word),
        Keyword::Simple(word) => simple_text(word),
        Keyword::Event(word) => event_text(word),
    }
}

fn part_text(word: PartWord) -> &'static str
    ensures { result.now ≡ part_text word }
{
    match word {
        PartWord::Fenix => "fenix",
        PartWord::Ranks => "ranks",
        PartWord::Spares => "spares",
        PartWord::Separation => "separation",
        PartWord::Array => "array",
        PartWord::Counter => "counter",
        PartWord::Callback => "callback",
        PartWord::EndCallback => "endcallback",
        PartWord::Begin => "begin",
        PartWord::End => "end",
        PartWord::Schedule => "schedule",
        PartWord::Stop => "stop",
    }
}

fn edge_text(word: EdgeWord) -> &'static str
    ensures { result.now ≡ edge_text word }
{
    match word {
        EdgeWord::When => "when",
        EdgeWord::EndWhen => "endwhen",
        EdgeWord::If => "if",
        EdgeWord::Else => "else",
        EdgeWord::EndIf => "endif",
        EdgeWord::For => "for",
        EdgeWord::EndFor => "endfor",
    }
}

fn simple_text(word: SimpleWord) -> &'static str
    ensures { result.now ≡ simple_text word }
{
    match word {
        SimpleWord::Let => "let",
        SimpleWord::Set => "set",
        SimpleWord::Print => "print",
        SimpleWord::Register => "register",
        SimpleWord::Barrier => "barrier",
        SimpleWord::Sum => "sum",
        SimpleWord::Min => "min",
        SimpleWord::Max => "max",
        SimpleWord::Agree => "agree",
        SimpleWord::Shift => "shift",
        SimpleWord::Group => "group",
        SimpleWord::Member => "member",
        SimpleWord::Store => "store",
        SimpleWord::Commit => "commit",
        SimpleWord::CommitBarrier => "commitbarrier",
        SimpleWord::Restore => "restore",
        SimpleWord::Drop => "drop",
    }
}

fn event_text(word: EventWord) -> &'static str
    ensures { result.now ≡ event_text word }
{
    match word {
        EventWord::Step => "step",
        EventWord::Rest => "rest",
        EventWord::Deliver => "deliver",
        EventWord::Kill => "kill",
        EventWord::Notice => "notice",
        EventWord::Run => "run",
    }
}

/// The keyword that a word stands for.
#[tactic(auto, using(crate::proofs::KeywordLemmas::found_by_first))]
pub fn keyword_of(word: &[u8]) -> Option<Keyword>
    ensures { result ≡ keyword_of word.now }
{
    match word {
        [] => None,
        [first, ..] => first_that_fits(word, beginning_with(*first)),
    }
}

fn first_that_fits(word: &[u8], keywords: &[Keyword]) -> Option<Keyword>
    ensures { result ≡ find (stands_for word.now) keywords.now }
{
    keywords
        .iter()
        .copied()
        .find(|keyword| is_same(word, keyword_text(*keyword).as_bytes()))
}

// The keywords whose words begin with this letter. A look at these alone is much cheaper than one at all keywords.
fn beginning_with(first: u8) -> &'static [Keyword]
    ensures { result.now ≡ filter (begins_with first) keywords }
{
    match first {
        b'a' => &[
            Keyword::Simple(SimpleWord::Agree),
            Keyword::Part(PartWord::Array),
        ],
        b'b' => &[
            Keyword::Simple(SimpleWord::Barrier),
            Keyword::Part(PartWord::Begin),
        ],
        b'c' => &[
            Keyword::Simple(SimpleWord::Commit),
            Keyword::Simple(SimpleWord::CommitBarrier),
            Keyword::Part(PartWord::Counter),
            Keyword::Part(PartWord::Callback),
        ],
        b'd' => &[
            Keyword::Simple(SimpleWord::Drop),
            Keyword::Event(EventWord::Deliver),
        ],
        b'e' => &[
            Keyword::Edge(EdgeWord::EndWhen),
            Keyword::Edge(EdgeWord::Else),
            Keyword::Edge(EdgeWord::EndIf),
            Keyword::Edge(EdgeWord::EndFor),
            Keyword::Part(PartWord::EndCallback),
            Keyword::Part(PartWord::End),
        ],
        b'f' => &[Keyword::Edge(EdgeWord::For), Keyword::Part(PartWord::Fenix)],
        b'g' => &[Keyword::Simple(SimpleWord::Group)],
        b'i' => &[Keyword::Edge(EdgeWord::If)],
        b'k' => &[Keyword::Event(EventWord::Kill)],
        b'l' => &[Keyword::Simple(SimpleWord::Let)],
        b'm' => &[
            Keyword::Simple(SimpleWord::Min),
            Keyword::Simple(SimpleWord::Max),
            Keyword::Simple(SimpleWord::Member),
        ],
        b'n' => &[Keyword::Event(EventWord::Notice)],
        b'p' => &[Keyword::Simple(SimpleWord::Print)],
        b'r' => &[
            Keyword::Simple(SimpleWord::Register),
            Keyword::Simple(SimpleWord::Restore),
            Keyword::Event(EventWord::Rest),
            Keyword::Event(EventWord::Run),
            Keyword::Part(PartWord::Ranks),
        ],
        b's' => &[
            Keyword::Event(EventWord::Step),
            Keyword::Simple(SimpleWord::Set),
            Keyword::Simple(SimpleWord::Sum),
            Keyword::Simple(SimpleWord::Shift),
            Keyword::Simple(SimpleWord::Store),
            Keyword::Part(PartWord::Spares),
            Keyword::Part(PartWord::Separation),
            Keyword::Part(PartWord::Schedule),
            Keyword::Part(PartWord::Stop),
        ],
        b'w' => &[Keyword::Edge(EdgeWord::When)],
        _ => &[],
    }
}

// Whether two words are the same. For words as short as keywords this is much cheaper than `==`.
fn is_same(word: &[u8], other: &[u8]) -> bool
    ensures { result ≡ bytes_eq word.now other.now }
{
    match word {
        [] => other.is_empty(),
        [byte, word @ ..] => match other {
            [] => false,
            [wanted, other @ ..] => *byte == *wanted && is_same(word, other),
        },
    }
}

/// Whether a word is this text.
pub fn is_text(word: &[u8], text: &str) -> bool
    ensures { result ≡ bytes_eq word.now text.now }
{
    word == text.as_bytes()
}
