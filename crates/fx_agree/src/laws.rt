//! The laws of ballots, for every number of members, all votes and every list of moves. They hold under any names of the seats
//! that are apart, and for the members 0 to n - 1. A seat is a member's number in its ballot, from 0; to be told is to be told
//! of a loss. That anybody decides is not among them.
ghost use Rattle.std.specs.Prelude.{ℕ, List};
ghost use Rattle.fx_ballot.specs.World.{Move, Apart, plain, run, start};
ghost use Rattle.fx_ballot.specs.Laws.{OneDecision, Origin, OriginOfSaid, StillOpen, LeavingTellsAll, OwnSlot, RoundsNameTheirSender, Happened};
ghost use Rattle.fx_ballot.specs.Laws.{PastHasSent, StrangersOnlyLeave, ClearLinksEnable};
ghost use Rattle.fx_ballot.specs.Alike.{AlikeOnSeats, EarlyMessages, QuietTurns};
ghost use Rattle.fx_ballot.specs.Names.{Distinct, NamesSeats};

/// All that decide, decide alike: whoever has decided holds one list of slots, and it makes no difference whether it lives on,
/// left or was killed since.
pub fn one_decision()
    ensures under_names { (n : ℕ) (name : ℕ → ℕ) (moves : List Move) → Apart n name → OneDecision (run n name moves start) }
    ensures of_plain_members { (n : ℕ) (moves : List Move) → OneDecision (run n plain moves start) }
{}

/// No slot is made up. An estimate has one for each member, wherever it is met: held, decided, heard or under way. A vote in it
/// was cast by its member, `Lost` stands for one that was killed, and `Left` for one that left and had never entered.
pub fn origin()
    ensures under_names { (n : ℕ) (name : ℕ → ℕ) (moves : List Move) → Apart n name → Origin n name (run n name moves start) }
    ensures of_plain_members { (n : ℕ) (moves : List Move) → Origin n plain (run n plain moves start) }
    ensures of_what_is_said { (n : ℕ) (name : ℕ → ℕ) (moves : List Move) → Apart n name → OriginOfSaid n name (run n name moves start) }
{}

/// Once somebody has decided, every member that was neither killed nor left is past its own round and holds the decided
/// slots, and every estimate that it may still adopt is the decided one.
pub fn still_open()
    ensures under_names { (n : ℕ) (name : ℕ → ℕ) (moves : List Move) → Apart n name → StillOpen n name (run n name moves start) }
    ensures of_plain_members { (n : ℕ) (moves : List Move) → StillOpen n plain (run n plain moves start) }
{}

/// A member that has seen another leave and wasn't told of its loss has heard the vote and the estimate that the other sent,
/// where it sent them.
pub fn leaving_tells_all()
    ensures under_names { (n : ℕ) (name : ℕ → ℕ) (moves : List Move) → Apart n name → LeavingTellsAll n name (run n name moves start) }
    ensures of_plain_members { (n : ℕ) (moves : List Move) → LeavingTellsAll n plain (run n plain moves start) }
{}

/// A member that has entered and wasn't killed finds its own vote in its own slot of every estimate that it heard or that is
/// under way to it.
pub fn own_slot()
    ensures under_names { (n : ℕ) (name : ℕ → ℕ) (moves : List Move) → Apart n name → OwnSlot n name (run n name moves start) }
    ensures of_plain_members { (n : ℕ) (moves : List Move) → OwnSlot n plain (run n plain moves start) }
{}

/// An estimate that is under way was sent by the member of its round.
pub fn rounds_name_their_sender()
    ensures under_names { (n : ℕ) (name : ℕ → ℕ) (moves : List Move) → Apart n name → RoundsNameTheirSender n name (run n name moves start) }
    ensures of_plain_members { (n : ℕ) (moves : List Move) → RoundsNameTheirSender n plain (run n plain moves start) }
{}

/// What the other laws call a vote that was cast, one that left and one that was killed came about by a move of the list that
/// was enabled when it came: an entering with that vote, a leaving, a killing.
pub fn happened()
    ensures under_names { (n : ℕ) (name : ℕ → ℕ) (moves : List Move) → Apart n name → Happened n name moves }
    ensures of_plain_members { (n : ℕ) (moves : List Move) → Happened n plain moves }
{}

/// A member that is past its own round has sent its estimate.
pub fn past_own_round_has_sent()
    ensures { (n : ℕ) (name : ℕ → ℕ) (moves : List Move) → Apart n name → PastHasSent n name (run n name moves start) }
{}

/// Of a process without a seat nothing is heard or under way, and once it leaves nothing but its leaving.
pub fn strangers_only_leave()
    ensures { (n : ℕ) (name : ℕ → ℕ) (moves : List Move) → Apart n name → StrangersOnlyLeave n name (run n name moves start) }
{}

/// A member that has heard all that was sent to it and was told of each that was killed has a turn, once all that stay have
/// entered, unless it is in the round of one that stays and isn't past that round.
pub fn clear_links_enable()
    ensures { (n : ℕ) (name : ℕ → ℕ) (moves : List Move) → Apart n name → ClearLinksEnable n name (run n name moves start) }
{}

/// Members of one phase that know the same of each seat take the same turn, and stay so by all that comes. What comes of a
/// process without a seat doesn't show on the seats.
pub fn alike_on_seats()
    ensures { (n : ℕ) (name : ℕ → ℕ) → AlikeOnSeats n name }
{}

/// What a member heard or was told of others before it entered may as well have come after.
pub fn early_messages()
    ensures { (me p : ℕ) → EarlyMessages me p }
{}

/// A turn that does nothing changes nothing.
pub fn quiet_turns()
    ensures { QuietTurns }
{}

/// A list of distinct processes names the seats: apart, and each process of the list, and no other, is a member.
pub fn names_of_seats()
    ensures { (who : List ℕ) → Distinct who → NamesSeats who }
{}
