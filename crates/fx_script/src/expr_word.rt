ghost use Rattle.std.specs.Prelude.{◌≡◌};
ghost use Rattle.fx_script.specs.Outcome.{Gives, GivesLeaving};
ghost use Rattle.fx_script.specs.Exprs.{is_meant_as_number, operand_in, token_in, stepped};
ghost use Rattle.fx_script.specs.Next.{word_of};

use crate::cursor::FoundWord;
use crate::expr::{Expr, Pending, Sign, Step, Token, settle};
use crate::keyword::is_text;
use crate::refusal::Stop;
use crate::stack::Stack;
use fx_base::Bytes;
use fx_text::is_name;
use std::alloc::Global;

/// Takes a word of an expression behind these signs; `group` says that a group is due.
pub fn take_word(
    alloc: Global,
    word: &FoundWord,
    group: bool,
    pending: &mut Stack<Pending>,
) -> Result<Step, Stop>
    ensures { GivesLeaving result pending.new (stepped group pending.old (word_of word.now)) }
{
    if group {
        let latest = word.number()?;
        return Ok(settle(alloc, Expr::Latest(latest), pending)?);
    }
    match token(alloc, word)? {
        Token::Sign(sign) => {
            pending.push(Pending::First(sign))?;
            Ok(Step::More(false))
        }
        Token::Latest => Ok(Step::More(true)),
        Token::Leaf(expr) => Ok(settle(alloc, expr, pending)?),
    }
}

fn token(alloc: Global, word: &FoundWord) -> Result<Token, Stop>
    ensures { Gives result (token_in (word_of word.now)) }
{
    let bytes = word.bytes;
    if is_text(bytes, "+") {
        return Ok(Token::Sign(Sign::Plus));
    }
    if is_text(bytes, "-") {
        return Ok(Token::Sign(Sign::Minus));
    }
    if is_text(bytes, "*") {
        return Ok(Token::Sign(Sign::Times));
    }
    if is_text(bytes, "index") {
        return Ok(Token::Leaf(Expr::Index));
    }
    if is_text(bytes, "rank") {
        return Ok(Token::Leaf(Expr::Rank));
    }
    if is_text(bytes, "size") {
        return Ok(Token::Leaf(Expr::Size));
    }
    if is_text(bytes, "latest") {
        return Ok(Token::Latest);
    }
    operand(alloc, word)
}

// A number or a name.
fn operand(alloc: Global, word: &FoundWord) -> Result<Token, Stop>
    ensures { Gives result (operand_in (word_of word.now)) }
{
    if is_meant_as_number(word.bytes) {
        return Ok(Token::Leaf(Expr::Number(word.number()?)));
    }
    if !is_name(word.bytes) {
        return Err(word.misfit());
    }
    let mut name = Bytes::new(alloc);
    name.append(word.bytes)?;
    Ok(Token::Leaf(Expr::Name(name)))
}

fn is_meant_as_number(word: &[u8]) -> bool
    ensures { result ≡ is_meant_as_number word.now }
{
    match word {
        [] => false,
        [first, rest @ ..] => {
            (*first >= b'0' && *first <= b'9') || (*first == b'-' && !rest.is_empty())
        }
    }
}
