ghost use Rattle.std.specs.Prelude.{◌≡◌, ◌||◌, suc, map};
ghost use Rattle.fx_inbox.specs.Ballots.{about_of, is_vote_in};
ghost use Rattle.fx_machine.specs.Messages.{wire_text};
ghost use Rattle.fx_machine.specs.Reading.{OfCall, OfEpoch, first_read, only, vote_in};

use crate::ballot::{About, is_next};
use fx_base::{CallNo, Epoch};
use fx_link::{Message, Slot};

/// The first vote in a ballot among the messages of a process. One's own counts as it is, another's where it may be a
/// vote there.
pub(crate) fn first_vote(messages: &[Message], about: About, own: bool) -> Option<Slot>
    ensures { result ≡ first_read (λ t. only (λ x. own || is_vote_in about x) (vote_in (about_of about) t)) (map wire_text messages.now) }
{
    for message in messages {
        if let Some(slot) = counted(message, about, own) {
            return Some(slot);
        }
    }
    None
}

// The vote that a message is, if it is one that counts.
fn counted(message: &Message, about: About, own: bool) -> Option<Slot>
    ensures { result ≡ only (λ x. own || is_vote_in about x) (vote_in (about_of about) (wire_text message.now)) }
{
    match vote_in(message, about) {
        Some(slot) if own || about.is_vote(slot) => Some(slot),
        _ => None,
    }
}

// The vote that a message is, if it is one.
fn vote_in(message: &Message, about: About) -> Option<Slot>
    ensures { result ≡ vote_in (about_of about) (wire_text message.now) }
{
    match about {
        About::Epoch(epoch) => join_in(message, epoch),
        About::Call(epoch, call, _) => vote_of_call(message, epoch, call),
    }
}

fn join_in(message: &Message, epoch: Epoch) -> Option<Slot>
    ensures { result ≡ vote_in (OfEpoch (suc epoch.0)) (wire_text message.now) }
{
    match message {
        Message::Join { e, kind } if is_next(*e, epoch) => Some(*kind),
        _ => None,
    }
}

fn vote_of_call(message: &Message, epoch: Epoch, call: CallNo) -> Option<Slot>
    ensures { result ≡ vote_in (OfCall epoch.0 call.0) (wire_text message.now) }
{
    match message {
        Message::Vote { e, k, slot } if *e == epoch && *k == call => Some(*slot),
        _ => None,
    }
}
