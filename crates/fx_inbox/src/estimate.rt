ghost use Rattle.std.specs.Prelude.{◌≡◌, ◌||◌, ◌==◌, ◌&&◌, suc, map};
ghost use Rattle.std.specs.List.{list_all, list_any};
ghost use Rattle.std.specs.Option.{option_copied};
ghost use Rattle.fx_inbox.specs.Ballots.{about_of, ballot_of};
ghost use Rattle.fx_inbox.specs.Measures.{is_estimate_in, is_fit};
ghost use Rattle.fx_machine.specs.Messages.{wire_text};
ghost use Rattle.fx_machine.specs.Reading.{OfCall, OfEpoch, are_same, estimate_in, first_read, may_stand, only, same_slot};

use crate::ballot::{About, Ballot, is_next};
use fx_base::{CallNo, Epoch};
use fx_link::{Message, Slot, Slots};

/// What an estimate of another is measured by in a ballot.
#[derive(Clone, Copy, Debug)]
pub(crate) struct Measure {
    /// One's own seat, from 0.
    pub seat: u8,
    /// The vote that one cast.
    pub vote: Option<Slot>,
}

impl Measure {
    /// Whether an estimate has as many slots as there are members, each one that may stand there,
    /// and at one's own seat exactly the vote that one cast.
    fn is_met(&self, ballot: &Ballot, slots: &Slots) -> bool
        ensures { result ≡ is_fit ballot.now self.now slots.now }
    {
        slots.len() == ballot.members.len()
            && may_all_stand(ballot, slots.as_slice())
            && are_same(slots.nth(usize::from(self.seat)).copied(), self.vote)
    }
}

/// The first estimate of this round among the messages of a process. One's own counts as it is,
/// another's where it meets the measure.
pub(crate) fn first_estimate<'a>(
    messages: &'a [Message],
    round: u8,
    own: bool,
    ballot: &Ballot,
    measure: &Measure,
) -> Option<&'a Slots>
    ensures { option_copied result ≡ first_read (λ t. only (λ slots. own || is_fit ballot.now measure.now slots) (estimate_in (about_of ballot.now.about) round t)) (map wire_text messages.now) }
{
    for message in messages {
        if let Some(slots) = estimate_in(message, ballot.about, round) {
            if own || measure.is_met(ballot, slots) {
                return Some(slots);
            }
        }
    }
    None
}

/// Whether one of the messages is an estimate in a ballot, of whatever round.
pub(crate) fn has_estimate(messages: &[Message], about: About) -> bool
    ensures { result ≡ list_any (is_estimate_in (about_of about)) (map wire_text messages.now) }
{
    for message in messages {
        if is_estimate(message, about) {
            return true;
        }
    }
    false
}

fn is_estimate(message: &Message, about: About) -> bool
    ensures { result ≡ is_estimate_in (about_of about) (wire_text message.now) }
{
    match about {
        About::Epoch(epoch) => is_of_epoch(message, epoch),
        About::Call(epoch, call, _) => is_of_call(message, epoch, call),
    }
}

fn is_of_epoch(message: &Message, epoch: Epoch) -> bool
    ensures { result ≡ is_estimate_in (OfEpoch (suc epoch.0)) (wire_text message.now) }
{
    match message {
        Message::Jest { e, .. } => is_next(*e, epoch),
        _ => false,
    }
}

fn is_of_call(message: &Message, epoch: Epoch, call: CallNo) -> bool
    ensures { result ≡ is_estimate_in (OfCall epoch.0 call.0) (wire_text message.now) }
{
    match message {
        Message::Est { e, k, .. } => *e == epoch && *k == call,
        _ => false,
    }
}

// The estimate of this round that a message is, if it is one.
fn estimate_in(message: &Message, about: About, round: u8) -> Option<&Slots>
    ensures { option_copied result ≡ estimate_in (about_of about) round (wire_text message.now) }
{
    match about {
        About::Epoch(epoch) => in_epoch(message, epoch, round),
        About::Call(epoch, call, _) => in_call(message, epoch, call, round),
    }
}

fn in_epoch(message: &Message, epoch: Epoch, round: u8) -> Option<&Slots>
    ensures { option_copied result ≡ estimate_in (OfEpoch (suc epoch.0)) round (wire_text message.now) }
{
    match message {
        Message::Jest { e, r, slots } if is_next(*e, epoch) && *r == round => Some(slots),
        _ => None,
    }
}

fn in_call(message: &Message, epoch: Epoch, call: CallNo, round: u8) -> Option<&Slots>
    ensures { option_copied result ≡ estimate_in (OfCall epoch.0 call.0) round (wire_text message.now) }
{
    match message {
        Message::Est { e, k, r, slots } if *e == epoch && *k == call && *r == round => Some(slots),
        _ => None,
    }
}

// Whether each of them may stand in an estimate.
fn may_all_stand(ballot: &Ballot, slots: &[Slot]) -> bool
    ensures { result ≡ list_all (may_stand (ballot_of ballot.now)) slots.now }
{
    for slot in slots {
        if !may_stand(ballot, *slot) {
            return false;
        }
    }
    true
}

// Whether it may stand in an estimate: a vote, or that a member is lost, and in a call that it left.
fn may_stand(ballot: &Ballot, slot: Slot) -> bool
    ensures { result ≡ may_stand (ballot_of ballot.now) slot }
{
    ballot.about.is_vote(slot)
        || matches!(slot, Slot::Lost)
        || ballot.about.is_call() && matches!(slot, Slot::Left)
}

// Whether both are there and the same.
fn are_same(slot: Option<Slot>, vote: Option<Slot>) -> bool
    ensures { result ≡ are_same slot vote }
{
    match (slot, vote) {
        (Some(slot), Some(vote)) => slot == vote,
        _ => false,
    }
}
