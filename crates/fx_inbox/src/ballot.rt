ghost use Rattle.std.specs.Prelude.{◌≡◌, ◌≤◌, ◌==◌, suc, length};
ghost use Rattle.fx_ballot.specs.Names.{has, seat_of};
ghost use Rattle.fx_inbox.specs.Ballots.{about_of, is_vote_in};
ghost use Rattle.fx_inbox.specs.declared.ballot.About.TheVariants as About;
ghost use Rattle.fx_machine.specs.Reading.{is_join, is_of_call};
ghost use Rattle.fx_machine.specs.Waits.{is_flag};

use fx_base::{CallNo, Epoch};
use fx_link::Slot;

/// What may be a vote in the ballot of a call.
#[derive(Clone, Copy, Debug)]
pub enum Votes {
    /// A flag.
    Flags,
}

/// What a ballot is about.
#[derive(Clone, Copy, Debug)]
pub enum About {
    /// The begin of the epoch behind this one.
    Epoch(Epoch),
    /// This call of an epoch.
    Call(Epoch, CallNo, Votes),
}

/// A ballot that a process takes part in.
#[derive(Debug, Drop)]
pub struct Ballot<'a> {
    /// What it is about.
    pub about: About,
    /// Its members, by seat.
    pub members: &'a [u8],
    /// The processes that are present in the epoch in which it takes place.
    pub present: &'a [u8],
}

impl<'a> Ballot<'a> {
    /// The ballot of the epoch behind this one, whose members are those that are present.
    pub fn of_next(epoch: Epoch, present: &'a [u8]) -> Ballot<'a>
        ensures { result ≡ record { about = About.Epoch epoch; members = present.entry; present = present.entry } }
    {
        Ballot {
            about: About::Epoch(epoch),
            members: present,
            present,
        }
    }
}

impl About {
    /// Whether a slot may be a vote.
    pub(crate) fn is_vote(self, slot: Slot) -> bool
        ensures { result ≡ is_vote_in self slot }
    {
        match self {
            About::Epoch(epoch) => is_join(epoch, slot),
            About::Call(_, _, Votes::Flags) => is_flag(slot),
        }
    }

    /// Whether it is a call.
    pub(crate) fn is_call(self) -> bool
        ensures { result ≡ is_of_call (about_of self) }
    {
        matches!(self, About::Call(..))
    }
}

/// The seat of a process among at most 32 members, from 0; of one that isn't among them their number.
pub fn seat_of(members: &[u8], who: u8) -> u8
    requires { length members.now ≤ 32 }
    ensures same { result ≡ seat_of members.now who }
    ensures at_most { result ≤ length members.now }
{
    let mut seat = 0;
    for member in members {
        if *member == who {
            return seat;
        }
        seat += 1;
    }
    seat
}

/// Whether a process is among these.
pub(crate) fn has(members: &[u8], who: u8) -> bool
    ensures { result ≡ has members.now who }
{
    for member in members {
        if *member == who {
            return true;
        }
    }
    false
}

/// Whether a slot may be a vote in the ballot of the epoch behind this one: `start` in the first, and else `spare`,
/// `error` and `final`.
pub fn is_join(epoch: Epoch, slot: Slot) -> bool
    ensures { result ≡ is_join (suc epoch.0) slot }
{
    match slot {
        Slot::Start => epoch.0 == 0,
        Slot::Spare | Slot::Error | Slot::Final => epoch.0 != 0,
        _ => false,
    }
}

fn is_flag(slot: Slot) -> bool
    ensures { result ≡ is_flag slot }
{
    matches!(slot, Slot::Flag(_))
}

/// Whether this is the epoch behind the other.
pub(crate) fn is_next(e: Epoch, epoch: Epoch) -> bool
    ensures { result ≡ (e.0 == suc epoch.0) }
{
    u64::from(e.0) == u64::from(epoch.0) + 1
}
