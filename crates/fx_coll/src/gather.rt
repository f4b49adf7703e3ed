ghost use Rattle.std.specs.Prelude.{◌≡◌, ◌<◌, ◌≤◌, ◌↔◌, ℕ, replicate, length, Some, IfOk};
ghost use Rattle.fx_coll.specs.Keeping.{HoldsNumbers, unknown, known_at, begun, gives, is_lost, has_left, folded, numbers};
ghost use Rattle.fx_coll.specs.Answer.{IsWhole, LostWithout, LeftWithout, IsLeast, Nobody, is_whole, least_lost, least_left, answer_of};
ghost use Rattle.fx_walk.specs.Values.{combined, reduced_with};

use crate::known::Known;
use crate::part::Part;
use crate::poll::CollPoll;
use fx_base::{NoMemory, Op};
use std::alloc::Global;
use std::marker::Model;

/// What one member keeps of a call whose answer is made of a part of each member. It is seen as the list of what it knows of
/// each member, by place. Only `new` takes memory.
#[derive(Debug, Drop)]
pub struct Gather {
    members: u8,
    known: Vec<Known>,
}

impl Model for Gather {
    ghost use Rattle.std.specs.Prelude.{◌≡◌, List, length};
    ghost use Rattle.fx_coll.specs.declared.known.Known.{Known};

    ghost Value = { List Known };

    ghost view = { λ g. g.known.items };

    ghost invariant = { λ g. length g.known.items ≡ g.members };
}

impl Gather {
    /// The call of the member at place `me`, below `members`, of 1 to 32 members, that gives this part. Fails only without
    /// memory.
    pub fn new(alloc: Global, members: u8, me: u8, own: Part) -> Result<Gather, NoMemory>
        requires few { members ≤ 32 }
        requires member { me < members }
        ensures begins { IfOk result (λ gather. gather ≡ begun members me own) }
        ensures knows_each { IfOk result (λ gather. length gather ≡ members) }
    {
        let mut known = nothing_known(alloc, members)?;
        known[usize::from(me)].part = Some(own);
        Ok(Gather { members, known })
    }

    /// The part of the member at place `from`, below the number of members, came. A second one changes nothing.
    pub fn on_part(&mut self, from: u8, part: Part)
        requires { from < length self.old }
        ensures is_given { self.new ≡ gives from part self.old }
        ensures keeps_its_members { length self.new ≡ length self.old }
    {
        let given = &mut self.known[usize::from(from)].part;
        if given.is_none() {
            *given = Some(part);
        }
    }

    /// The member at place `who`, below the number of members, is lost.
    pub fn on_lost(&mut self, who: u8)
        requires { who < length self.old }
        ensures was_told { self.new ≡ is_lost who self.old }
        ensures keeps_its_members { length self.new ≡ length self.old }
    {
        self.known[usize::from(who)].lost = true;
    }

    /// The member at place `who`, below the number of members, left.
    pub fn on_left(&mut self, who: u8)
        requires { who < length self.old }
        ensures was_told { self.new ≡ has_left who self.old }
        ensures keeps_its_members { length self.new ≡ length self.old }
    {
        self.known[usize::from(who)].left = true;
    }

    /// How the call stands: `Done` where the part of each member is there; else `Failed` with the least place of a lost member
    /// whose part is absent; else `Revoked` with the least place of one that left and whose part is absent; else `NotYet`.
    pub fn poll(&self) -> CollPoll
        ensures answers { result ≡ answer_of self.now }
        ensures done { (result ≡ CollPoll.Done) ↔ IsWhole self.now }
        ensures failed { (x : ℕ) → (result ≡ CollPoll.Failed x) ↔ IsLeast (LostWithout self.now) x }
        ensures revoked { (x : ℕ) → (result ≡ CollPoll.Revoked x) ↔ (Nobody (LostWithout self.now) × IsLeast (LeftWithout self.now) x) }
        ensures not_yet { (result ≡ CollPoll.NotYet) ↔ ((¬ IsWhole self.now) × Nobody (LostWithout self.now) × Nobody (LeftWithout self.now)) }
    {
        self.answer()
    }

    /// What the operation makes of the numbers of all members, in rising place. A sum wraps at 64 bits. The call is done, and
    /// all its parts are numbers.
    pub fn folded(&self, op: Op) -> i64
        requires { HoldsNumbers self.now }
        ensures { result ≡ folded op self.now }
    {
        match self.known.split_first() {
            None => 0,
            Some((first, more)) => folded_with(op, first.number(), more),
        }
    }

    /// The part of the member at place `from`, below the number of members. The call is done.
    pub fn part_of(&self, from: u8) -> &Part
        requires done { IsWhole self.now }
        requires member { from < length self.now }
        ensures { (known_at self.now from).part ≡ Some result.now }
    {
        self.known[usize::from(from)].part.as_ref().unwrap()
    }

    fn answer(&self) -> CollPoll
        ensures { result ≡ answer_of self.now }
    {
        if self.is_whole() {
            CollPoll::Done
        } else if let Some(who) = self.least_lost() {
            CollPoll::Failed(who)
        } else if let Some(who) = self.least_left() {
            CollPoll::Revoked(who)
        } else {
            CollPoll::NotYet
        }
    }

    fn is_whole(&self) -> bool
        ensures { result ≡ is_whole self.now }
    {
        for known in &self.known {
            if known.part.is_none() {
                return false;
            }
        }
        true
    }

    fn least_lost(&self) -> Option<u8>
        ensures { result ≡ least_lost self.now }
    {
        for who in 0..self.members {
            if self.known[usize::from(who)].is_lost_without() {
                return Some(who);
            }
        }
        None
    }

    fn least_left(&self) -> Option<u8>
        ensures { result ≡ least_left self.now }
    {
        for who in 0..self.members {
            if self.known[usize::from(who)].has_left_without() {
                return Some(who);
            }
        }
        None
    }
}

/// That nothing is known of any of the members.
fn nothing_known(alloc: Global, members: u8) -> Result<Vec<Known>, NoMemory>
    ensures { IfOk result (λ known. known.items ≡ replicate members unknown) }
{
    let mut known = Vec::new(alloc);
    for _place in 0..members {
        known.push(Known {
            part: None,
            lost: false,
            left: false,
        })?;
    }
    Ok(known)
}

/// What the operation makes of two numbers. A sum wraps at 64 bits.
pub fn combined(op: Op, one: i64, other: i64) -> i64
    ensures { result ≡ combined op one other }
{
    match op {
        Op::Sum => one.wrapping_add(other),
        Op::Min => { if other < one { other } else { one } }
        Op::Max => { if one < other { other } else { one } }
    }
}

/// A number and those of more members made to one, one after another.
fn folded_with(op: Op, first: i64, more: &[Known]) -> i64
    ensures { result ≡ reduced_with op first (numbers more.now) }
{
    let mut so_far = first;
    for known in more {
        so_far = combined(op, so_far, known.number());
    }
    so_far
}
