//! A look at the parts of a call, which makes nothing.
ghost use Rattle.std.specs.Prelude.{◌≡◌, ◌<◌, ◌||◌, if◌then◌else◌, Some, true, length};
ghost use Rattle.fx_comm.specs.Seats.{place_in};
ghost use Rattle.fx_inbox.specs.Joins.{IsCalm};
ghost use Rattle.fx_inbox.specs.Keeping.{IsInboxOf};
ghost use Rattle.fx_machine.specs.Nodes as defined;
ghost use Rattle.fx_machine.specs.Reading.{has_left};
ghost use Rattle.fx_node.specs.Asking.{gathers_parts};
ghost use Rattle.fx_node.specs.Glancing.{IsSeen, IsSeenAt, both, is_there};
ghost use Rattle.fx_node.specs.Standing.{IsNodeOf};
ghost use Rattle.fx_node.specs.declared.glance.Glance.TheVariants as Glance;
ghost use Rattle.fx_script.specs.declared.job.Job.{Job};

use crate::call::due;
use crate::node::Node;
use fx_base::{CallNo, Place};
use fx_flow::Wanted;

/// What is seen of the parts of a call at a glance.
#[derive(Clone, Copy, Debug)]
pub(crate) enum Glance {
    /// They are there.
    Whole,
    /// One is still to come, and none is missing whose process is lost or has left.
    Waiting,
    /// It takes a closer look.
    Unclear,
}

impl Node {
    /// What is seen of the parts of all places, by its own place.
    pub(crate) fn glance(&self, own: Place, wanted: &Wanted) -> Glance
        requires there { place_in self.now.comm self.now.me ≡ Some own.0 }
        requires inside { own.0 < length self.now.comm }
        ensures { (job : Job) (n : defined.Node) → IsNodeOf job self.now n → gathers_parts wanted.now ≡ true → IsSeen result n wanted.now }
    {
        if self.inbox.is_calm() {
            return self.glance_in_calm(own, wanted);
        }
        let mut seen = Glance::Whole;
        for one in 0..self.comm.size() {
            seen = both(seen, self.glance_at(own, Place(one), wanted));
        }
        seen
    }

    // What is seen where nobody is lost or has left. The parts of the last places mostly come last.
    fn glance_in_calm(&self, own: Place, wanted: &Wanted) -> Glance
        requires there { place_in self.now.comm self.now.me ≡ Some own.0 }
        requires inside { own.0 < length self.now.comm }
        requires calm { (n : defined.Node) → IsInboxOf n self.now.inbox → IsCalm n }
        ensures { (job : Job) (n : defined.Node) → IsNodeOf job self.now n → gathers_parts wanted.now ≡ true → IsSeen result n wanted.now }
    {
        for one in (0..self.comm.size()).rev() {
            if !self.is_there(own, Place(one), wanted) {
                return Glance::Waiting;
            }
        }
        Glance::Whole
    }

    // Whether the part of a place is there.
    fn is_there(&self, own: Place, one: Place, wanted: &Wanted) -> bool
        requires there { place_in self.now.comm self.now.me ≡ Some own.0 }
        requires inside { own.0 < length self.now.comm }
        requires below { one.0 < length self.now.comm }
        ensures { (job : Job) (n : defined.Node) → IsNodeOf job self.now n → gathers_parts wanted.now ≡ true → result ≡ is_there n wanted.now one.0 }
    {
        if one.0 == own.0 {
            return true;
        }
        let who = self.comm.proc_at(one).0;
        let due = due(wanted, self.comm.size(), own, one);
        self.inbox
            .part_of(self.epoch, CallNo(self.calls), who, due)
            .is_some()
    }

    // What is seen of the part of one place.
    fn glance_at(&self, own: Place, one: Place, wanted: &Wanted) -> Glance
        requires there { place_in self.now.comm self.now.me ≡ Some own.0 }
        requires inside { own.0 < length self.now.comm }
        requires below { one.0 < length self.now.comm }
        ensures { (job : Job) (n : defined.Node) → IsNodeOf job self.now n → gathers_parts wanted.now ≡ true → IsSeenAt result n wanted.now one.0 }
    {
        if self.is_there(own, one, wanted) {
            return Glance::Whole;
        }
        let who = self.comm.proc_at(one).0;
        self.glance_without(who, self.inbox.is_lost(who))
    }

    // What is seen where the part of a process is missing, which may be lost.
    fn glance_without(&self, who: u8, lost: bool) -> Glance
        ensures { (job : Job) (n : defined.Node) → IsNodeOf job self.now n → result ≡ (if lost || has_left n who then Glance.Unclear else Glance.Waiting) }
    {
        if lost || self.has_left(who) {
            Glance::Unclear
        } else {
            Glance::Waiting
        }
    }
}

// What is seen of both.
fn both(one: Glance, other: Glance) -> Glance
    ensures { result ≡ both one other }
{
    match one {
        Glance::Whole => other,
        Glance::Waiting => match other {
            Glance::Unclear => Glance::Unclear,
            Glance::Whole | Glance::Waiting => Glance::Waiting,
        },
        Glance::Unclear => Glance::Unclear,
    }
}
