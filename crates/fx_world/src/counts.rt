ghost use Rattle.std.specs.Prelude.{◌≡◌};
ghost use Rattle.fx_world.specs.Counting.{counted_one, no_counts, one_more};

use fx_base::How;
use fx_item::Item;

/// How often what happens in a journal happened. A count stands still at 18,446,744,073,709,551,615.
#[derive(Clone, Copy, Debug, PartialEq, Eq)]
pub struct Counts {
    /// The highest epoch in which `Init` returned; 0 without one.
    pub epochs: u64,
    /// Processes that were killed.
    pub kills: u64,
    /// Returns of `Init`.
    pub inits: u64,
    /// Groups that were created as new ones.
    pub fresh: u64,
    /// Groups whose snapshots were kept.
    pub kept: u64,
    /// Groups whose snapshots were lost.
    pub lost: u64,
    /// Commit barriers that closed a group.
    pub closed: u64,
    /// Stores of a member.
    pub stores: u64,
    /// Restores of a member.
    pub restores: u64,
    /// Calls that failed.
    pub failed: u64,
    /// Calls that were revoked.
    pub revoked: u64,
    /// Processes that have ended.
    pub ended: u64,
}

impl Counts {
    /// Nothing has happened.
    pub(crate) fn none() -> Counts
        ensures { result ≡ no_counts }
    {
        Counts {
            epochs: 0,
            kills: 0,
            inits: 0,
            fresh: 0,
            kept: 0,
            lost: 0,
            closed: 0,
            stores: 0,
            restores: 0,
            failed: 0,
            revoked: 0,
            ended: 0,
        }
    }

    /// One more item.
    pub(crate) fn count(&mut self, item: &Item)
        ensures { self.new ≡ counted_one self.old item.now }
    {
        match item {
            Item::Kill { .. } => self.kills = one_more(self.kills),
            Item::Init { e, .. } => {
                self.epochs = self.epochs.max(u64::from(e.0));
                self.inits = one_more(self.inits);
            }
            Item::Created { how, .. } => match how {
                How::Fresh => self.fresh = one_more(self.fresh),
                How::Kept => self.kept = one_more(self.kept),
                How::Lost => self.lost = one_more(self.lost),
            },
            Item::Closed { .. } => self.closed = one_more(self.closed),
            Item::Store { .. } => self.stores = one_more(self.stores),
            Item::Restore { .. } => self.restores = one_more(self.restores),
            Item::Failed { .. } => self.failed = one_more(self.failed),
            Item::Revoked { .. } => self.revoked = one_more(self.revoked),
            Item::Ended { .. } => self.ended = one_more(self.ended),
            _ => {}
        }
    }
}

fn one_more(count: u64) -> u64
    ensures { result ≡ one_more count }
{
    count.saturating_add(1)
}
