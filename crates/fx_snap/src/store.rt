ghost use Rattle.std.specs.Prelude.{◌≡◌, ◌<◌, ◌≤◌, ◌+◌, ◌↔◌, ◌<ℤ◌, pos, [], true, false, Ok, Err, length, is_some, slice_get, IfOk, IfErr, OnOk, OnErr};
ghost use Rattle.std.specs.Option.{option_map};
ghost use Rattle.fx_base.specs.Bounds.{HasIndicesBelow256};
ghost use Rattle.fx_store.specs.Store.{new_store, attaching, is_attached, storing, is_full, committing, closing, promoting, discarding, deleting, has_stamp, found, latest, stamps_of, RiseBelow, IsSound};

use crate::entries::{all_stamps, keep_newest, last_stamp, place_of, snapshot_at};
use crate::kept::Kept;
use crate::overlay::over_pending;
use fx_base::{MemberId, NoMemory, ProcSet, Snapshot, Sparse, Stamp, Stamps};
use fx_store::{CommitEnd, DeleteEnd, FindEnd, StoreEnd};
use std::alloc::Global;
use std::marker::Model;
use std::mem;

/// What a process keeps of a data group, in five parts: what is pending, the tentative snapshots, the closed ones that are kept,
/// the attached members and the next stamp. Its depth never changes.
#[derive(Debug, Drop)]
pub struct GroupStore {
    pending: Snapshot,
    snapshots: Vec<(Stamp, Snapshot)>,
    closed: usize,
    attached: ProcSet,
    next: Stamp,
    depth: u8,
}

impl Model for GroupStore {
    ghost use Rattle.fx_store.specs.Store.{Store, IsSound};
    ghost use Rattle.fx_snap.specs.Stores.{store_code, store_of};
    ghost use Rattle.std.specs.Prelude.{◌≤◌, length};

    ghost Value = { Store };

    ghost coded = { store_code };

    ghost view = { λ s. store_of s.pending s.snapshots.items s.closed s.attached s.next s.depth };

    ghost invariant = { λ s. (s.closed ≤ length s.snapshots.items) × IsSound (store_of s.pending s.snapshots.items s.closed s.attached s.next s.depth) };
}

impl GroupStore {
    /// A store that nothing was put into. The first snapshot gets the stamp `start`.
    pub fn new(alloc: Global, start: Stamp, depth: u8) -> GroupStore
        ensures { result ≡ new_store start depth }
    {
        GroupStore {
            pending: Snapshot::new(alloc),
            snapshots: Vec::new(alloc),
            closed: 0,
            attached: ProcSet::new(),
            next: start,
            depth,
        }
    }

    /// Attaches a member, from 0 to 7.
    pub fn attach(&mut self, member: MemberId)
        requires { member.0 < 8 }
        ensures { self.new ≡ attaching member self.old }
    {
        self.attached.insert(member.0);
    }

    /// Puts the piece over what is pending of the member, from 0 to 7, so that the piece wins at shared indices, which are from 0
    /// to 255. A member that is stored with no index has an entry too. A refusal changes nothing.
    pub fn store(&mut self, member: MemberId, piece: &Sparse) -> Result<(), StoreEnd>
        requires member { member.0 < 8 }
        requires indices { HasIndicesBelow256 piece.now }
        ensures stored { OnOk result (self.new ≡ storing member piece.now self.old) }
        ensures refused { OnErr result (self.new ≡ self.old) }
        ensures not_attached { (result ≡ Err StoreEnd.NotAttached) ↔ (is_attached member self.old ≡ false) }
    {
        if !self.attached.has(member.0) {
            return Err(StoreEnd::NotAttached);
        }
        self.put_pending(member, piece)?;
        Ok(())
    }

    fn put_pending(&mut self, member: MemberId, piece: &Sparse) -> Result<(), NoMemory>
        requires member { member.0 < 8 }
        requires indices { HasIndicesBelow256 piece.now }
        ensures stored { OnOk result (self.new ≡ storing member piece.now self.old) }
        ensures no_memory { OnErr result (self.new ≡ self.old) }
    {
        let made = over_pending(*self.snapshots.allocator(), &self.pending, member, piece)?;
        self.pending.put(member, made)
    }

    /// Makes what is pending the last tentative snapshot, and answers its stamp. The next stamp is below the greatest `i64`. A
    /// refusal changes nothing.
    pub fn commit(&mut self) -> Result<Stamp, CommitEnd>
        requires { self.old.next.0 <ℤ pos 9223372036854775807 }
        ensures committed { OnOk result (self.new ≡ committing self.old) }
        ensures stamp { IfOk result (λ stamp. stamp ≡ self.old.next) }
        ensures refused { OnErr result (self.new ≡ self.old) }
        ensures full { (result ≡ Err CommitEnd.Full) ↔ (is_full self.old ≡ true) }
    {
        if self.snapshots.len() - self.closed >= 16 {
            return Err(CommitEnd::Full);
        }
        Ok(self.freeze()?)
    }

    /// The same for a commit barrier, where at most 16 tentative snapshots wait. Nothing that closes them later takes memory.
    pub fn freeze(&mut self) -> Result<Stamp, NoMemory>
        requires room { length self.old.tentative ≤ 16 }
        requires next { self.old.next.0 <ℤ pos 9223372036854775807 }
        ensures committed { OnOk result (self.new ≡ committing self.old) }
        ensures stamp { IfOk result (λ stamp. stamp ≡ self.old.next) }
        ensures no_memory { OnErr result (self.new ≡ self.old) }
    {
        let stamp = self.next;
        let fresh = Snapshot::new(*self.snapshots.allocator());
        let pending = mem::replace(&mut self.pending, fresh);
        match self.snapshots.push((stamp, pending)) {
            Ok(()) => {
                self.next = Stamp(stamp.0 + 1);
                Ok(stamp)
            }
            Err(failed) => {
                self.pending = failed.value.1;
                Err(NoMemory)
            }
        }
    }

    /// Closes the tentative snapshots, and keeps the newest closed ones: the depth and one more.
    pub fn close(&mut self)
        ensures { self.new ≡ closing self.old }
    {
        keep_newest(&mut self.snapshots, usize::from(self.depth) + 1);
        self.closed = self.snapshots.len();
    }

    /// Replaces the closed snapshots and the next stamp. Nothing is tentative, and the list has at most the depth and one more
    /// snapshots, in rising stamps below the next one.
    pub fn promote(&mut self, kept: Kept)
        requires waiting { self.old.tentative ≡ [] }
        requires few { length kept.list ≤ self.old.depth + 1 }
        requires rise { RiseBelow (stamps_of kept.list) kept.next }
        ensures { self.new ≡ promoting kept.list kept.next self.old }
    {
        self.snapshots = kept.list.into_items();
        self.closed = self.snapshots.len();
        self.next = kept.next;
    }

    /// Lets go what isn't closed, and all attached members. The stamps of tentative snapshots are used again.
    pub fn discard(&mut self)
        ensures { self.new ≡ discarding self.old }
    {
        let alloc = *self.snapshots.allocator();
        self.next = match self.snapshots.get(self.closed) {
            Some(first) => first.0,
            None => self.next,
        };
        self.pending = Snapshot::new(alloc);
        self.snapshots.truncate(self.closed);
        self.attached = ProcSet::new();
    }

    /// Lets go the closed snapshot of the stamp. A refusal changes nothing.
    pub fn delete(&mut self, stamp: Stamp) -> Result<(), DeleteEnd>
        ensures deleted { OnOk result (self.new ≡ deleting stamp self.old) }
        ensures refused { OnErr result (self.new ≡ self.old) }
        ensures no_stamp { (result ≡ Err DeleteEnd.NoStamp) ↔ (has_stamp stamp self.old ≡ false) }
    {
        match place_of(&self.snapshots[..self.closed], stamp) {
            None => Err(DeleteEnd::NoStamp),
            Some(at) => {
                self.snapshots.remove(at);
                self.closed -= 1;
                Ok(())
            }
        }
    }

    /// What the closed snapshot of the stamp has of the member. It is `NotAttached` where the member isn't attached, else `NoStamp`
    /// where no closed snapshot has the stamp, else `NotStored` where it has no entry of the member.
    pub fn find(&self, member: MemberId, stamp: Stamp) -> Result<&Sparse, FindEnd>
        requires { member.0 < 8 }
        ensures found { IfOk result (λ elements. found member stamp self.now ≡ Ok elements.now) }
        ensures refused { IfErr result (λ refusal. found member stamp self.now ≡ Err refusal) }
    {
        if !self.attached.has(member.0) {
            return Err(FindEnd::NotAttached);
        }
        match snapshot_at(&self.snapshots[..self.closed], stamp) {
            None => Err(FindEnd::NoStamp),
            Some(snapshot) => match snapshot.get(member) {
                None => Err(FindEnd::NotStored),
                Some(elements) => Ok(elements),
            },
        }
    }

    /// The newest stamp of the closed snapshots, if there is one.
    pub fn latest(&self) -> Option<Stamp>
        ensures { result ≡ latest self.now }
    {
        last_stamp(&self.snapshots[..self.closed])
    }

    /// The stamps of the closed snapshots, rising.
    pub fn stamps(&self) -> Result<Stamps, NoMemory>
        ensures { IfOk result (λ stamps. stamps ≡ stamps_of self.now.kept) }
    {
        all_stamps(*self.snapshots.allocator(), &self.snapshots[..self.closed])
    }

    /// Closed snapshot `k` with its stamp, from 0; `None` exactly past the last.
    pub fn kept(&self, k: usize) -> Option<(Stamp, &Snapshot)>
        ensures entry { option_map (λ e. (e.0, e.1.now)) result ≡ slice_get self.now.kept k }
        ensures sound { IsSound self.now }
    {
        if k >= self.closed {
            return None;
        }
        Some((self.snapshots[k].0, &self.snapshots[k].1))
    }

    /// Tentative snapshot `k` with its stamp, from 0; `None` exactly past the last.
    pub fn tentative(&self, k: usize) -> Option<(Stamp, &Snapshot)>
        ensures entry { option_map (λ e. (e.0, e.1.now)) result ≡ slice_get self.now.tentative k }
        ensures sound { IsSound self.now }
    {
        if k >= self.snapshots.len() - self.closed {
            return None;
        }
        let at = self.closed + k;
        Some((self.snapshots[at].0, &self.snapshots[at].1))
    }

    /// The stamp of the next snapshot.
    pub fn next_stamp(&self) -> Stamp
        ensures stamp { result ≡ self.now.next }
        ensures sound { IsSound self.now }
    {
        self.next
    }

    /// How many closed snapshots are kept beside the newest: what `new` was given.
    pub fn depth(&self) -> u8
        ensures { result ≡ self.now.depth }
    {
        self.depth
    }
}
