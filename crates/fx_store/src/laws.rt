//! The laws of what is kept of a data group, of packed snapshots and of redundancy.
ghost use Rattle.std.specs.Prelude.{◌≡◌, ◌≤◌, ◌+◌, ◌<◌, ℕ, List, [], ◌++◌, length, take, slice_index, true, Some, None};
ghost use Rattle.fx_base.specs.declared.names.MemberId.{MemberId};
ghost use Rattle.fx_base.specs.declared.names.Stamp.{Stamp};
ghost use Rattle.fx_base.specs.declared.snapshot.Snapshot.{Snapshot};
ghost use Rattle.fx_base.specs.declared.sparse.Sparse.{Sparse};
ghost use Rattle.fx_store.specs.Packable.{IsPackable, have_spellings, elements_fit};
ghost use Rattle.fx_store.specs.Packed.{Spells, has_spelling, spelling_of, snapshot_in};
ghost use Rattle.fx_store.specs.Redundancy.{Redundancy, RebuildsCovered, LeavesAllUncovered, IsPayload};
ghost use Rattle.fx_store.specs.Store.{Store, Stamped, IsSound, RiseBelow, new_store, attaching, storing, committing, closing, promoting, discarding, deleting, free_stamp, stamps_of};

/// A store is sound as it is made, and each call leaves it so: at most the depth and one more snapshots are kept, their stamps rise
/// below the first free one, and the tentative stamps are those from there to the next stamp.
pub fn stores_are_sound()
    ensures made { (start : Stamp) (depth : ℕ) → IsSound (new_store start depth) }
    ensures attached { (s : Store) (m : MemberId) → IsSound s → IsSound (attaching m s) }
    ensures stored { (s : Store) (m : MemberId) (piece : Sparse) → IsSound s → IsSound (storing m piece s) }
    ensures committed { (s : Store) → length s.tentative ≤ 16 → IsSound s → IsSound (committing s) }
    ensures closed { (s : Store) → IsSound s → IsSound (closing s) }
    ensures promoted { (s : Store) (entries : List Stamped) (next : Stamp) → s.tentative ≡ [] → length entries ≤ s.depth + 1
        → RiseBelow (stamps_of entries) next → IsSound s → IsSound (promoting entries next s) }
    ensures discarded { (s : Store) → IsSound s → IsSound (discarding s) }
    ensures deleted { (s : Store) (stamp : Stamp) → IsSound s → IsSound (deleting stamp s) }
{}

/// All snapshots of a store have spellings as it is made, and each call leaves it so, where the member that is stored is from 0 to 7,
/// the elements of the piece fit, and the snapshots that are promoted have spellings.
pub fn stores_are_packable()
    ensures made { (start : Stamp) (depth : ℕ) → IsPackable (new_store start depth) }
    ensures attached { (s : Store) (m : MemberId) → IsPackable s → IsPackable (attaching m s) }
    ensures stored { (s : Store) (m : MemberId) (piece : Sparse) → m.0 < 8 → elements_fit piece ≡ true → IsPackable s → IsPackable (storing m piece s) }
    ensures committed { (s : Store) → IsPackable s → IsPackable (committing s) }
    ensures closed { (s : Store) → IsPackable s → IsPackable (closing s) }
    ensures promoted { (s : Store) (entries : List Stamped) (next : Stamp) → have_spellings entries ≡ true → IsPackable s → IsPackable (promoting entries next s) }
    ensures discarded { (s : Store) → IsPackable s → IsPackable (discarding s) }
    ensures deleted { (s : Store) (stamp : Stamp) → IsPackable s → IsPackable (deleting stamp s) }
{}

/// The stamp of the first snapshot that isn't closed, which is the next stamp less the number of tentative snapshots, stays where it is
/// but for a closing and a promotion.
pub fn the_free_stamp_stays()
    ensures made { (start : Stamp) (depth : ℕ) → free_stamp (new_store start depth) ≡ start }
    ensures attached { (s : Store) (m : MemberId) → free_stamp (attaching m s) ≡ free_stamp s }
    ensures stored { (s : Store) (m : MemberId) (piece : Sparse) → free_stamp (storing m piece s) ≡ free_stamp s }
    ensures committed { (s : Store) → free_stamp (committing s) ≡ free_stamp s }
    ensures discarded { (s : Store) → free_stamp (discarding s) ≡ free_stamp s }
    ensures deleted { (s : Store) (stamp : Stamp) → free_stamp (deleting stamp s) ≡ free_stamp s }
    ensures closed { (s : Store) → free_stamp (closing s) ≡ s.next }
    ensures promoted { (s : Store) (entries : List Stamped) (next : Stamp) → s.tentative ≡ [] → free_stamp (promoting entries next s) ≡ next }
{}

/// All stamps of a sound store, kept before tentative ones, rise below its next stamp.
pub fn stamps_rise()
    ensures { (s : Store) → IsSound s → RiseBelow (stamps_of (s.kept ++ s.tentative)) s.next }
{}

/// A snapshot whose members, indices and elements are within their bounds is spelled by its spelling; what is spelled is such a
/// snapshot; and it has no other spelling.
pub fn snapshots_have_one_spelling()
    ensures spelled { (s : Snapshot) → has_spelling s ≡ true → Spells (spelling_of s) s }
    ensures only { (bytes : List ℕ) (s : Snapshot) → Spells bytes s → has_spelling s ≡ true }
    ensures one { (a b : List ℕ) (s : Snapshot) → Spells a s → Spells b s → a ≡ b }
    ensures it { (bytes : List ℕ) (s : Snapshot) → Spells bytes s → bytes ≡ spelling_of s }
{}

/// No spelling is a front of another.
pub fn no_spelling_begins_another()
    ensures { (a b x y : List ℕ) (s t : Snapshot) → Spells a s → Spells b t → a ++ x ≡ b ++ y → (a ≡ b) × (s ≡ t) }
{}

/// What is spelled is read from the front of any bytes, with the number of bytes that it takes; what is read is spelled by that
/// front; and nothing is read exactly where no front is spelled.
pub fn reading_is_spelling()
    ensures again { (a more : List ℕ) (s : Snapshot) → Spells a s → snapshot_in (a ++ more) ≡ Some (s, length a) }
    ensures found { (bytes : List ℕ) (s : Snapshot) (used : ℕ) → ((i : ℕ) → slice_index bytes i < 256)
        → snapshot_in bytes ≡ Some (s, used) → (used ≤ length bytes) × Spells (take used bytes) s }
    ensures none { (bytes : List ℕ) → snapshot_in bytes ≡ None → (k : ℕ) (s : Snapshot) → Spells (take k bytes) s → ⊥ }
    ensures nothing_else { (bytes : List ℕ) → ((i : ℕ) → slice_index bytes i < 256)
        → ((k : ℕ) (s : Snapshot) → Spells (take k bytes) s → ⊥) → snapshot_in bytes ≡ None }
{}

/// A spelling is made of bytes, and redundancy makes it again: it has 1 to 4,294,967,295 bytes.
pub fn spellings_are_payloads()
    ensures payload { (bytes : List ℕ) (s : Snapshot) → Spells bytes s → IsPayload bytes }
    ensures bytes { (bytes : List ℕ) (s : Snapshot) → Spells bytes s → (i : ℕ) → slice_index bytes i < 256 }
{}

/// Where lost places of a covered set are made again, the set of all places is never covered.
pub fn all_places_are_never_covered()
    ensures { (r : Redundancy) → RebuildsCovered r → LeavesAllUncovered r }
{}
