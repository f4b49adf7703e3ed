//! What follows from the definition of a repair. The functions do nothing: their contracts are theorems.
ghost use Rattle.std.specs.Prelude.{◌≡◌, ◌<◌, ℕ, Bool, true, List, Some, is_some, length, min, slice_get};
ghost use Rattle.std.specs.Option.{option_map};
ghost use Rattle.std.specs.Ordering.{nat_cmp};
ghost use Rattle.std.specs.FinSet as set;
ghost use Rattle.fx_base.specs.Sets.{IsBelow};
ghost use Rattle.fx_comm.specs.Seats.{Seat, IsComm, IdentsRise, NoTwoPlaces, NobodyComesBack, AllPresent, IsSeated, has_place, has_ident, idents_of, place_in, repaired, after_repairs};

/// The new size is the lesser of the old size and the number of present processes.
pub fn the_new_size()
    ensures { (old : List Seat) (present : set.FinSet nat_cmp) → IsComm old → IsBelow 32 present → length (repaired old (set.contains present)) ≡ min (length old) (set.len present) }
{}

/// The identities rise.
pub fn identities_rise()
    ensures { (old : List Seat) (is_present : ℕ → Bool) → IsComm old → IdentsRise (repaired old is_present) }
{}

/// No process has two places.
pub fn no_process_has_two_places()
    ensures { (old : List Seat) (is_present : ℕ → Bool) → IsComm old → NoTwoPlaces (repaired old is_present) }
{}

/// A present member keeps its identity.
pub fn a_present_member_keeps_its_identity()
    ensures { (old : List Seat) (is_present : ℕ → Bool) (member : Seat) → IsSeated member old → is_present member.1.0 ≡ true → IsSeated member (repaired old is_present) }
{}

/// With all members present nothing changes.
pub fn with_all_members_present_nothing_changes()
    ensures { (old : List Seat) (is_present : ℕ → Bool) → AllPresent is_present old → repaired old is_present ≡ old }
{}

/// Each process that has a place after a repair is present.
pub fn who_has_a_place_is_present()
    ensures { (old : List Seat) (is_present : ℕ → Bool) → AllPresent is_present (repaired old is_present) }
{}

/// A repair of a communicator with somebody present gives a communicator.
pub fn a_repair_gives_a_communicator()
    ensures { (old : List Seat) (present : set.FinSet nat_cmp) → IsComm old → IsBelow 32 present → 0 < set.len present → IsComm (repaired old (set.contains present)) }
{}

/// The identities after a repair are among the old ones, and where the size stays they are the same.
pub fn no_identity_is_new()
    ensures among { (old : List Seat) (is_present : ℕ → Bool) (ident : ℕ) → has_ident (repaired old is_present) ident ≡ true → has_ident old ident ≡ true }
    ensures same_where_none_is_lost { (old : List Seat) (is_present : ℕ → Bool) → length (repaired old is_present) ≡ length old → idents_of (repaired old is_present) ≡ idents_of old }
{}

/// A process has one identity in all communicators that come of each other by repairs, where nobody who was
/// absent at one repair is present at a later one.
pub fn a_process_has_one_identity()
    ensures { (first : List Seat) (present : ℕ → ℕ → Bool) (a b : ℕ) (one other : Seat) → IsComm first → NobodyComesBack present → IsSeated one (after_repairs first present a) → IsSeated other (after_repairs first present b) → one.1 ≡ other.1 → one.0 ≡ other.0 }
{}

/// A repair by fewer present processes is the same, where all that have a place after it are among them.
pub fn fewer_present_give_the_same()
    ensures { (old : List Seat) (is_present is_among : ℕ → Bool) → ((proc : ℕ) → is_among proc ≡ true → is_present proc ≡ true) → ((proc : ℕ) → has_place (repaired old is_present) proc ≡ true → is_among proc ≡ true) → repaired old is_among ≡ repaired old is_present }
{}

/// A process has a place exactly where `has_place` says so, and its place is below the size.
pub fn places_are_below_the_size()
    ensures has { (seats : List Seat) (proc : ℕ) → has_place seats proc ≡ is_some (place_in seats proc) }
    ensures below { (seats : List Seat) (proc place : ℕ) → place_in seats proc ≡ Some place → place < length seats }
{}

/// At the place of a process is that process, and the place of the process at a place is that place.
pub fn places_and_processes_are_inverse()
    ensures at_its_place { (seats : List Seat) (proc place : ℕ) → place_in seats proc ≡ Some place → option_map (λ member. member.1.0) (slice_get seats place) ≡ Some proc }
    ensures its_place { (seats : List Seat) (place : ℕ) (member : Seat) → IsComm seats → slice_get seats place ≡ Some member → place_in seats member.1.0 ≡ Some place }
{}
