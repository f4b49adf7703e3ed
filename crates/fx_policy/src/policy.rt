ghost use Rattle.std.specs.Prelude.{◌≡◌, ℕ, ◌<◌, IfOk};
ghost use Rattle.std.specs.FinSet as set;
ghost use Rattle.fx_store.specs.Redundancy.{Redundancy, IsSize, HasExactly, bytes_at, RebuildsCovered, RebuildsNothingElse, WardsAreKept, NoneKeepsItself, ArePlaces, CoversSmaller, CoversNone, FoldsWardsAlone, LeavesAllUncovered, MeetsLaws};
ghost use Rattle.fx_store.proofs.Uncovered.{leaves_all_uncovered as uncovered};

use fx_base::{Bytes, NoMemory, ProcSet, Shares};
use std::alloc::Global;

/// How the places of a communicator keep shares of each other's bytes, so that the bytes of lost places can be made again.
/// `n` is the number of places, 1 to 32, and each place that is named is below it.
///
/// The laws hold where the bytes of each place are 1 to 4,294,967,295 in number. They are what a user of a policy may cite: from
/// the helps of all other places a lost place of a covered set is made again; from those of any other places it is made again as
/// it was, or not at all; wards are the converse of keepers; what is in a covered set is covered; the set of all places isn't.
pub trait Policy: Copy {
    ghost redundancy: { Self → Redundancy };

    /// The places that keep a share of the place.
    fn keepers(&self, n: u8, place: u8) -> ProcSet
        requires size { IsSize n }
        requires placed { place < n }
        ensures { HasExactly ((redundancy self.now).keepers n place) result };

    /// The places whose keeper the place is.
    fn wards(&self, n: u8, place: u8) -> ProcSet
        requires size { IsSize n }
        requires placed { place < n }
        ensures { HasExactly ((redundancy self.now).wards n place) result };

    /// Whether the bytes of the places of the set can be made again without them. Numbers from `n` on are passed over.
    fn covers(&self, n: u8, lost: ProcSet) -> bool
        requires { IsSize n }
        ensures { result ≡ (redundancy self.now).covers n (set.contains lost) };

    /// The share that the place keeps, from the bytes of its wards. The bytes of a ward that `parts` doesn't have are empty, and a
    /// place that is no ward is passed over.
    fn fold(&self, alloc: Global, n: u8, place: u8, parts: &Shares) -> Result<Bytes, NoMemory>
        requires size { IsSize n }
        requires placed { place < n }
        ensures { IfOk result (λ share. share ≡ (redundancy self.now).fold n place (bytes_at parts.now)) };

    /// What `from` gives for `for_place`, which is lost: from its own bytes and from its share. Empty bytes are no help.
    fn help(
        &self,
        alloc: Global,
        n: u8,
        from: u8,
        for_place: u8,
        own: &Bytes,
        share: &Bytes,
    ) -> Result<Bytes, NoMemory>
        requires size { IsSize n }
        requires from_placed { from < n }
        requires for_placed { for_place < n }
        ensures { IfOk result (λ help. help ≡ (redundancy self.now).help n from for_place own.now share.now) };

    /// The bytes of the place, made again from what other places give; `None` where that isn't enough.
    fn rebuild(
        &self,
        alloc: Global,
        n: u8,
        place: u8,
        helps: &Shares,
    ) -> Result<Option<Bytes>, NoMemory>
        requires size { IsSize n }
        requires placed { place < n }
        ensures { IfOk result (λ made. made ≡ (redundancy self.now).rebuild n place (bytes_at helps.now)) };

    ghost rebuilds_covered: { (p : Self) → RebuildsCovered (redundancy p) };

    ghost rebuilds_nothing_else: { (p : Self) → RebuildsNothingElse (redundancy p) };

    ghost wards_are_kept: { (p : Self) → WardsAreKept (redundancy p) };

    ghost none_keeps_itself: { (p : Self) → NoneKeepsItself (redundancy p) };

    ghost are_places: { (p : Self) → ArePlaces (redundancy p) };

    ghost covers_smaller: { (p : Self) → CoversSmaller (redundancy p) };

    ghost covers_none: { (p : Self) → CoversNone (redundancy p) };

    ghost folds_wards_alone: { (p : Self) → FoldsWardsAlone (redundancy p) };

    ghost leaves_all_uncovered: { (p : Self) → LeavesAllUncovered (redundancy p) } = { λ p. uncovered (redundancy p) (rebuilds_covered p) };

    ghost meets_laws: { (p : Self) → MeetsLaws (redundancy p) } = { λ p. record {
      rebuilds_covered = rebuilds_covered p;
      rebuilds_nothing_else = rebuilds_nothing_else p;
      wards_are_kept = wards_are_kept p;
      none_keeps_itself = none_keeps_itself p;
      are_places = are_places p;
      covers_smaller = covers_smaller p;
      covers_none = covers_none p;
      folds_wards_alone = folds_wards_alone p;
    } };
}
