ghost use Rattle.std.specs.Prelude.{◌≡◌, ◌<◌, ◌==◌, [], MatchOption};
ghost use Rattle.fx_store.specs.Redundancy.{IsSize, HasExactly, bytes_at};
ghost use Rattle.fx_store.specs.Mirror.{buddy, mirror};
ghost use Rattle.fx_store.proofs.Mirrors.{mirror_meets_laws};

use crate::policy::Policy;
use fx_base::{Bytes, NoMemory, ProcSet, Shares};
use std::alloc::Global;

/// Each place has one keeper, its buddy, who keeps its bytes as they are. A place that is alone has none.
#[derive(Clone, Copy, Debug, PartialEq, Eq)]
pub struct Mirror {
    /// How many places on the buddy is, 1 to 31. From the number of places on it begins anew, and never leads back to the place
    /// itself.
    pub separation: u8,
    ghost some: { 0 < separation },
    ghost few: { separation < 32 },
}

impl Mirror {
    /// The buddy of the place; its own where it is alone.
    fn buddy(self, n: u8, place: u8) -> u8
        requires size { IsSize n }
        requires placed { place < n }
        ensures { result ≡ buddy self.separation n place }
    {
        if n == 1 {
            return 0;
        }
        (place + 1 + (self.separation - 1) % (n - 1)) % n
    }

    /// The place whose buddy the place is, among more than one.
    fn ward(self, n: u8, place: u8) -> u8
        requires many { 1 < n }
        requires size { IsSize n }
        requires placed { place < n }
        ensures below { result < n }
        ensures ward { buddy self.separation n result ≡ place }
    {
        (place + n - 1 - (self.separation - 1) % (n - 1)) % n
    }
}

/// The set of one place.
fn only(place: u8) -> ProcSet
    requires { place < 32 }
    ensures { HasExactly (λ j. j == place) result }
{
    let mut places = ProcSet::new();
    places.insert(place);
    places
}

/// The bytes of the place, if it is there.
fn bytes_of(shares: &[(u8, Bytes)], place: u8) -> Option<&Bytes>
    ensures { MatchOption result (bytes_at shares.now place ≡ []) (λ bytes. bytes.now ≡ bytes_at shares.now place) }
{
    for share in shares {
        if share.0 == place {
            return Some(&share.1);
        }
    }
    None
}

impl Policy for Mirror {
    ghost redundancy = { λ m. mirror m.separation };

    fn keepers(&self, n: u8, place: u8) -> ProcSet {
        if n == 1 {
            return ProcSet::new();
        }
        only(self.buddy(n, place))
    }

    fn wards(&self, n: u8, place: u8) -> ProcSet {
        if n == 1 {
            return ProcSet::new();
        }
        only(self.ward(n, place))
    }

    fn covers(&self, n: u8, lost: ProcSet) -> bool {
        for place in 0..n {
            if lost.has(place) && lost.has(self.buddy(n, place)) {
                return false;
            }
        }
        true
    }

    fn fold(&self, alloc: Global, n: u8, place: u8, parts: &Shares) -> Result<Bytes, NoMemory> {
        if n == 1 {
            return Ok(Bytes::new(alloc));
        }
        match bytes_of(parts.as_slice(), self.ward(n, place)) {
            Some(bytes) => bytes.copy(),
            None => Ok(Bytes::new(alloc)),
        }
    }

    fn help(
        &self,
        alloc: Global,
        n: u8,
        from: u8,
        for_place: u8,
        _own: &Bytes,
        share: &Bytes,
    ) -> Result<Bytes, NoMemory> {
        if n == 1 || from != self.buddy(n, for_place) {
            return Ok(Bytes::new(alloc));
        }
        share.copy()
    }

    fn rebuild(
        &self,
        _alloc: Global,
        n: u8,
        place: u8,
        helps: &Shares,
    ) -> Result<Option<Bytes>, NoMemory> {
        match bytes_of(helps.as_slice(), self.buddy(n, place)) {
            Some(bytes) if bytes.len() > 0 => Ok(Some(bytes.copy()?)),
            _ => Ok(None),
        }
    }

    ghost rebuilds_covered = { λ m. (mirror_meets_laws m.separation).rebuilds_covered };

    ghost rebuilds_nothing_else = { λ m. (mirror_meets_laws m.separation).rebuilds_nothing_else };

    ghost wards_are_kept = { λ m. (mirror_meets_laws m.separation).wards_are_kept };

    ghost none_keeps_itself = { λ m. (mirror_meets_laws m.separation).none_keeps_itself };

    ghost are_places = { λ m. (mirror_meets_laws m.separation).are_places };

    ghost covers_smaller = { λ m. (mirror_meets_laws m.separation).covers_smaller };

    ghost covers_none = { λ m. (mirror_meets_laws m.separation).covers_none };

    ghost folds_wards_alone = { λ m. (mirror_meets_laws m.separation).folds_wards_alone };
}
