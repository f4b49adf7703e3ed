ghost use Rattle.std.specs.Prelude.{◌≡◌, ◌<◌, ℕ, Bool, true, false, List, IfOk, Some};
ghost use Rattle.fx_store.specs.Redundancy.{IsSize, HavePayloads, AreHelps, bytes_at};

use super::*;
use fx_base::{Bytes, NoMemory, ProcSet, Shares};
use std::alloc::Global;
use std::test::Fail;

/// A user of any policy: what it makes again of a lost place of a covered set is what that place had.
fn made_again<P: Policy>(
    policy: P,
    alloc: Global,
    n: u8,
    place: u8,
    helps: &Shares,
) -> Result<Option<Bytes>, NoMemory>
    requires size { IsSize n }
    requires placed { place < n }
    ensures { IfOk result (λ made. (bytes : ℕ → List ℕ) (lost : ℕ → Bool)
        → HavePayloads n bytes → (P.redundancy policy).covers n lost ≡ true → lost place ≡ true
        → AreHelps (P.redundancy policy) n place bytes lost (bytes_at helps.now) → made ≡ Some (bytes place)) }
{
    policy.rebuild(alloc, n, place, helps)
}

fn places(numbers: &[u8]) -> ProcSet {
    let mut set = ProcSet::new();
    for n in numbers {
        if *n < 32 {
            set.insert(*n);
        }
    }
    set
}

fn shares(alloc: Global, place: u8, bytes: &[u8]) -> Result<Shares, Fail> {
    let mut given = Bytes::new(alloc);
    given.append(bytes)?;
    let mut shares = Shares::new(alloc);
    shares.push((place, given))?;
    Ok(shares)
}

#[test]
fn mirrors_keep_their_wards(rt: HostRuntime) -> Result<(), Fail> {
    for (separation, place, keepers, wards) in [
        (2, 0, [2], [2]),
        (1, 0, [1], [3]),
        (4, 3, [0], [2]),
    ] {
        let mirror = Mirror { separation };
        assert!(rt; mirror.keepers(4, place) == places(&keepers));
        assert!(rt; mirror.wards(4, place) == places(&wards));
    }
    let mirror = Mirror { separation: 2 };
    assert!(rt; mirror.covers(4, places(&[0, 1])) && !mirror.covers(4, places(&[0, 2])));
    assert!(rt; mirror.keepers(1, 0) == places(&[]) && !mirror.covers(1, places(&[0])));
    Ok(())
}

#[test]
fn lost_bytes_are_made_again(rt: HostRuntime) -> Result<(), Fail> {
    let mirror = Mirror { separation: 2 };
    let own = Bytes::new(rt.alloc());
    let share = mirror.fold(rt.alloc(), 4, 2, &shares(rt.alloc(), 0, &[7, 8])?)?;
    assert_eq!(rt; share.as_slice(), [7, 8].as_slice());
    let help = mirror.help(rt.alloc(), 4, 2, 0, &own, &share)?;
    assert_eq!(rt; help.as_slice(), [7, 8].as_slice());
    assert_eq!(rt; mirror.help(rt.alloc(), 4, 1, 0, &own, &share)?.len(), 0);
    let made = made_again(mirror, rt.alloc(), 4, 0, &shares(rt.alloc(), 2, &[7, 8])?)?;
    assert!(rt; made.is_some_and(|bytes| bytes.as_slice() == [7, 8].as_slice()));
    assert!(rt;
        mirror
            .rebuild(rt.alloc(), 4, 0, &shares(rt.alloc(), 1, &[7, 8])?)?
            .is_none()
    );
    Ok(())
}
