use super::*;
use fx_base::{Ident, Place, Proc, ProcSet};
use std::alloc::Global;
use std::process::Abort;
use std::test::Fail;

/// Repairs the communicator of four ranks, and compares the seats, however they are looked up.
fn repair_gives(
    rt: &impl Abort,
    alloc: Global,
    present: &[u8],
    seats: &[(u8, u8)],
) -> Result<(), Fail> {
    let old = first(alloc, 4)?;
    let mut living = ProcSet::new();
    for proc in present {
        if *proc < 32 {
            living.insert(*proc);
        }
    }
    assert!(rt; living.count() > 0);
    let comm = repair(alloc, &old, living)?.copy()?;
    assert_eq!(rt; usize::from(comm.size()), seats.len());
    assert_eq!(rt; comm.depleted(4), seats.len() < 4);
    for place in 0..comm.size() {
        let proc = comm.proc_at(Place(place));
        let ident = comm.ident_at(Place(place));
        assert_eq!(rt; seats.get(usize::from(place)), Some(&(ident.0, proc.0)));
        assert_eq!(rt; comm.seats().nth(usize::from(place)), Some(&(ident, proc)));
        assert_eq!(rt; comm.place_of(proc), Some(Place(place)));
    }
    assert_eq!(rt; comm.place_of(Proc(2)), None);
    Ok(())
}

#[test]
fn lost_identities_go_to_spares_in_order(rt: HostRuntime) -> Result<(), Fail> {
    let alloc = rt.alloc();
    repair_gives(&rt, alloc, &[0, 3, 4], &[(0, 0), (1, 4), (3, 3)])?;
    repair_gives(&rt, alloc, &[0, 3, 4, 5], &[(0, 0), (1, 4), (2, 5), (3, 3)])?;
    repair_gives(&rt, alloc, &[1, 4, 5], &[(0, 4), (1, 1), (2, 5)])
}
