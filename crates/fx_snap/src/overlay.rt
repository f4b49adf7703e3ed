ghost use Rattle.std.specs.Prelude.{◌≡◌, ◌+◌, drop, unwrap_or, IfOk};
ghost use Rattle.std.specs.FinMap as map;
ghost use Rattle.fx_base.specs.Bounds.{HasIndicesBelow256};
ghost use Rattle.fx_store.specs.Store.{put_over};
ghost use Rattle.fx_snap.specs.Overlays.{Moves, KeysFrom};

use fx_base::{MemberId, NoMemory, Snapshot, Sparse};
use std::alloc::Global;

/// The piece over what is pending of the member.
pub(crate) fn over_pending(
    alloc: Global,
    pending: &Snapshot,
    member: MemberId,
    piece: &Sparse,
) -> Result<Sparse, NoMemory>
    requires { HasIndicesBelow256 piece.now }
    ensures made { IfOk result (λ made. made ≡ put_over piece.now (unwrap_or (map.get pending.now member) map.empty)) }
    ensures indices { IfOk result HasIndicesBelow256 }
{
    match pending.get(member) {
        Some(old) => overlaid(alloc, piece, old),
        None => piece.copy(),
    }
}

/// The elements of the piece, and those of the other at the indices that the piece lacks.
fn overlaid(alloc: Global, piece: &Sparse, old: &Sparse) -> Result<Sparse, NoMemory>
    requires piece { HasIndicesBelow256 piece.now }
    requires old { HasIndicesBelow256 old.now }
    ensures { IfOk result (λ made. made ≡ put_over piece.now old.now) }
{
    let mut made = Sparse::new(alloc);
    let mut at = 0;
    let mut k = 0;
    while let Some((index, element)) = piece.nth(k) {
        at = put_up_to(&mut made, old, at, index)?;
        made.put(index, *element)?;
        k += 1;
    }
    put_up_to(&mut made, old, at, 255)?;
    Ok(made)
}

/// Puts the elements from entry `from` on whose indices are at most `last`, and says which entry is behind them.
fn put_up_to(made: &mut Sparse, old: &Sparse, from: usize, last: u32) -> Result<usize, NoMemory>
    requires { HasIndicesBelow256 old.now }
    ensures moved { IfOk result (λ next. Moves made.old made.new (drop from (map.entries old.now)) (drop next (map.entries old.now))) }
    ensures above { IfOk result (λ next. KeysFrom (last + 1) (drop next (map.entries old.now))) }
{
    let mut at = from;
    while let Some((index, element)) = old.nth(at) {
        if index > last {
            break;
        }
        made.put(index, *element)?;
        at += 1;
    }
    Ok(at)
}
