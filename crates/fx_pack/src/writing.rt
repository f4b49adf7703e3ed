ghost use Rattle.std.specs.Prelude.{◌≡◌, ◌<◌, ◌≤◌, ◌+◌, ◌++◌, ◌∷◌, [], true, length, drop, OnOk, IfOk, IfSome, IfNone};
ghost use Rattle.std.specs.List.{flat_map};
ghost use Rattle.std.specs.FinMap as map;
ghost use Rattle.fx_base.specs.Bounds.{HasIndicesBelow256};
ghost use Rattle.fx_store.specs.Packed.{Spells, spelling_of, section_of, section_bytes, run_bytes, element_bytes};
ghost use Rattle.fx_pack.specs.Runs.{OfFirst, EndsAt, GoesOn, first_run, going_on, behind, have_64_bits};

use fx_base::{Bytes, MemberId, NoMemory, Snapshot, Sparse};
use std::alloc::Global;

/// The spelling of the snapshot. All its numbers are written with the highest byte first: the letters `FX`, the version 1, the
/// number of members, and for each member in rising number its number, the number of its runs, and for each run its first index,
/// its length and its elements. A run is as long as it can be.
pub fn pack(alloc: Global, snapshot: &Snapshot) -> Result<Bytes, NoMemory>
    ensures spelling { IfOk result (λ bytes. bytes ≡ spelling_of snapshot.now) }
    ensures spells { IfOk result (λ bytes. Spells bytes snapshot.now) }
{
    let mut out = Bytes::new(alloc);
    let count = snapshot.len();
    out.append(&[0x46, 0x58, 0x01, count as u8])?;
    let mut run = Bytes::new(alloc);
    for k in 0..count {
        if let Some((member, elements)) = snapshot.nth(k) {
            push_member(alloc, &mut out, &mut run, member, elements)?;
        }
    }
    Ok(out)
}

/// Adds the member with its runs. What `run` holds is lost.
fn push_member(
    alloc: Global,
    out: &mut Bytes,
    run: &mut Bytes,
    member: MemberId,
    elements: &Sparse,
) -> Result<(), NoMemory>
    requires { HasIndicesBelow256 elements.now }
    ensures pushed { OnOk result (out.new ≡ out.old ++ section_bytes (section_of (member, elements.now))) }
    ensures bits { OnOk result (have_64_bits (map.entries elements.now) ≡ true) }
{
    let mut runs = Bytes::new(alloc);
    let mut count = 0u16;
    let mut at = 0;
    while at < elements.len() {
        at = push_run(&mut runs, run, elements, at)?;
        count += 1;
    }
    out.push(member.0)?;
    out.append(&count.to_be_bytes())?;
    out.append(runs.as_slice())
}

/// Adds the run that begins at entry `from`, and says at which entry the next one begins. What `run` holds is lost.
fn push_run(
    out: &mut Bytes,
    run: &mut Bytes,
    elements: &Sparse,
    from: usize,
) -> Result<usize, NoMemory>
    requires within { from < length (map.entries elements.now) }
    requires indices { HasIndicesBelow256 elements.now }
    ensures pushed { OnOk result (OfFirst (drop from (map.entries elements.now))
        (λ entry entries. out.new ≡ out.old ++ run_bytes (first_run entry entries))) }
    ensures next { IfOk result (λ next. OfFirst (drop from (map.entries elements.now))
        (λ entry entries. drop next (map.entries elements.now) ≡ behind (entry.0 + 1) entries)) }
    ensures further { IfOk result (λ next. (from < next) × (next ≤ length (map.entries elements.now))) }
    ensures bits { IfOk result (λ next. have_64_bits (drop next (map.entries elements.now)) ≡ true
        → have_64_bits (drop from (map.entries elements.now)) ≡ true) }
{
    let Some((start, first)) = elements.nth(from) else {
        return Ok(from);
    };
    run.clear();
    run.append(&first.to_be_bytes())?;
    let next = push_elements(run, elements, from + 1, start + 1)?;
    out.append(&(start as u16).to_be_bytes())?;
    out.append(&((next - from) as u16).to_be_bytes())?;
    out.append(run.as_slice())?;
    Ok(next)
}

/// Adds the elements that stand at `index` and behind it without a gap, from entry `from` on, and says which entry is behind them.
fn push_elements(
    run: &mut Bytes,
    elements: &Sparse,
    from: usize,
    index: u32,
) -> Result<usize, NoMemory>
    requires within { from ≤ length (map.entries elements.now) }
    requires below { index ≤ 256 }
    requires indices { HasIndicesBelow256 elements.now }
    ensures pushed { OnOk result (run.new ≡ run.old ++ flat_map element_bytes (going_on index (drop from (map.entries elements.now)))) }
    ensures next { IfOk result (λ next. drop next (map.entries elements.now) ≡ behind index (drop from (map.entries elements.now))) }
    ensures count { IfOk result (λ next. next ≡ from + length (going_on index (drop from (map.entries elements.now)))) }
    ensures further { IfOk result (λ next. next ≤ length (map.entries elements.now)) }
    ensures below { OnOk result (index + length (going_on index (drop from (map.entries elements.now))) ≤ 256) }
    ensures bits { IfOk result (λ next. have_64_bits (drop next (map.entries elements.now)) ≡ true
        → have_64_bits (drop from (map.entries elements.now)) ≡ true) }
{
    let mut at = from;
    let mut index = index;
    while let Some(element) = element_on(elements, at, index) {
        run.append(&element.to_be_bytes())?;
        at += 1;
        index += 1;
    }
    Ok(at)
}

/// The element of entry `at`, if it stands at the index.
fn element_on(elements: &Sparse, at: usize, index: u32) -> Option<i64>
    requires { HasIndicesBelow256 elements.now }
    ensures none { IfNone result (EndsAt index (drop at (map.entries elements.now))) }
    ensures some { IfSome result (λ element. GoesOn index element (drop at (map.entries elements.now)) (drop (at + 1) (map.entries elements.now))) }
    ensures within { IfSome result (λ element. (index < 256) × (at < length (map.entries elements.now))) }
{
    match elements.nth(at) {
        Some((found, element)) if found == index => Some(*element),
        _ => None,
    }
}
