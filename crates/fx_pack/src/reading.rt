ghost use Rattle.std.specs.Prelude.{◌<◌, ◌≤◌, ◌+◌, IfOk};
ghost use Rattle.std.specs.FinMap as map;
ghost use Rattle.fx_base.specs.Bounds.{HasIndicesBelow256};
ghost use Rattle.fx_store.specs.Packed.{snapshot_in};
ghost use Rattle.fx_pack.specs.Reading.{Gives, Puts, elements_put, run_put, runs_put, member_put, members_put, head_in, snapshot_put};
ghost use Rattle.fx_pack.specs.Answers.{IsReading, IsFront};

use crate::fields::{Fault, read_byte, read_i64, read_u16};
use fx_base::{MemberId, NoMemory, Snapshot, Sparse};
use std::alloc::Global;

/// What bytes from outside are.
#[derive(Debug, Drop)]
pub enum Unpacked {
    /// A front of them is a packed snapshot: the snapshot, and the number of bytes that it takes.
    Read(Snapshot, usize),
    /// No front of them is one.
    NotOne,
}

/// Reads the snapshot that is packed at the front of the bytes. No length that they claim is believed: what is read is there, and
/// memory is taken for what was read alone.
pub fn unpack(alloc: Global, bytes: &[u8]) -> Result<Unpacked, NoMemory>
    ensures reading { IfOk result (IsReading (snapshot_in bytes.now)) }
    ensures front { IfOk result (IsFront bytes.now) }
{
    match read_snapshot(alloc, bytes) {
        Ok((snapshot, rest)) => Ok(Unpacked::Read(snapshot, bytes.len() - rest.len())),
        Err(Fault::NotOne) => Ok(Unpacked::NotOne),
        Err(Fault::NoMemory) => Err(NoMemory),
    }
}

#[tactic(auto, unfolding(crate::specs::Reading::snapshot_put))]
fn read_snapshot(alloc: Global, bytes: &[u8]) -> Result<(Snapshot, &[u8]), Fault>
    ensures { Gives (λ x. (x.0, x.1.now)) result (snapshot_put bytes.now) }
{
    let (count, rest) = read_head(bytes)?;
    read_members(alloc, count, rest)
}

/// The number of members, behind the letters and the version.
#[tactic(auto, unfolding(crate::specs::Reading::head_in))]
fn read_head(bytes: &[u8]) -> Result<(u8, &[u8]), Fault>
    ensures read { Gives (λ x. (x.0, x.1.now)) result (head_in bytes.now) }
    ensures few { IfOk result (λ x. x.0 ≤ 8) }
{
    let (first, rest) = read_byte(bytes)?;
    let (second, rest) = read_byte(rest)?;
    let (version, rest) = read_byte(rest)?;
    let (count, rest) = read_byte(rest)?;
    if first == 0x46 && second == 0x58 && version == 0x01 && count <= 8 {
        Ok((count, rest))
    } else {
        Err(Fault::NotOne)
    }
}

fn read_members(alloc: Global, count: u8, bytes: &[u8]) -> Result<(Snapshot, &[u8]), Fault>
    requires { count ≤ 8 }
    ensures { Gives (λ x. (x.0, x.1.now)) result (members_put count 0 bytes.now map.empty) }
{
    let mut snapshot = Snapshot::new(alloc);
    let mut least = 0;
    let mut rest = bytes;
    for _ in 0..count {
        let (member, elements, after) = read_member(alloc, least, rest)?;
        snapshot.put(MemberId(member), elements)?;
        least = member + 1;
        rest = after;
    }
    Ok((snapshot, rest))
}

/// A member whose number is `least` or more, with its elements.
#[tactic(auto, unfolding(crate::specs::Reading::member_put))]
fn read_member(alloc: Global, least: u8, bytes: &[u8]) -> Result<(u8, Sparse, &[u8]), Fault>
    ensures read { Gives (λ x. (x.0, x.1, x.2.now)) result (member_put least bytes.now) }
    ensures member { IfOk result (λ x. x.0 < 8) }
    ensures indices { IfOk result (λ x. HasIndicesBelow256 x.1) }
{
    let (member, rest) = read_byte(bytes)?;
    let (count, rest) = read_u16(rest)?;
    if member < least || member > 7 {
        return Err(Fault::NotOne);
    }
    let (elements, rest) = read_runs(alloc, count, rest)?;
    Ok((member, elements, rest))
}

fn read_runs(alloc: Global, count: u16, bytes: &[u8]) -> Result<(Sparse, &[u8]), Fault>
    ensures read { Gives (λ x. (x.0, x.1.now)) result (runs_put count 0 bytes.now map.empty) }
    ensures indices { IfOk result (λ x. HasIndicesBelow256 x.0) }
{
    let mut elements = Sparse::new(alloc);
    let mut least = 0;
    let mut rest = bytes;
    for _ in 0..count {
        (least, rest) = read_run(&mut elements, least, rest)?;
    }
    Ok((elements, rest))
}

/// A run that begins at `least` or later. Answers the least start of the next one.
#[tactic(auto, unfolding(crate::specs::Reading::run_put))]
fn read_run<'a>(
    elements: &mut Sparse,
    least: u32,
    bytes: &'a [u8],
) -> Result<(u32, &'a [u8]), Fault>
    requires { HasIndicesBelow256 elements.old }
    ensures read { Puts elements.new (λ x. (x.0, x.1.now)) result (run_put least bytes.now elements.old) }
    ensures indices { HasIndicesBelow256 elements.new }
{
    let (start, rest) = read_u16(bytes)?;
    let (count, rest) = read_u16(rest)?;
    let start = u32::from(start);
    let count = u32::from(count);
    if start < least || count < 1 || start + count > 256 {
        return Err(Fault::NotOne);
    }
    let rest = read_elements(elements, count, start, rest)?;
    Ok((start + count + 1, rest))
}

fn read_elements<'a>(
    elements: &mut Sparse,
    count: u32,
    start: u32,
    bytes: &'a [u8],
) -> Result<&'a [u8], Fault>
    requires fits { start + count ≤ 256 }
    requires indices { HasIndicesBelow256 elements.old }
    ensures read { Puts elements.new (λ x. x.now) result (elements_put count start bytes.now elements.old) }
    ensures indices { HasIndicesBelow256 elements.new }
{
    let mut rest = bytes;
    for index in start..start + count {
        let (element, after) = read_i64(rest)?;
        elements.put(index, element)?;
        rest = after;
    }
    Ok(rest)
}
