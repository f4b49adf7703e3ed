ghost use Rattle.std.specs.Prelude.{◌≡◌, IfOk};

use crate::memory::NoMemory;
use crate::names::{CallNo, Epoch, GroupId, Ident, MemberId, Place, Proc, Stamp};
use std::alloc::Global;

/// A value that can be copied where memory is left. A copy equals what it was made of.
pub trait Copied: Drop + Sized {
    /// An equal value.
    fn copied(&self) -> Result<Self, NoMemory>
        ensures { IfOk result (λ copy. copy ≡ self.now) };

    /// Equal values of all the items, in their order, in room that is reserved once.
    fn copied_all(alloc: Global, items: &[Self]) -> Result<Vec<Self>, NoMemory>
        ensures { IfOk result (λ copies. copies.items ≡ items.now) }
    {
        let mut copies = Vec::with_capacity(alloc, items.len())?;
        for item in items {
            copies.push(item.copied()?)?;
        }
        Ok(copies)
    }
}

/// Copies of plain items, made in one piece.
fn plain_copies<T: Copy>(alloc: Global, items: &[T]) -> Result<Vec<T>, NoMemory>
    ensures { IfOk result (λ copies. copies.items ≡ items.now) }
{
    let mut copies = Vec::new(alloc);
    copies.extend_from_slice(items)?;
    Ok(copies)
}

impl Copied for u8 {
    fn copied(&self) -> Result<Self, NoMemory> {
        Ok(*self)
    }

    fn copied_all(alloc: Global, items: &[u8]) -> Result<Vec<u8>, NoMemory> {
        plain_copies(alloc, items)
    }
}

impl Copied for u32 {
    fn copied(&self) -> Result<Self, NoMemory> {
        Ok(*self)
    }
}

impl Copied for i64 {
    fn copied(&self) -> Result<Self, NoMemory> {
        Ok(*self)
    }

    fn copied_all(alloc: Global, items: &[i64]) -> Result<Vec<i64>, NoMemory> {
        plain_copies(alloc, items)
    }
}

impl Copied for Proc {
    fn copied(&self) -> Result<Self, NoMemory> {
        Ok(*self)
    }
}

impl Copied for Place {
    fn copied(&self) -> Result<Self, NoMemory> {
        Ok(*self)
    }
}

impl Copied for Ident {
    fn copied(&self) -> Result<Self, NoMemory> {
        Ok(*self)
    }
}

impl Copied for GroupId {
    fn copied(&self) -> Result<Self, NoMemory> {
        Ok(*self)
    }
}

impl Copied for MemberId {
    fn copied(&self) -> Result<Self, NoMemory> {
        Ok(*self)
    }
}

impl Copied for Epoch {
    fn copied(&self) -> Result<Self, NoMemory> {
        Ok(*self)
    }
}

impl Copied for CallNo {
    fn copied(&self) -> Result<Self, NoMemory> {
        Ok(*self)
    }
}

impl Copied for Stamp {
    fn copied(&self) -> Result<Self, NoMemory> {
        Ok(*self)
    }

    fn copied_all(alloc: Global, items: &[Stamp]) -> Result<Vec<Stamp>, NoMemory> {
        plain_copies(alloc, items)
    }
}

impl<A: Copied, B: Copied> Copied for (A, B) {
    fn copied(&self) -> Result<Self, NoMemory> {
        Ok((self.0.copied()?, self.1.copied()?))
    }
}

impl<T: Copied> Copied for Option<T> {
    fn copied(&self) -> Result<Self, NoMemory> {
        match self {
            None => Ok(None),
            Some(value) => Ok(Some(value.copied()?)),
        }
    }
}
