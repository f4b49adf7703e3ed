ghost use Rattle.std.specs.Prelude.{◌≡◌, ◌++◌, ◌∷◌, [], length, ◌↔◌, IsTrue, IfOk, OnOk, OnErr, slice_get};
ghost use Rattle.std.specs.Option.{option_copied};
ghost use Rattle.fx_base.specs.Places.{IsAboveLast, PlacesRise};

use crate::copied::Copied;
use crate::lists::Bytes;
use crate::memory::NoMemory;
use std::alloc::Global;
use std::marker::Model;

/// Places, each with the bytes that it gives, in rising place.
#[derive(Debug, Drop)]
pub struct Shares {
    items: Vec<(u8, Bytes)>,
}

impl Model for Shares {
    ghost use Rattle.std.specs.Prelude.{List};
    ghost use Rattle.fx_base.specs.Places.{PlaceShare, PlacesRise};

    ghost Value = { List PlaceShare };

    ghost view = { λ s. s.items.items };

    ghost invariant = { λ s. PlacesRise s.items.items };
}

impl Shares {
    /// The empty list.
    pub fn new(alloc: Global) -> Shares
        ensures { result ≡ [] }
    {
        Shares {
            items: Vec::new(alloc),
        }
    }

    /// Adds a place with its bytes at the end. The place is above the last one. Without memory the list stays as
    /// it was.
    pub fn push(&mut self, item: (u8, Bytes)) -> Result<(), NoMemory>
        requires { IsAboveLast item.0 self.old }
        ensures ok { OnOk result (self.new ≡ self.old ++ item ∷ []) }
        ensures no_memory { OnErr result (self.new ≡ self.old) }
    {
        self.items.push(item)?;
        Ok(())
    }

    /// The number of places.
    pub fn len(&self) -> usize
        ensures len { result ≡ length self.now }
        ensures rise { PlacesRise self.now }
    {
        self.items.len()
    }

    /// Whether there is no place.
    pub fn is_empty(&self) -> bool
        ensures { IsTrue result ↔ (self.now ≡ []) }
    {
        self.items.is_empty()
    }

    /// Item `k`, from 0; `None` exactly where `k` isn't below the length.
    pub fn nth(&self, k: usize) -> Option<&(u8, Bytes)>
        ensures item { option_copied result ≡ slice_get self.now k }
        ensures rise { PlacesRise self.now }
    {
        self.items.get(k)
    }

    /// The items as a slice, in rising place.
    pub fn as_slice(&self) -> &[(u8, Bytes)]
        ensures items { result.now ≡ self.now }
        ensures rise { PlacesRise self.now }
    {
        self.items.as_slice()
    }

    /// An equal list.
    pub fn copy(&self) -> Result<Shares, NoMemory>
        ensures { IfOk result (λ copy. copy ≡ self.now) }
    {
        let items = Copied::copied_all(*self.items.allocator(), &self.items)?;
        Ok(Shares { items })
    }
}

impl Copied for Shares {
    fn copied(&self) -> Result<Self, NoMemory> {
        self.copy()
    }
}
