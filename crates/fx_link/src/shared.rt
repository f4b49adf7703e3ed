ghost use Rattle.std.specs.Prelude.{◌≡◌, [], IfOk, length, slice_get};
ghost use Rattle.std.specs.Option.{option_copied};

use fx_base::{Copied, NoMemory, Seq};
use std::alloc::Global;
use std::marker::Model;
use std::rc::Rc;

/// A list that doesn't change any more, and whose copies share its room. It is seen as the list of its items; the empty one
/// takes no room.
#[derive(Debug, Drop)]
pub struct Shared<T> {
    room: Option<Rc<Seq<T>, Global>>,
}

impl<T> Model for Shared<T> {
    ghost use Rattle.std.specs.Prelude.{List};
    ghost use Rattle.std.specs.Coded.{coded_list};
    ghost use Rattle.std.specs.Option.{option_map};
    ghost use Rattle.fx_link.specs.Sharing.{items_in};

    ghost Value = { List T };

    ghost coded = { coded_list T.code };

    ghost view = { λ s. items_in (option_map (λ room. room.value) s.room) };
}

impl<T> Shared<T> {
    /// The empty list.
    pub fn empty() -> Self
        ensures { result ≡ [] }
    {
        Shared { room: None }
    }

    /// The number of items.
    pub fn len(&self) -> usize
        ensures { result ≡ length self.now }
    {
        self.as_slice().len()
    }

    /// Item `k`, from 0; `None` exactly where `k` isn't below the length.
    pub fn nth(&self, k: usize) -> Option<&T>
        ensures { option_copied result ≡ slice_get self.now k }
    {
        self.as_slice().get(k)
    }

    /// The items as a slice.
    pub fn as_slice(&self) -> &[T]
        ensures { result.now ≡ self.now }
    {
        match &self.room {
            Some(items) => items.as_slice(),
            None => &[],
        }
    }
}

impl<T: Drop> Shared<T> {
    /// The list of these items.
    pub fn of(alloc: Global, items: Seq<T>) -> Result<Self, NoMemory>
        ensures { IfOk result (λ list. list ≡ items) }
    {
        if items.is_empty() {
            return Ok(Shared::empty());
        }
        Ok(Shared {
            room: Some(Rc::new(alloc, items)?),
        })
    }

    /// An equal list, in the same room.
    pub fn copy(&self) -> Result<Self, NoMemory>
        ensures { IfOk result (λ copy. copy ≡ self.now) }
    {
        match &self.room {
            Some(items) => Ok(Shared {
                room: Some(items.clone()?),
            }),
            None => Ok(Shared::empty()),
        }
    }
}

impl<T: Copied> Shared<T> {
    /// The items, each copied, in room of their own.
    pub fn to_items(&self, alloc: Global) -> Result<Seq<T>, NoMemory>
        ensures { IfOk result (λ items. items ≡ self.now) }
    {
        match &self.room {
            Some(items) => items.copy(),
            None => Ok(Seq::new(alloc)),
        }
    }
}

impl<T: Drop> Copied for Shared<T> {
    fn copied(&self) -> Result<Self, NoMemory> {
        self.copy()
    }
}

impl<T: PartialEq> PartialEq for Shared<T> {
    ghost use Rattle.std.specs.Cmp.Lexicographic.{pointwise, lists_per};

    ghost eq = { λ a b. pointwise T.eq a b };

    ghost laws = { lists_per T.laws };

    fn eq(&self, other: &Self) -> bool {
        self.as_slice() == other.as_slice()
    }
}
