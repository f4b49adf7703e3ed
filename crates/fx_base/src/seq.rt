ghost use Rattle.std.specs.Prelude.{◌≡◌, ◌<◌, ◌++◌, ◌∷◌, [], length, ◌↔◌, IsTrue, IfOk, OnOk, OnErr, MatchOption, slice_get, slice_set};
ghost use Rattle.std.specs.Option.{option_copied};

use crate::copied::Copied;
use crate::memory::NoMemory;
use std::alloc::Global;
use std::marker::Model;

/// A list that grows at its end. It is seen as the list of its items.
#[derive(Debug, Drop)]
pub struct Seq<T> {
    items: Vec<T>,
}

impl<T> Model for Seq<T> {
    ghost use Rattle.std.specs.Prelude.{List};
    ghost use Rattle.std.specs.Coded.{coded_list};

    ghost Value = { List T };

    ghost coded = { coded_list T.code };

    ghost view = { λ s. s.items.items };
}

impl<T> Seq<T> {
    /// The empty list.
    pub fn new(alloc: Global) -> Self
        ensures { result ≡ [] }
    {
        Seq {
            items: Vec::new(alloc),
        }
    }

    /// The number of items.
    pub fn len(&self) -> usize
        ensures { result ≡ length self.now }
    {
        self.items.len()
    }

    /// Whether there is no item.
    pub fn is_empty(&self) -> bool
        ensures { IsTrue result ↔ (self.now ≡ []) }
    {
        self.items.is_empty()
    }

    /// Item `k`, from 0; `None` exactly where `k` isn't below the length.
    pub fn nth(&self, k: usize) -> Option<&T>
        ensures { option_copied result ≡ slice_get self.now k }
    {
        self.items.get(k)
    }

    /// The items as a slice.
    pub fn as_slice(&self) -> &[T]
        ensures { result.now ≡ self.now }
    {
        self.items.as_slice()
    }

    /// Takes the last item out; `None` exactly where there is none. Its room is kept for the next one.
    pub fn pop(&mut self) -> Option<T>
        ensures { MatchOption result ((self.old ≡ []) × (self.new ≡ [])) (λ last. self.old ≡ self.new ++ last ∷ []) }
    {
        self.items.pop()
    }

    /// The items themselves, moved out of the list.
    pub fn into_items(self) -> Vec<T>
        ensures { result.items ≡ self }
    {
        self.items
    }
}

impl<T: Drop> Seq<T> {
    /// Adds an item at the end. Without memory the list stays as it was.
    pub fn push(&mut self, item: T) -> Result<(), NoMemory>
        ensures ok { OnOk result (self.new ≡ self.old ++ item ∷ []) }
        ensures no_memory { OnErr result (self.new ≡ self.old) }
    {
        self.items.push(item)?;
        Ok(())
    }

    /// Moves all the items of the other list to the end of this one, and leaves the other empty. Without memory
    /// both lists stay as they were.
    pub fn append_list(&mut self, more: &mut Seq<T>) -> Result<(), NoMemory>
        ensures ok { OnOk result (self.new ≡ self.old ++ more.old) }
        ensures emptied { OnOk result (more.new ≡ []) }
        ensures no_memory { OnErr result ((self.new ≡ self.old) × (more.new ≡ more.old)) }
    {
        self.items.append(&mut more.items)?;
        Ok(())
    }

    /// Takes all the items out. Their room is kept for the next ones.
    pub fn clear(&mut self)
        ensures { self.new ≡ [] }
    {
        self.items.clear();
    }

    /// Makes room for so many more items at once. The list stays as it was, also without memory.
    pub fn reserve(&mut self, more: usize) -> Result<(), NoMemory>
        ensures { self.new ≡ self.old }
    {
        self.items.reserve(more)?;
        Ok(())
    }
}

impl<T: Copied> Seq<T> {
    /// An equal list.
    pub fn copy(&self) -> Result<Self, NoMemory>
        ensures { IfOk result (λ copy. copy ≡ self.now) }
    {
        let items = T::copied_all(*self.items.allocator(), &self.items)?;
        Ok(Seq { items })
    }
}

impl<T: Copied> Copied for Seq<T> {
    fn copied(&self) -> Result<Self, NoMemory> {
        self.copy()
    }
}

impl<T: PartialEq> PartialEq for Seq<T> {
    ghost use Rattle.std.specs.Cmp.Lexicographic.{pointwise, lists_per};

    ghost eq = { λ a b. pointwise T.eq a b };

    ghost laws = { lists_per T.laws };

    fn eq(&self, other: &Self) -> bool {
        self.items == other.items
    }
}

impl Seq<u8> {
    /// Adds all the bytes at the end. Without memory the list stays as it was.
    pub fn append(&mut self, more: &[u8]) -> Result<(), NoMemory>
        ensures ok { OnOk result (self.new ≡ self.old ++ more.now) }
        ensures no_memory { OnErr result (self.new ≡ self.old) }
    {
        self.items.extend_from_slice(more)?;
        Ok(())
    }
}

impl Seq<i64> {
    /// Writes `value` in the place of item `k`.
    pub fn set(&mut self, k: usize, value: i64)
        requires { k < length self.old }
        ensures { self.new ≡ slice_set self.old k value }
    {
        self.items[k] = value;
    }

    /// Writes the items in the place of those that the list has, as many. It takes no memory.
    pub fn write(&mut self, items: &[i64])
        requires { length items.now ≡ length self.old }
        ensures { self.new ≡ items.now }
    {
        self.items.copy_from_slice(items);
    }
}
