//! A list of values, as contracts see it.

ghost use Rattle.std.specs.Prelude.{◌≡◌, ◌-◌, ◌<◌, ◌↔◌, [], ◌∷◌, ◌++◌, length, slice_get, slice_set, option_copied, IsTrue, IfOk, OnOk, OnErr};

use crate::copied::Copied;
use crate::out_of_memory::OutOfMemory;
use std::alloc::Global;
use std::marker::Model;

/// A growable list. A contract sees it as the list of its items, without its capacity. It keeps
/// the allocator that it was made with.
#[derive(Debug, Drop)]
pub struct ListOf<T> {
    items: Vec<T>,
}

impl<T> Model for ListOf<T> {
    ghost use Rattle.std.specs.Prelude.{List};

    ghost Value = { List T };

    ghost view = { λ l. l.items.items };
}

impl<T> ListOf<T> {
    /// The empty list.
    pub fn new(alloc: Global) -> ListOf<T>
        ensures { result ≡ [] }
    {
        ListOf {
            items: Vec::new(alloc),
        }
    }

    /// The allocator that it was made with.
    pub fn allocator(&self) -> Global {
        *self.items.allocator()
    }

    /// The list of a vector's items. It takes no memory.
    pub fn from_vec(items: Vec<T>) -> ListOf<T>
        ensures { result ≡ items.items }
    {
        ListOf { items }
    }

    /// Gives the items back as a vector. It takes no memory.
    pub fn into_vec(self) -> Vec<T>
        ensures { result.items ≡ self }
    {
        self.items
    }

    /// The items, to be read.
    pub fn items(&self) -> &[T]
        ensures { result.now ≡ self.now }
    {
        &self.items
    }

    /// How many items there are.
    pub fn len(&self) -> usize
        ensures { result ≡ length self.now }
    {
        self.items.len()
    }

    /// Whether there are none.
    pub fn is_empty(&self) -> bool
        ensures { IsTrue result ↔ (self.now ≡ []) }
    {
        self.items.is_empty()
    }

    /// The item at a place, counted from 0. There is none from the end on.
    pub fn get(&self, place: usize) -> Option<&T>
        ensures { option_copied result ≡ slice_get self.now place }
    {
        self.items.get(place)
    }

    /// The last item. The empty list has none.
    pub fn last(&self) -> Option<&T>
        ensures { option_copied result ≡ slice_get self.now (length self.now - 1) }
    {
        self.items.last()
    }
}

impl<T: Drop> ListOf<T> {
    /// Adds an item at the end. A refused push leaves the list.
    pub fn push(&mut self, item: T) -> Result<(), OutOfMemory>
        ensures ok { OnOk result (self.new ≡ self.old ++ item ∷ []) }
        ensures err { OnErr result (self.new ≡ self.old) }
    {
        self.items.push(item)?;
        Ok(())
    }

    /// Puts an item in the place of the one that stands there.
    pub fn set(&mut self, place: usize, item: T)
        requires { place < length self.old }
        ensures { self.new ≡ slice_set self.old place item }
    {
        self.items[place] = item;
    }

    /// Moves the items of another list to the end. Where memory is refused, the list stays, and the
    /// other's items are dropped.
    pub fn append(&mut self, mut other: ListOf<T>) -> Result<(), OutOfMemory>
        ensures ok { OnOk result (self.new ≡ self.old ++ other) }
        ensures err { OnErr result (self.new ≡ self.old) }
    {
        self.items.append(&mut other.items)?;
        Ok(())
    }
}

impl<T: Copy> ListOf<T> {
    /// Adds items at the end. Where memory is refused, the list stays.
    pub fn extend(&mut self, items: &[T]) -> Result<(), OutOfMemory>
        ensures ok { OnOk result (self.new ≡ self.old ++ items.now) }
        ensures err { OnErr result (self.new ≡ self.old) }
    {
        self.items.extend_from_slice(items)?;
        Ok(())
    }
}

impl<T: Copied + Drop> ListOf<T> {
    /// An equal list, by the allocator of this one.
    pub fn copy(&self) -> Result<ListOf<T>, OutOfMemory>
        ensures { IfOk result (λ copy. copy ≡ self.now) }
    {
        let mut copies = ListOf::new(self.allocator());
        for item in self.items() {
            copies.push(item.copy()?)?;
        }
        Ok(copies)
    }
}

impl<T: Copied + Drop> Copied for ListOf<T> {
    fn copy(&self) -> Result<ListOf<T>, OutOfMemory> {
        self.copy()
    }
}
