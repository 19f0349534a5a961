ghost use Rattle.std.specs.Prelude.{◌≡◌, [], ◌∷◌, ◌++◌, ◌<◌, length, slice_get, slice_set, take, ◌↔◌, IsTrue, IfOk, MatchOption, OnOk, OnErr};
ghost use Rattle.std.specs.Option.{option_copied};

use std::alloc::{AllocError, Global};
use std::marker::Model;

/// A growing list that contracts see as the list of its items.
///
/// Unlike a `Vec` it shows nothing else, so that two lists of the same items are equal, and a tree that holds lists is plain
/// data. This project's own.
#[derive(Debug, Drop)]
pub struct List<T> {
    items: Vec<T>,
}

/// A list of bytes.
pub type Bytes = List<u8>;

impl<T> Model for List<T> {
    ghost use Rattle.std.specs.Prelude.{List};
    ghost use Rattle.std.specs.Coded.{coded_list};

    ghost Value = { List T };

    ghost coded = { coded_list T.code };

    ghost view = { λ list. list.items.items };
}

impl<T> List<T> {
    /// The empty list, which takes no memory.
    pub fn new(alloc: Global) -> List<T>
        ensures { result ≡ [] }
    {
        List {
            items: Vec::new(alloc),
        }
    }

    /// The list of the vector's items, which are not copied.
    pub fn from_vec(items: Vec<T>) -> List<T>
        ensures { result ≡ items.items }
    {
        List { items }
    }

    /// The number of items.
    pub fn len(&self) -> usize
        ensures { result ≡ length self.now }
    {
        self.items.len()
    }

    /// Whether there is no item.
    pub fn is_empty(&self) -> bool
        ensures { IsTrue result ↔ (self.now ≡ []) }
    {
        self.items.is_empty()
    }

    /// The item at place `at`, from 0, and `None` exactly where there is no such place.
    pub fn get(&self, at: usize) -> Option<&T>
        ensures { option_copied result ≡ slice_get self.now at }
    {
        self.items.get(at)
    }

    /// The items as a slice.
    pub fn as_slice(&self) -> &[T]
        ensures { result.now ≡ self.now }
    {
        self.items.as_slice()
    }

    /// Takes the last item, and answers `None` exactly where the list is empty.
    pub fn pop(&mut self) -> Option<T>
        ensures { MatchOption result ((self.old ≡ []) × (self.new ≡ [])) (λ last. self.old ≡ self.new ++ last ∷ []) }
    {
        self.items.pop()
    }
}

impl<T: Drop> List<T> {
    /// Puts `item` at the end. Want of memory drops it and leaves the list as it was.
    pub fn push(&mut self, item: T) -> Result<(), AllocError>
        ensures ok { OnOk result (self.new ≡ self.old ++ item ∷ []) }
        ensures err { OnErr result (self.new ≡ self.old) }
    {
        self.items.push(item)?;
        Ok(())
    }

    /// Moves the items of `more` to the end. Want of memory drops them and leaves the list as it was.
    pub fn append(&mut self, more: List<T>) -> Result<(), AllocError>
        ensures ok { OnOk result (self.new ≡ self.old ++ more) }
        ensures err { OnErr result (self.new ≡ self.old) }
    {
        let List { mut items } = more;
        self.items.append(&mut items)
    }

    /// Puts `item` in the place of the item at `at`, which is dropped.
    pub fn set(&mut self, at: usize, item: T)
        requires { at < length self.old }
        ensures { self.new ≡ slice_set self.old at item }
    {
        self.items[at] = item;
    }

    /// Puts `item` in the place of the item at `at`, which is given back.
    pub fn replace(&mut self, at: usize, item: T) -> T
        requires { at < length self.old }
        ensures old { slice_get self.old at ≡ Some result }
        ensures new { self.new ≡ slice_set self.old at item }
    {
        std::mem::replace(&mut self.items[at], item)
    }

    /// Keeps the first `n` items, or all where there are no more than that.
    pub fn truncate(&mut self, n: usize)
        ensures { self.new ≡ take n self.old }
    {
        self.items.truncate(n);
    }
}

impl<T: Copy> List<T> {
    /// A list of the items of a slice.
    pub fn from_slice(alloc: Global, items: &[T]) -> Result<List<T>, AllocError>
        ensures { IfOk result (λ list. list ≡ items.now) }
    {
        let items = Vec::from_slice(alloc, items)?;
        Ok(List { items })
    }

    /// Puts the items of a slice at the end. Want of memory leaves the list as it was.
    pub fn extend_from_slice(&mut self, items: &[T]) -> Result<(), AllocError>
        ensures ok { OnOk result (self.new ≡ self.old ++ items.now) }
        ensures err { OnErr result (self.new ≡ self.old) }
    {
        self.items.extend_from_slice(items)
    }
}
