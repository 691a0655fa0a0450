ghost use Rattle.std.specs.List.{remove, insert};
ghost use Rattle.std.specs.Prelude.{◌≡◌, ◌<◌, ◌≤◌, [], ◌∷◌, ◌++◌, ◌==◌, length, take, reverse, IfOk, OnOk, OnErr, IfSome, IfNone, slice_index_or, slice_set};

use std::alloc::{AllocError, Global};
use std::marker::Model;

/// A list that grows at its end. Contracts see it as a list.
#[derive(Drop)]
pub struct Row<T> {
    items: Vec<T>,
}

impl<T> Model for Row<T> {
    ghost use Rattle.std.specs.Prelude.{List};

    ghost Value = { List T };

    ghost view = { λ r. r.items.items };
}

impl<T: Drop> Row<T> {
    /// The empty list. It keeps `alloc`, so `push` takes none.
    pub fn new(alloc: Global) -> Row<T>
        ensures { result ≡ [] }
    {
        Row {
            items: Vec::new(alloc),
        }
    }

    /// Adds an item at the end. The error is out of memory; then the list is as it was.
    pub fn push(&mut self, item: T) -> Result<(), AllocError>
        ensures ok { OnOk result (self.new ≡ self.old ++ item ∷ []) }
        ensures err { OnErr result (self.new ≡ self.old) }
    {
        self.items.push(item)?;
        Ok(())
    }

    /// Moves all items of the other list to the end. The error is out of memory; then both are as they were.
    pub fn append(&mut self, other: &mut Row<T>) -> Result<(), AllocError>
        ensures ok { OnOk result ((self.new ≡ self.old ++ other.old) × (other.new ≡ [])) }
        ensures err { OnErr result ((self.new ≡ self.old) × (other.new ≡ other.old)) }
    {
        self.items.append(&mut other.items)
    }

    /// Puts an item at place `i`, counted from 0, before those from there on. The error is out of memory; then the list is as it
    /// was.
    pub fn insert(&mut self, i: usize, item: T) -> Result<(), AllocError>
        requires { i ≤ length self.old }
        ensures ok { OnOk result (self.new ≡ insert self.old i item) }
        ensures err { OnErr result (self.new ≡ self.old) }
    {
        self.items.insert(i, item)?;
        Ok(())
    }

    /// Replaces the item at place `i`, counted from 0.
    pub fn set(&mut self, i: usize, item: T)
        requires { i < length self.old }
        ensures { self.new ≡ slice_set self.old i item }
    {
        self.items[i] = item;
    }

    /// Takes out the last item; None exactly where there is none.
    pub fn pop(&mut self) -> Option<T>
        ensures some { IfSome result (λ x. self.old ≡ self.new ++ x ∷ []) }
        ensures none { IfNone result ((self.old ≡ []) × (self.new ≡ [])) }
    {
        self.items.pop()
    }

    /// Takes out the item at place `i`, counted from 0.
    pub fn remove(&mut self, i: usize) -> T
        requires { i < length self.old }
        ensures new { self.new ≡ remove self.old i }
        ensures item { result ≡ slice_index_or self.old i result }
    {
        self.items.remove(i)
    }

    /// Keeps the first `n` items; all where there are no more.
    pub fn truncate(&mut self, n: usize)
        ensures { self.new ≡ take n self.old }
    {
        self.items.truncate(n);
    }

    /// Turns the order of the items round.
    pub fn reverse(&mut self)
        ensures { self.new ≡ reverse self.old }
    {
        self.items.reverse();
    }

    /// How many items there are.
    pub fn len(&self) -> usize
        ensures { result ≡ length self.now }
    {
        self.items.len()
    }

    /// Whether there is no item.
    pub fn is_empty(&self) -> bool
        ensures { result ≡ (length self.now == 0) }
    {
        self.items.is_empty()
    }

    /// The item at place `i`, counted from 0.
    pub fn get(&self, i: usize) -> &T
        requires { i < length self.now }
        ensures { result.now ≡ slice_index_or self.now i result.now }
    {
        &self.items[i]
    }

    /// All items, to be taken one by one, as `for item in list.into_vec()`.
    pub fn into_vec(self) -> Vec<T>
        ensures { result.items ≡ self }
    {
        self.items
    }

    /// All items, as a slice.
    pub fn as_slice(&self) -> &[T]
        ensures { result.now ≡ self.now }
    {
        self.items.as_slice()
    }
}

impl<T: Copy + Drop> Row<T> {
    /// The list of the items of the slice. The error is out of memory.
    pub fn from_slice(alloc: Global, list: &[T]) -> Result<Row<T>, AllocError>
        ensures { IfOk result (λ r. r ≡ list.now) }
    {
        let mut row = Row::new(alloc);
        row.extend_from_slice(list)?;
        Ok(row)
    }

    /// Adds the items of the slice at the end. The error is out of memory; then the list is as it was.
    pub fn extend_from_slice(&mut self, list: &[T]) -> Result<(), AllocError>
        ensures ok { OnOk result (self.new ≡ self.old ++ list.now) }
        ensures err { OnErr result (self.new ≡ self.old) }
    {
        self.items.extend_from_slice(list)
    }
}
