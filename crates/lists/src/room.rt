//! Lists whose memory was taken before.

ghost use Rattle.std.specs.Prelude.{◌≡◌, [], ◌∷◌, ◌++◌, ◌+◌, ◌<◌, ◌≤◌, length, slice_get};
ghost use Rattle.std.specs.Prelude.{slice_set, IfOk, MatchOption, OnSome};
ghost use Rattle.std.specs.Option.{option_copied};

use crate::rows::Rows;
use std::alloc::{AllocError, Global};
use std::marker::Model;

/// A list whose memory was taken before. Contracts see its `items` and, as `spare`, how many more
/// can be pushed.
///
/// Only `with_room` takes memory; what it takes is not touched before it is used.
#[derive(Debug, Drop)]
pub struct Room<T> {
    items: Vec<T>,
}

impl<T> Model for Room<T> {
    ghost use Rattle.std.specs.Prelude.{◌-◌};
    ghost use Rattle.std.specs.Vec.{vec_len, vec_capacity};
    ghost use Rattle.lists.specs.Stock.{Stock, stock_code};

    ghost Value = { Stock T };

    ghost coded = { stock_code T.code };

    ghost view = { λ r. record { items = r.items.items; spare = vec_capacity r.items - vec_len r.items } };
}

impl<T> Room<T> {
    /// An empty list with memory for so many items.
    pub fn with_room(alloc: Global, n: usize) -> Result<Self, AllocError>
        ensures items { IfOk result (λ r. r.items ≡ []) }
        ensures spare { IfOk result (λ r. n ≤ r.spare) }
    {
        Ok(Room {
            items: Vec::with_capacity(alloc, n)?,
        })
    }

    /// Adds `item` at the end.
    pub fn push(&mut self, item: T)
        requires { 0 < self.old.spare }
        ensures items { self.new.items ≡ self.old.items ++ item ∷ [] }
        ensures spare { self.new.spare + 1 ≡ self.old.spare }
    {
        self.items.push_reserved(item);
    }

    /// Takes the last item, or answers `None` where there is none. Its memory is spare then.
    pub fn pop(&mut self) -> Option<T>
        ensures items { MatchOption result ((self.old.items ≡ []) × (self.new.items ≡ []))
            (λ last. self.old.items ≡ self.new.items ++ last ∷ []) }
        ensures spare { MatchOption result (self.new.spare ≡ self.old.spare)
            (λ _. self.new.spare ≡ self.old.spare + 1) }
    {
        self.items.pop()
    }

    /// How many items there are.
    pub fn len(&self) -> usize
        ensures { result ≡ length self.now.items }
    {
        self.items.len()
    }

    /// The item at `i`, counted from 0, or `None` where there are not so many.
    pub fn get(&self, i: usize) -> Option<&T>
        ensures value { option_copied result ≡ slice_get self.now.items i }
        ensures within { OnSome result (i < length self.now.items) }
    {
        self.items.get(i)
    }

    /// The items as a slice.
    pub fn as_slice(&self) -> &[T]
        ensures { result.now ≡ self.now.items }
    {
        self.items.as_slice()
    }

    /// The items.
    pub fn into_rows(self) -> Rows<T>
        ensures { result ≡ self.items }
    {
        Rows::from_vec(self.items)
    }
}

impl<T: Drop> Room<T> {
    /// Puts `item` in the place of the item at `i`.
    pub fn set(&mut self, i: usize, item: T)
        requires { i < length self.old.items }
        ensures items { self.new.items ≡ slice_set self.old.items i item }
        ensures spare { self.new.spare ≡ self.old.spare }
    {
        self.items[i] = item;
    }
}
