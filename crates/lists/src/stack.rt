//! Stacks.

ghost use Rattle.std.specs.Prelude.{◌≡◌, ◌<◌, ◌↔◌, ◌∷◌, [], length, drop, reverse, slice_get};
ghost use Rattle.std.specs.Prelude.{slice_set, IsTrue, IfOk, OnOk, OnErr, OnSome, MatchOption};
ghost use Rattle.std.specs.Option.{option_copied};

use crate::rows::Rows;
use std::alloc::{AllocError, Global};
use std::marker::Model;

/// A stack, which contracts see as the list of its items with the top first. In memory the top is
/// last.
///
/// Only `push`, `copy` and `without` take memory.
#[derive(Debug, Drop)]
pub struct Stack<T> {
    items: Rows<T>,
}

impl<T> Model for Stack<T> {
    ghost use Rattle.std.specs.Prelude.{List};
    ghost use Rattle.std.specs.Coded.{coded_list};
    ghost use Rattle.lists.specs.Stacks.{top_first};

    ghost Value = { List T };

    ghost coded = { coded_list T.code };

    ghost view = { λ s. top_first s.items };
}

impl<T> Stack<T> {
    /// An empty stack.
    #[tactic(auto, unfolding(crate::specs::Stacks::top_first))]
    pub fn new(alloc: Global) -> Self
        ensures { result ≡ [] }
    {
        Stack {
            items: Rows::new(alloc),
        }
    }

    /// The items of a list, with its first on the top.
    #[tactic(auto, using(crate::proofs::StackLaws::first_on_top))]
    pub fn first_on_top(items: Rows<T>) -> Self
        ensures { result ≡ items }
    {
        let mut items = items;
        items.reverse();
        Stack { items }
    }

    /// How many items there are.
    #[tactic(auto, using(crate::proofs::StackLaws::length_top_first))]
    pub fn len(&self) -> usize
        ensures { result ≡ length self.now }
    {
        self.items.len()
    }

    /// The item at a place, counted from the top on from 0, or `None` where there are not so many.
    #[tactic(auto, using(crate::proofs::StackLaws::length_top_first, crate::proofs::StackLaws::get_top_first, crate::proofs::StackLaws::past_top_first))]
    pub fn get(&self, place: usize) -> Option<&T>
        ensures value { option_copied result ≡ slice_get self.now place }
        ensures within { OnSome result (place < length self.now) }
    {
        let height = self.items.len();
        if place < height {
            self.items.get(height - 1 - place)
        } else {
            None
        }
    }

    /// Takes the item on the top, or answers `None` where there is none.
    pub fn pop(&mut self) -> Option<T>
        ensures { MatchOption result ((self.old ≡ []) × (self.new ≡ []))
            (λ top. self.old ≡ top ∷ self.new) }
    {
        self.items.pop()
    }

    /// The items with the top last.
    #[tactic(auto, unfolding(crate::specs::Stacks::top_first))]
    pub fn as_slice(&self) -> &[T]
        ensures { reverse result.now ≡ self.now }
    {
        self.items.as_slice()
    }

    /// The items with the top last.
    #[tactic(auto, unfolding(crate::specs::Stacks::top_first))]
    pub fn into_rows(self) -> Rows<T>
        ensures { reverse result ≡ self }
    {
        self.items
    }
}

impl<T: Drop> Stack<T> {
    /// Puts an item on the top. Where memory is refused nothing changes, and `item` is dropped.
    #[tactic(auto, using(crate::proofs::StackLaws::top_first_push))]
    pub fn push(&mut self, item: T) -> Result<(), AllocError>
        ensures ok { OnOk result (self.new ≡ item ∷ self.old) }
        ensures err { OnErr result (self.new ≡ self.old) }
    {
        self.items.push(item)
    }

    /// Puts `item` in the place of the item at a place, counted from the top on from 0.
    #[tactic(auto, using(crate::proofs::StackLaws::length_top_first, crate::proofs::StackLaws::set_top_first))]
    pub fn set(&mut self, place: usize, item: T)
        requires { place < length self.old }
        ensures { self.new ≡ slice_set self.old place item }
    {
        let last = self.items.len() - 1;
        self.items.set(last - place, item);
    }

    /// Drops so many items from the top, or all where there are not so many.
    #[tactic(auto, using(crate::proofs::StackLaws::without_top_first))]
    pub fn drop_top(&mut self, count: usize)
        ensures { self.new ≡ drop count self.old }
    {
        let left = self.items.len().saturating_sub(count);
        self.items.truncate(left);
    }
}

impl<T: Copy> Stack<T> {
    pub fn copy(&self, alloc: Global) -> Result<Self, AllocError>
        ensures { IfOk result (λ s. s ≡ self.now) }
    {
        Ok(Stack {
            items: Rows::from_slice(alloc, self.items.as_slice())?,
        })
    }

    /// A copy without so many of the items on the top.
    #[tactic(auto, using(crate::proofs::StackLaws::without_top_first))]
    pub fn without(&self, alloc: Global, count: usize) -> Result<Self, AllocError>
        ensures { IfOk result (λ s. s ≡ drop count self.now) }
    {
        let left = self.items.len().saturating_sub(count);
        Ok(Stack {
            items: Rows::from_slice(alloc, &self.items.as_slice()[..left])?,
        })
    }

    /// A copy without so many of the items on the top, with room for some more.
    #[tactic(auto, using(crate::proofs::StackLaws::without_top_first))]
    pub fn without_for(&self, alloc: Global, count: usize, more: usize) -> Result<Self, AllocError>
        ensures { IfOk result (λ s. s ≡ drop count self.now) }
    {
        let left = self.items.len().saturating_sub(count);
        let mut items = Rows::from_vec(Vec::with_capacity(alloc, left.saturating_add(more))?);
        items.extend_from_slice(&self.items.as_slice()[..left])?;
        Ok(Stack { items })
    }
}
