//! Members by the numbers of their classes, names and descriptors.

ghost use Rattle.std.specs.Prelude.{◌≡◌, [], is_some, Some, None, IfOk, OnOk, if◌then◌else◌};
ghost use Rattle.std.specs.Option.{option_or};

use crate::scope::Found;
use std::alloc::{AllocError, Global};
use std::collections::BTreeMap;
use std::marker::Model;

/// What a member is looked up by: the number of a class, and the numbers of a name and of a
/// descriptor.
#[derive(Clone, Copy, Debug, PartialEq, Eq, PartialOrd, Ord)]
pub struct Key {
    pub class: u16,
    pub name: u32,
    pub descriptor: u32,
}

/// Members by their keys, of several with one key the first. Contracts see the keys with their
/// members.
#[derive(Drop)]
pub struct Table {
    members: BTreeMap<Key, Found>,
}

impl Model for Table {
    ghost use Rattle.std.specs.Prelude.{List};
    ghost use Rattle.link_scope.specs.declared.table.Key.{Key};
    ghost use Rattle.link_scope.specs.declared.scope.Found.{Found};

    ghost Value = { List (Key × Found) };

    ghost view = { λ t. t.members.entries };
}

impl Table {
    ghost use Rattle.link_scope.specs.Keys.{is_key, found_at};
    ghost use Rattle.link_scope.specs.declared.table.Key.{Key};

    /// No members.
    pub fn new(alloc: Global) -> Self
        ensures { result ≡ [] }
    {
        Table {
            members: BTreeMap::new(alloc),
        }
    }

    /// The member with a key.
    pub fn get(&self, key: Key) -> Option<Found>
        ensures { result ≡ found_at self.now key }
    {
        self.members.get(&key).copied()
    }

    /// Adds a member where there is none with its key, and answers whether there is one.
    pub fn add(&mut self, key: Key, found: Found) -> Result<bool, AllocError>
        ensures was { IfOk result (λ b. b ≡ is_some (found_at self.old key)) }
        ensures added { OnOk result ((q : Key) → found_at self.new q
            ≡ option_or (found_at self.old q) (if is_key key q then Some found else None)) }
    {
        if self.members.contains_key(&key) {
            return Ok(true);
        }
        self.members.insert(key, found)?;
        Ok(false)
    }
}
