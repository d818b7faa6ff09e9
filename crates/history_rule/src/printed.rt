//! Numbers that were printed.

ghost use Rattle.std.specs.Prelude.{◌≡◌, true};

use std::marker::Model;

/// A number that a thread has printed.
#[derive(Clone, Copy, Debug)]
pub struct Printed {
    thread: u8,
    value: i32,
}

impl Model for Printed {
    ghost use Rattle.machine_types.specs.PlainState.{Printed as Plain};

    ghost Value = { Plain };

    ghost view = { λ p. record { thread = p.thread; value = p.value } };

    ghost inverse = { λ p. record { thread = p.thread; value = p.value } };
}

impl Printed {
    pub fn of(thread: u8, value: i32) -> Printed
        ensures { result ≡ record { thread = thread; value = value } }
    {
        Printed { thread, value }
    }

    pub fn thread(&self) -> u8
        ensures { result ≡ self.now.thread }
    {
        self.thread
    }

    pub fn value(&self) -> i32
        ensures { result ≡ self.now.value }
    {
        self.value
    }

    /// `true`: the other one is the same.
    pub fn is_same(&self, other: &Printed) -> bool
        ensures { result ≡ true → self.now ≡ other.now }
    {
        self.thread == other.thread && self.value == other.value
    }
}
