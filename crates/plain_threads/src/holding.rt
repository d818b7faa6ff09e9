//! Monitors that are held.

ghost use Rattle.std.specs.Prelude.{◌≡◌, ◌==◌, ◌∷◌, ◌++◌, [], not, filter, position, IsSome, Some};
ghost use Rattle.std.specs.Prelude.{None, OnOk, OnErr, IfOk, true};
ghost use Rattle.machine_types.specs.PlainState.{holding_at, with_holding, without_holding};
ghost use Rattle.plain_threads.specs.Holdings.{left_once};

use std::alloc::{AllocError, Global};
use std::marker::Model;

/// A monitor that is held.
#[derive(Clone, Copy, Debug)]
pub struct Holding {
    monitor: u64,
    holder: u8,
    depth: u64,
}

impl Model for Holding {
    ghost use Rattle.machine_types.specs.PlainState.{Holding as Plain};

    ghost Value = { Plain };

    ghost view = { λ h. record { monitor = h.monitor; holder = h.holder; depth = h.depth } };

    ghost inverse = { λ h. record { monitor = h.monitor; holder = h.holder; depth = h.depth } };
}

impl Holding {
    fn of(monitor: u64, holder: u8, depth: u64) -> Holding
        ensures { result ≡ record { monitor = monitor; holder = holder; depth = depth } }
    {
        Holding {
            monitor,
            holder,
            depth,
        }
    }

    pub fn monitor(&self) -> u64
        ensures { result ≡ self.now.monitor }
    {
        self.monitor
    }

    pub fn holder(&self) -> u8
        ensures { result ≡ self.now.holder }
    {
        self.holder
    }

    pub fn depth(&self) -> u64
        ensures { result ≡ self.now.depth }
    {
        self.depth
    }

    /// `true`: the other one is the same.
    fn is_same(&self, other: &Holding) -> bool
        ensures { result ≡ true → self.now ≡ other.now }
    {
        self.monitor == other.monitor && self.holder == other.holder && self.depth == other.depth
    }
}

/// `true`: the others are the same, in the same order.
fn are_same(a: &[Holding], b: &[Holding]) -> bool
    ensures { result ≡ true → a.now ≡ b.now }
{
    if a.len() != b.len() {
        return false;
    }
    for i in 0..a.len() {
        if !a[i].is_same(&b[i]) {
            return false;
        }
    }
    true
}

/// The number of the first entry of a monitor.
fn place_of(holdings: &[Holding], m: u64) -> Option<usize>
    ensures { result ≡ position (λ h. h.monitor == m) holdings.now }
{
    holdings.iter().position(|h| h.monitor() == m)
}

/// The monitors that are held. A call that answers an error has changed nothing.
#[derive(Debug, Drop)]
pub struct Holdings {
    holdings: Vec<Holding>,
}

impl Model for Holdings {
    ghost use Rattle.std.specs.Prelude.{List};
    ghost use Rattle.machine_types.specs.PlainState.{Holding as Plain};

    ghost Value = { List Plain };

    ghost view = { λ s. s.holdings.items };
}

impl Holdings {
    /// None is held.
    pub fn new(alloc: Global) -> Holdings
        ensures { result ≡ [] }
    {
        Holdings {
            holdings: Vec::new(alloc),
        }
    }

    /// The entry of a monitor that is held.
    pub fn at(&self, m: u64) -> Option<Holding>
        ensures { result ≡ holding_at self.now m }
    {
        for h in self.holdings.as_slice() {
            if h.monitor() == m {
                return Some(*h);
            }
        }
        None
    }

    /// The monitor is held by thread `t` at this depth.
    pub fn put(&mut self, t: u8, m: u64, depth: u64) -> Result<(), AllocError>
        ensures ok { OnOk result
            (self.new ≡ with_holding (record { monitor = m; holder = t; depth = depth }) self.old) }
        ensures err { OnErr result (self.new ≡ self.old) }
    {
        match place_of(self.holdings.as_slice(), m) {
            Some(i) => self.holdings[i] = Holding::of(m, t, depth),
            None => self.holdings.push(Holding::of(m, t, depth))?,
        }
        Ok(())
    }

    /// A monitor that is held is held by thread `t` at this depth.
    fn set(&mut self, t: u8, m: u64, depth: u64)
        requires { IsSome (holding_at self.old m) }
        ensures { self.new
            ≡ with_holding (record { monitor = m; holder = t; depth = depth }) self.old }
    {
        match place_of(self.holdings.as_slice(), m) {
            Some(i) => self.holdings[i] = Holding::of(m, t, depth),
            None => unreachable!(),
        }
    }

    /// The monitor is free.
    pub fn remove(&mut self, m: u64)
        ensures { self.new ≡ without_holding m self.old }
    {
        loop {
            match place_of(self.holdings.as_slice(), m) {
                Some(i) => {
                    let _gone = self.holdings.remove(i);
                }
                None => return,
            }
        }
    }

    /// Thread `t` leaves a monitor once that it holds at this depth: it is free when its one entry
    /// is left.
    pub fn leave(&mut self, t: u8, m: u64, depth: u64)
        requires { IsSome (holding_at self.old m) }
        ensures { self.new ≡ left_once t m depth self.old }
    {
        if depth > 1 {
            self.set(t, m, depth - 1);
        } else {
            self.remove(m);
        }
    }

    /// The same monitors again.
    pub fn copy(&self, alloc: Global) -> Result<Holdings, AllocError>
        ensures { IfOk result (λ s. s ≡ self.now) }
    {
        let mut holdings = Vec::new(alloc);
        holdings.extend_from_slice(self.holdings.as_slice())?;
        Ok(Holdings { holdings })
    }

    /// `true`: the same monitors are held there, in the same order.
    pub fn is_same(&self, other: &Holdings) -> bool
        ensures { result ≡ true → self.now ≡ other.now }
    {
        are_same(self.holdings.as_slice(), other.holdings.as_slice())
    }
}
