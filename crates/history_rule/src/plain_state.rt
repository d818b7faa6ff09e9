//! The state of the plain machine.

ghost use Rattle.std.specs.Prelude.{◌≡◌, slice_get, IfOk, true};
ghost use Rattle.std.specs.Option.{option_map};
ghost use Rattle.machine_types.specs.PlainState.{plain_start};
ghost use Rattle.machine_types.specs.PlainSteps.{plain_done_end, end_at};
ghost use Rattle.plain_threads.specs.Statuses.{plain_status_of};

use crate::printed::Printed;
use checked_program::Checked;
use jvm_types::{End, Rows};
use plain_memory::Memory;
use plain_threads::{Holdings, Status, Threads, done_roots};
use std::alloc::{AllocError, Global};
use std::marker::Model;

/// The state of the plain machine: threads, objects and ordinary monitors (JVMS 2.5, 2.6, 2.11.10).
/// Contracts see it as the definitions do.
#[derive(Debug, Drop)]
pub(crate) struct PlainState {
    pub(crate) memory: Memory,
    pub(crate) holdings: Holdings,
    pub(crate) threads: Threads,
    pub(crate) prints: Rows<Printed>,
}

impl Model for PlainState {
    ghost use Rattle.machine_types.specs.PlainState.{Plain as State};

    ghost Value = { State };

    ghost view = { λ s.
        record {
          objects = s.memory.objects;
          statics = s.memory.statics;
          next = s.memory.next;
          holdings = s.holdings;
          threads = s.threads;
          prints = s.prints;
        } };
}

/// `true`: the others are the same prints, in the same order.
fn are_same(a: &[Printed], b: &[Printed]) -> bool
    ensures { result ≡ true → a.now ≡ b.now }
{
    if a.len() != b.len() {
        return false;
    }
    for i in 0..a.len() {
        if !a[i].is_same(&b[i]) {
            return false;
        }
    }
    true
}

impl PlainState {
    /// The state at the start of a run of a program.
    pub fn start(alloc: Global, p: &Checked) -> Result<PlainState, AllocError>
        ensures { IfOk result (λ s. s ≡ plain_start p.now.program) }
    {
        Ok(PlainState {
            memory: Memory::start(alloc, p.program())?,
            holdings: Holdings::new(alloc),
            threads: Threads::start(alloc, p)?,
            prints: Rows::new(alloc),
        })
    }

    /// What was printed so far, in order.
    pub fn prints(&self) -> &[Printed]
        ensures { result.now ≡ self.now.prints }
    {
        self.prints.as_slice()
    }

    /// What a thread does next, or `None` where there is no such thread.
    pub fn status(&self, t: u8) -> Option<Status>
        ensures { option_map plain_status_of result
            ≡ option_map (λ x. x.status) (slice_get self.now.threads t) }
    {
        match self.threads.get(t) {
            Some(x) => Some(x.status()),
            None => None,
        }
    }

    /// How a part of a thread ended, by the number of the part, or `None` where it has not.
    pub fn end_at(&self, part: usize, t: u8) -> Option<End>
        ensures { result ≡ end_at part (slice_get self.now.threads t) }
    {
        match self.threads.get(t) {
            Some(x) => x.ended().get(part).copied(),
            None => None,
        }
    }

    /// How `done` ended, or `None` where it has not. Where the program has none, it has returned as
    /// soon as it is due.
    pub fn done_end(&self, alloc: Global, p: &Checked) -> Result<Option<End>, AllocError>
        ensures { IfOk result (λ e. e ≡ plain_done_end p.now.program self.now) }
    {
        let roots = done_roots(alloc, p)?;
        if roots.len() > 0 {
            Ok(self.end_at(1, 0))
        } else if self.threads.is_done_due() {
            Ok(Some(End::Returned))
        } else {
            Ok(None)
        }
    }

    /// Its threads.
    pub fn threads(&self) -> &Threads
        ensures { result.now ≡ self.now.threads }
    {
        &self.threads
    }

    /// The same state again.
    pub fn copy(&self, alloc: Global) -> Result<PlainState, AllocError>
        ensures { IfOk result (λ s. s ≡ self.now) }
    {
        Ok(PlainState {
            memory: self.memory.copy(alloc)?,
            holdings: self.holdings.copy(alloc)?,
            threads: self.threads.copy(alloc)?,
            prints: Rows::from_slice(alloc, self.prints.as_slice())?,
        })
    }

    /// `true`: the other one has the same prints.
    pub fn has_same_prints(&self, other: &PlainState) -> bool
        ensures { result ≡ true → self.now.prints ≡ other.now.prints }
    {
        are_same(self.prints(), other.prints())
    }

    /// `true`: the other state is the same.
    pub fn is_same(&self, other: &PlainState) -> bool
        ensures { result ≡ true → self.now ≡ other.now }
    {
        self.threads.is_same(&other.threads)
            && self.holdings.is_same(&other.holdings)
            && are_same(self.prints.as_slice(), other.prints.as_slice())
            && self.memory.is_same(&other.memory)
    }
}
