//! What a search has found.

ghost use Rattle.std.specs.Prelude.{◌≡◌, ◌≤◌, ◌<◌, ℕ, true, false, length, map, slice_get, Some};
ghost use Rattle.std.specs.Prelude.{Contains, IfOk, MatchOption};
ghost use Rattle.machine_types.specs.PlainState.{plain_start, Plain as State};
ghost use Rattle.machine_types.specs.PlainSteps.{plain_run};
ghost use Rattle.plain_search.specs.Searched.{AreTaken, IsSearched, IsSoundSearch};

use crate::row::{Gathered, Row};
use checked_program::Checked;
use history_rule::{MOST_STEPS, Plain, plain_start};
use jvm_types::Rows;
use lists::Told;
use machine_types::{Act, PlainStep};
use std::alloc::{AllocError, Global};
use std::marker::Model;

/// The states that a search has found, each once.
#[derive(Drop)]
pub struct Found {
    program: Told<Checked>,
    rows: Vec<Row>,
    rests: Vec<u32>,
    is_whole: bool,
}

impl Model for Found {
    ghost use Rattle.std.specs.Prelude.{map};
    ghost use Rattle.plain_search.specs.Searched.{IsSearched, Searched};

    ghost Value = { Searched };

    ghost view = { λ f.
        record {
          program = f.program.told;
          states = map (λ r. r.plain.state) f.rows.items;
          rests = f.rests.items;
          is_whole = f.is_whole;
        } };

    ghost invariant = { λ f. IsSearched (record {
      program = f.program.told;
      states = map (λ r. r.plain.state) f.rows.items;
      rests = f.rests.items;
      is_whole = f.is_whole;
    }) };
}

/// Adds the steps by which a row was come to from another, the last one first.
fn add_back(back: &mut Rows<PlainStep>, row: &Row) -> Result<(), AllocError> {
    for _ in 0..row.locals {
        back.push(PlainStep {
            thread: row.step.thread,
            act: Act::Do,
        })?;
    }
    back.push(row.step)
}

impl Found {
    /// What a search found that has taken up each of its rows.
    pub(crate) fn whole(p: &Checked, s: Gathered) -> Found
        requires sound { IsSoundSearch p.now s }
        requires taken { AreTaken p.now s (length s.rows.items) }
        ensures own { result.program ≡ p.now }
        ensures searched { IsSearched result }
    {
        Found {
            program: Told::of(p),
            rows: s.rows,
            rests: s.rests,
            is_whole: true,
        }
    }

    /// What a search found that was ended before.
    pub(crate) fn part(p: &Checked, s: Gathered) -> Found
        requires { IsSoundSearch p.now s }
        ensures own { result.program ≡ p.now }
        ensures searched { IsSearched result }
    {
        Found {
            program: Told::of(p),
            rows: s.rows,
            rests: s.rests,
            is_whole: false,
        }
    }

    /// Whether these are all states. If not, there are more than were asked for, or there was no
    /// memory for more.
    pub fn is_whole(&self) -> bool
        ensures whole { result ≡ self.now.is_whole }
        ensures searched { IsSearched self.now }
    {
        self.is_whole
    }

    /// How many states there are.
    pub fn len(&self) -> usize
        ensures { result ≡ length self.now.states }
    {
        self.rows.len()
    }

    /// The plain machine in a state, by its number.
    pub fn at(&self, i: usize) -> &Plain
        requires { i < length self.now.states }
        ensures { slice_get self.now.states i ≡ Some result.now.state }
    {
        &self.rows[i].plain
    }

    /// The numbers of the states that have no step.
    pub fn rests(&self) -> &[u32]
        ensures rests { result.now ≡ self.now.rests }
        ensures searched { IsSearched self.now }
    {
        self.rests.as_slice()
    }

    /// Steps of the plain machine that lead to a state, by its number, or `None` where none are
    /// found.
    pub fn steps_to(
        &self,
        alloc: Global,
        p: &Checked,
        i: usize,
    ) -> Result<Option<Rows<PlainStep>>, AllocError>
        requires place { i < length self.now.states }
        requires program { p.now ≡ self.now.program }
        ensures { IfOk result (λ o. MatchOption o (Unit {0}) (λ steps.
            (q : State) → slice_get self.now.states i ≡ Some q
            → plain_run p.now.program (plain_start p.now.program) steps ≡ Some q)) }
    {
        let steps = self.steps_back(alloc, i)?;
        if steps.len() as u64 > MOST_STEPS {
            return Ok(None);
        }
        let mut q = plain_start(alloc, p)?;
        if q.run(alloc, p, steps.as_slice())? && q.is_same(self.at(i)) {
            Ok(Some(steps))
        } else {
            Ok(None)
        }
    }

    /// The steps by which a row was come to, from the start on, as the rows have them.
    fn steps_back(&self, alloc: Global, i: usize) -> Result<Rows<PlainStep>, AllocError> {
        let mut back = Rows::new(alloc);
        let mut at = i;
        for _ in 0..self.rows.len() {
            if at == 0 || at >= self.rows.len() {
                break;
            }
            let row = &self.rows[at];
            add_back(&mut back, row)?;
            at = row.from as usize;
        }
        back.reverse();
        Ok(back)
    }
}
