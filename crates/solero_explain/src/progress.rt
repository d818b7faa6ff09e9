//! How far a search has come, on standard error where that is a terminal.

use outcome_texts::Watch;
use std::rt::Clock;
use std::time::Instant;

/// Tells on standard error, about once a second, how far a search has come. Where standard error is
/// no terminal, or the clock fails, it tells nothing.
#[derive(Drop)]
pub struct Progress<'a, R: Eprint + Clock> {
    rt: &'a R,
    start: Option<Instant>,
    told: u64,
}

impl<'a, R: Eprint + Clock> Progress<'a, R> {
    pub fn new(rt: &'a R, is_terminal: bool) -> Self {
        let start = if is_terminal {
            Instant::now(rt).ok()
        } else {
            None
        };
        Progress { rt, start, told: 0 }
    }

    fn seconds(&self) -> u64 {
        match self.start {
            Some(start) => match start.elapsed(self.rt) {
                Ok(duration) => duration.as_secs(),
                Err(_) => 0,
            },
            None => 0,
        }
    }
}

impl<'a, R: Eprint + Clock> Watch for Progress<'a, R> {
    fn tell(&mut self, states: usize, left: usize) {
        let seconds = self.seconds();
        if seconds > self.told {
            self.told = seconds;
            let _ = eprint!(self.rt; "\r{states} states, {left} to be tried, {seconds} s ");
        }
    }

    fn end(&mut self) {
        if self.told > 0 {
            let _ = eprint!(self.rt; "\r\x1b[K");
        }
    }
}
