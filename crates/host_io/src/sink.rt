ghost use Rattle.std.specs.Prelude.{◌≡◌, ◌<◌, ◌++◌, ℕ, List, [], Option, Some, None, length, take};
ghost use Rattle.std.specs.Prelude.{OnErr, IfOk};
ghost use Rattle.host_io.specs.Faults.{risen};
ghost use Rattle.host_io.specs.Sink.{IsTaken};
ghost use Rattle.host_io.specs.ListSink.{accepted};

use jvm_types::Bytes;
use std::alloc::Global;
use std::marker::Model;

/// The sink failed, and accepted nothing.
#[derive(Clone, Copy, Debug, PartialEq, Eq)]
pub struct SinkFailed;

/// Where text is written to.
pub trait Sink {
    /// The bytes accepted so far; `None` where the sink does not tell them.
    ghost text: { Self → Option (List ℕ) };

    /// How often the sink has failed.
    ghost faults: { Self → ℕ };

    /// Accepts at least one byte from the front of the piece, and answers how many.
    fn write_some(&mut self, piece: &[u8]) -> Result<usize, SinkFailed>
        requires { 0 < length piece.now }
        ensures { IsTaken (text self.old) (text self.new)
            (faults self.old) (faults self.new) piece.now result };
}

/// A sink in memory. It accepts the bytes before a stated one and none from there on, and of one
/// call only so many. A growth that memory refuses is a fault.
#[derive(Debug, Drop)]
pub struct ListSink {
    text: Bytes,
    fails_from: Option<u64>,
    most: usize,
    faults: u64,
}

impl Model for ListSink {
    ghost use Rattle.std.specs.Prelude.{◌<◌};
    ghost use Rattle.host_io.specs.ListSink.{Accepting};

    ghost Value = { Accepting };

    ghost view = { λ s. record {
      text = s.text;
      fails_from = s.fails_from;
      most = s.most;
      faults = s.faults;
    } };

    ghost invariant = { λ s. 0 < s.most };
}

impl ListSink {
    /// `fails_from` counts the bytes from 0; where it is `None` all are accepted.
    pub fn new(alloc: Global, fails_from: Option<u64>, most: usize) -> Self
        requires { 0 < most }
        ensures { result ≡ record { text = []; fails_from = fails_from; most = most; faults = 0 } }
    {
        ListSink {
            text: Bytes::new(alloc),
            fails_from,
            most,
            faults: 0,
        }
    }

    /// The bytes accepted so far.
    pub fn text(&self) -> &Bytes
        ensures { result.now ≡ self.now.text }
    {
        &self.text
    }

    // How many bytes of a piece of that length the next call accepts.
    fn accepted(&self, length: usize) -> usize
        ensures { result ≡ accepted self.now length }
    {
        let most = self.most.min(length);
        match self.fails_from {
            None => most,
            Some(end) => {
                let left = end.saturating_sub(self.text.len() as u64);
                left.min(most as u64) as usize
            }
        }
    }

    // Counts a fault.
    fn fail(&mut self) -> SinkFailed
        ensures { self.new ≡ record self.old { faults = risen self.old.faults } }
    {
        self.faults = self.faults.saturating_add(1);
        SinkFailed
    }
}

impl Sink for ListSink {
    ghost text = { λ s. Some s.text };

    ghost faults = { λ s. s.faults };

    fn write_some(&mut self, piece: &[u8]) -> Result<usize, SinkFailed>
        requires { 0 < length piece.now }
        ensures answer { IsTaken (Some self.old.text) (Some self.new.text)
            self.old.faults self.new.faults piece.now result }
        // How many bytes are accepted, and what else stays.
        ensures count { IfOk result (λ n. n ≡ accepted self.old (length piece.now)) }
        ensures ok { IfOk result (λ n.
            self.new ≡ record self.old { text = self.old.text ++ take n piece.now }) }
        ensures err { OnErr result (self.new ≡ record self.old { faults = risen self.old.faults }) }
    {
        let count = self.accepted(piece.len());
        if count == 0 || self.text.extend_from_slice(&piece[..count]).is_err() {
            return Err(self.fail());
        }
        Ok(count)
    }
}

/// A sink that accepts all that it is given, and keeps none of it.
#[derive(Debug, Drop)]
pub struct CalmSink {}

impl CalmSink {
    pub fn new() -> Self {
        CalmSink {}
    }
}

impl Sink for CalmSink {
    ghost text = { λ _. None };

    ghost faults = { λ _. 0 };

    fn write_some(&mut self, piece: &[u8]) -> Result<usize, SinkFailed>
        requires { 0 < length piece.now }
        ensures { result ≡ Ok (length piece.now) }
    {
        Ok(piece.len())
    }
}
