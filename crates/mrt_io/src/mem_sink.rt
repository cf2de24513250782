use crate::call::is_failing;
use crate::device::{PutFailed, Sink};
use mrt_graph::NoMemory;
use std::alloc::Global;
use std::marker::Model;

/// A sink in memory with room for a stated number of bytes, which takes a stated number at a time at most, and fails the calls
/// whose numbers it is told. It tells its bytes.
pub struct MemSink {
    bytes: Vec<u8>,
    room: u32,
    step: u32,
    fails: Vec<u32>,
    calls: u64,
    faults: u64,
}

impl Drop for MemSink {
    fn drop(self) {
        let Self {
            bytes: _,
            room: _,
            step: _,
            fails: _,
            calls: _,
            faults: _,
        } = self;
    }
}

impl Model for MemSink {
    ghost use Rattle.std.specs.Prelude.{◌≤◌, ◌+◌, vec_len, vec_capacity};
    ghost use Rattle.mrt_io.specs.Memory.{SinkInMemory};

    ghost Value = { SinkInMemory };

    ghost view = { λ sink. record {
      bytes = sink.bytes.items;
      room = sink.room;
      step = sink.step;
      fails = sink.fails.items;
      calls = sink.calls;
      faults = sink.faults;
    } };

    ghost invariant = { λ sink. (1 ≤ sink.step) × (vec_len sink.bytes + sink.room ≤ vec_capacity sink.bytes) };
}

impl MemSink {
    ghost use Rattle.std.specs.Prelude.{◌≡◌, ◌≤◌, ℕ, [], IfOk, false};
    ghost use Rattle.mrt_io.specs.Memory.{is_refused, IsHealthyFor};

    /// An empty sink with room for `room` bytes, reserved here, which takes at most `step` bytes a call and fails the calls
    /// whose numbers, from 0, are in `fails`.
    pub fn new(alloc: Global, room: u32, step: u32, fails: Vec<u32>) -> Result<MemSink, NoMemory>
        requires { 1 ≤ step }
        ensures { IfOk result (λ sink. sink ≡ record {
          bytes = [];
          room = room;
          step = step;
          fails = fails.items;
          calls = 0;
          faults = 0;
        }) }
    {
        Ok(MemSink {
            bytes: Vec::with_capacity(alloc, room as usize)?,
            room,
            step,
            fails,
            calls: 0,
            faults: 0,
        })
    }

    /// The bytes that were put.
    pub fn bytes(&self) -> &[u8]
        ensures { result.now ≡ self.now.bytes }
    {
        self.bytes.as_slice()
    }

    /// Whether the next call, on this piece, fails.
    fn refuses(&self, piece: &[u8]) -> bool
        ensures value { result ≡ is_refused self.now piece.now }
        ensures never { (n : ℕ) → IsHealthyFor self.now n → 1 ≤ n → result ≡ false }
    {
        if self.room == 0 && !piece.is_empty() {
            return true;
        }
        is_failing(self.fails.as_slice(), self.calls)
    }
}

impl Sink for MemSink {
    ghost use Rattle.std.specs.Prelude.{◌≡◌, ◌<◌, ◌≤◌, ◌-◌, ℕ, Some, IfOk, length};
    ghost use Rattle.std.specs.Result.{result_ok};
    ghost use Rattle.mrt_io.specs.Memory.{IsHealthyFor, taken_of, sink_after};

    ghost written = { λ sink. Some sink.bytes };

    ghost faults = { λ sink. sink.faults };

    ghost healthy_for = { IsHealthyFor };

    ghost healthy_below = { λ _ _ healthy. healthy.2 };

    /// It looks at `fails`, and copies the bytes that it takes once.
    fn put(&mut self, piece: &[u8]) -> Result<u32, PutFailed>
        ensures taken { result_ok result ≡ taken_of self.old piece.now }
        ensures after { self.new ≡ sink_after self.old piece.now (taken_of self.old piece.now) }
        ensures count { self.old.faults ≤ self.new.faults }
        ensures some { IfOk result (λ taken. 0 < length piece.now → 1 ≤ taken) }
        ensures no_fault { (n : ℕ) → IsHealthyFor self.old n → 1 ≤ n → 0 < length piece.now
            → self.new.faults ≡ self.old.faults }
        ensures stays_healthy { (n : ℕ) → IsHealthyFor self.old n → 1 ≤ n → 0 < length piece.now
            → IfOk result (λ taken. IsHealthyFor self.new (n - taken)) }
    {
        let refused = self.refuses(piece);
        self.calls = self.calls.saturating_add(1);
        if refused {
            self.faults = self.faults.saturating_add(1);
            return Err(PutFailed);
        }
        let count = piece.len().min(self.step as usize).min(self.room as usize);
        self.bytes.extend_from_slice(&piece[..count]).unwrap();
        self.room -= count as u32;
        Ok(count as u32)
    }
}
