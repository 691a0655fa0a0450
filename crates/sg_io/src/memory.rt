ghost use Rattle.std.specs.Prelude.{◌≡◌, ◌↔◌, ◌<◌, ◌≤◌, ◌==◌, [], Some, IfOk, IfErr, IsErr, IsTrue, OnErr, OnOk, alloc_error, length, min, take};
ghost use Rattle.sg_io.specs.Bytes.{counted, Gives, Appends, Rose};
ghost use Rattle.std.specs.List.{list_any};
ghost use Rattle.sg_io.specs.Memory.{fails_next, refuses, taken, given, after_write, after_write_fault, after_read, after_read_fault};

use crate::{Failed, Sink, Source};
use sg_num::{Row, Stop};
use std::alloc::Global;
use std::marker::Model;

/// A sink in memory, with a room, and with faults at the calls that it is told.
#[derive(Drop)]
pub struct MemSink {
    held: Vec<u8>,
    room: u32,
    step: u32,
    fails: Row<u32>,
    calls: u64,
    faults: u64,
}

impl Model for MemSink {
    ghost use Rattle.std.specs.Prelude.{◌≤◌, ◌<◌, vec_capacity};
    ghost use Rattle.sg_io.specs.Memory.{SinkState};

    ghost Value = { SinkState };

    ghost view = { λ s. record {
      held = s.held.items;
      room = s.room;
      step = s.step;
      fails = s.fails;
      calls = s.calls;
      faults = s.faults;
    } };

    ghost invariant = { λ s. (s.room ≤ vec_capacity s.held) × (0 < s.step) };
}

impl MemSink {
    /// A sink that holds nothing. It takes at most `step` bytes a call and at most `room` bytes in all, and fails at the
    /// listed calls, counted from 1. It takes its memory first, and fails only when out of memory; no later call takes any.
    pub fn new(alloc: Global, room: u32, step: u32, fails: Row<u32>) -> Result<MemSink, Stop>
        requires { 0 < step }
        ensures empty { IfOk result (λ s. s ≡ record { held = []; room = room; step = step; fails = fails; calls = 0; faults = 0 }) }
        ensures memory { IfErr result (λ e. e ≡ Stop.Memory alloc_error) }
    {
        let held = Vec::with_capacity(alloc, room as usize)?;
        Ok(MemSink {
            held,
            room,
            step,
            fails,
            calls: 0,
            faults: 0,
        })
    }

    /// What it holds.
    pub fn held(&self) -> &[u8]
        ensures { result.now ≡ self.now.held }
    {
        self.held.as_slice()
    }
}

impl Sink for MemSink {
    ghost contents = { λ s. Some s.held };

    ghost fault_count = { λ s. s.faults };

    /// Takes as many first bytes as step and room allow. It fails exactly at the listed calls, and for a nonempty piece
    /// where no room is left.
    fn write(&mut self, piece: &[u8]) -> Result<usize, Failed>
        ensures within { IfOk result (λ n. n ≤ length piece.now) }
        ensures some { IfOk result (λ n. 0 < length piece.now → 0 < n) }
        ensures appends { IfOk result (λ n. Appends (Some self.old.held) (Some self.new.held) (take n piece.now)) }
        ensures cause { OnErr result (Rose self.old.faults self.new.faults) }
        ensures kept { OnErr result (Some self.new.held ≡ Some self.old.held) }
        ensures count { self.old.faults ≤ self.new.faults }
        ensures fails { IsErr result ↔ IsTrue (refuses self.old piece.now) }
        ensures takes { IfOk result (λ n. n ≡ taken self.old piece.now) }
        ensures after { OnOk result (self.new ≡ after_write self.old piece.now) }
        ensures after_fault { OnErr result (self.new ≡ after_write_fault self.old) }
    {
        self.calls = self.calls.saturating_add(1);
        let left = (self.room as usize).saturating_sub(self.held.len());
        let is_full = left == 0 && !piece.is_empty();
        if is_listed(&self.fails, self.calls) || is_full {
            self.faults = self.faults.saturating_add(1);
            return Err(Failed);
        }
        let count = piece.len().min(self.step as usize).min(left);
        match self.held.extend_from_slice(&piece[..count]) {
            Ok(()) => Ok(count),
            Err(_) => Err(Failed),
        }
    }

    fn faults(&self) -> u64 {
        self.faults
    }
}

/// A source in memory, with faults at the calls that it is told.
#[derive(Drop)]
pub struct MemSource {
    bytes: Row<u8>,
    at: usize,
    step: u32,
    fails: Row<u32>,
    calls: u64,
    faults: u64,
}

impl Model for MemSource {
    ghost use Rattle.std.specs.Prelude.{◌≤◌, ◌<◌, drop, length};
    ghost use Rattle.sg_io.specs.Memory.{SourceState};

    ghost Value = { SourceState };

    ghost view = { λ s. record {
      left = drop s.at s.bytes;
      step = s.step;
      fails = s.fails;
      calls = s.calls;
      faults = s.faults;
    } };

    ghost invariant = { λ s. (s.at ≤ length s.bytes) × (0 < s.step) };
}

impl MemSource {
    /// A source that gives `bytes`, at most `step` a call, and fails at the listed calls, counted from 1.
    pub fn new(bytes: Row<u8>, step: u32, fails: Row<u32>) -> MemSource
        requires { 0 < step }
        ensures { result ≡ record { left = bytes; step = step; fails = fails; calls = 0; faults = 0 } }
    {
        MemSource {
            bytes,
            at: 0,
            step,
            fails,
            calls: 0,
            faults: 0,
        }
    }
}

impl Source for MemSource {
    ghost remaining = { λ s. Some s.left };

    ghost fault_count = { λ s. s.faults };

    /// Gives as many next bytes as the step and the buffer allow. It fails exactly at the listed calls.
    fn read(&mut self, buf: &mut [u8]) -> Result<usize, Failed>
        ensures within { IfOk result (λ n. n ≤ length buf.old) }
        ensures gives { IfOk result (λ n. Gives (Some self.old.left) (Some self.new.left) (length buf.old) (take n buf.new)) }
        ensures cause { OnErr result (Rose self.old.faults self.new.faults) }
        ensures kept { OnErr result (Some self.new.left ≡ Some self.old.left) }
        ensures count { self.old.faults ≤ self.new.faults }
        ensures fails { IsErr result ↔ IsTrue (fails_next self.old.fails self.old.calls) }
        ensures amount { IfOk result (λ n. n ≡ given self.old (length buf.old)) }
        ensures after { OnOk result (self.new ≡ after_read self.old (length buf.old)) }
        ensures after_fault { OnErr result (self.new ≡ after_read_fault self.old) }
    {
        self.calls = self.calls.saturating_add(1);
        if is_listed(&self.fails, self.calls) {
            self.faults = self.faults.saturating_add(1);
            return Err(Failed);
        }
        let left = &self.bytes.as_slice()[self.at..];
        let count = copy_front(buf, left, self.step as usize);
        self.at += count;
        Ok(count)
    }

    fn faults(&self) -> u64 {
        self.faults
    }
}

/// Copies first bytes of `left` to the front of `buf`, as many as `most` and the buffer allow, and answers how many.
pub fn copy_front(buf: &mut [u8], left: &[u8], most: usize) -> usize
    ensures amount { result ≡ min (length buf.old) (min most (length left.now)) }
    ensures bytes { take result buf.new ≡ take result left.now }
{
    let count = buf.len().min(most).min(left.len());
    buf[..count].copy_from_slice(&left[..count]);
    count
}

/// Whether this call stands in the list.
fn is_listed(fails: &Row<u32>, call: u64) -> bool
    ensures { result ≡ list_any (λ listed. listed == call) fails.now }
{
    fails
        .as_slice()
        .iter()
        .any(|listed| u64::from(*listed) == call)
}
