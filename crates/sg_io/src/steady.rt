ghost use Rattle.std.specs.Prelude.{◌≡◌, ◌<◌, ◌≤◌, Some, None, IfOk, IsOk, OnErr, OnOk, length, take, drop, min};
ghost use Rattle.sg_io.specs.Bytes.{Gives, Appends, Rose};

use crate::memory::copy_front;
use crate::{Failed, Sink, Source};
use sg_num::Row;
use std::marker::Model;

/// A source in memory that never fails.
#[derive(Drop)]
pub struct SteadySource {
    bytes: Row<u8>,
    at: usize,
}

impl Model for SteadySource {
    ghost use Rattle.std.specs.Prelude.{ℕ, List, ◌≤◌, drop, length};

    ghost Value = { List ℕ };

    ghost view = { λ s. drop s.at s.bytes };

    ghost invariant = { λ s. s.at ≤ length s.bytes };
}

impl SteadySource {
    /// A source that gives `bytes`.
    pub fn new(bytes: Row<u8>) -> SteadySource
        ensures { result ≡ bytes }
    {
        SteadySource { bytes, at: 0 }
    }
}

impl Source for SteadySource {
    ghost remaining = { λ left. Some left };

    ghost fault_count = { λ left. 0 };

    /// Fills the buffer with the next bytes, as far as there are any. It never fails.
    fn read(&mut self, buf: &mut [u8]) -> Result<usize, Failed>
        ensures within { IfOk result (λ n. n ≤ length buf.old) }
        ensures gives { IfOk result (λ n. Gives (Some self.old) (Some self.new) (length buf.old) (take n buf.new)) }
        ensures steady { IsOk result }
        ensures amount { IfOk result (λ n. n ≡ min (length buf.old) (length self.old)) }
        ensures after { self.new ≡ drop (length buf.old) self.old }
    {
        let left = &self.bytes.as_slice()[self.at..];
        let count = copy_front(buf, left, left.len());
        self.at += count;
        Ok(count)
    }

    fn faults(&self) -> u64 {
        0
    }
}

/// A sink that never fails. It keeps no bytes, and tells none.
#[derive(Clone, Copy, Debug)]
pub struct SteadySink;

impl SteadySink {
    /// Such a sink.
    pub fn new() -> SteadySink {
        SteadySink
    }
}

impl Sink for SteadySink {
    ghost contents = { λ s. None };

    ghost fault_count = { λ s. 0 };

    /// Takes all of the piece. It never fails.
    fn write(&mut self, piece: &[u8]) -> Result<usize, Failed>
        ensures within { IfOk result (λ n. n ≤ length piece.now) }
        ensures some { IfOk result (λ n. 0 < length piece.now → 0 < n) }
        ensures steady { IsOk result }
        ensures all { IfOk result (λ n. n ≡ length piece.now) }
    {
        Ok(piece.len())
    }

    fn faults(&self) -> u64 {
        0
    }
}
