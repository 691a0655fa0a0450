ghost use Rattle.std.specs.Prelude.{◌≡◌, ◌<◌, ◌≤◌, None, IfOk, OnErr, length, take};
ghost use Rattle.std.specs.Io.KnownBytes.{Consumes, IsAtEnd, Appends};
ghost use Rattle.sg_io.specs.Bytes.{Rose};

use crate::{Failed, Sink, Source};
use std::io::{Read, Write};

/// Standard input, or another reader. It tells no bytes.
#[derive(Drop)]
pub struct StdSource<R> {
    input: R,
    faults: u64,
}

impl<R: Read + Drop> StdSource<R> {
    /// A source that reads `input`.
    pub fn new(input: R) -> StdSource<R>
        ensures input { result.input ≡ input }
        ensures faults { result.faults ≡ 0 }
    {
        StdSource { input, faults: 0 }
    }
}

impl<R: Read + Drop> Source for StdSource<R> {
    ghost remaining = { λ s. None };

    ghost fault_count = { λ s. s.faults };

    /// One read of the reader: its bytes, none only at its end or into a buffer without room.
    fn read(&mut self, buf: &mut [u8]) -> Result<usize, Failed>
        ensures within { IfOk result (λ n. n ≤ length buf.old) }
        ensures cause { OnErr result (Rose self.old.faults self.new.faults) }
        ensures count { self.old.faults ≤ self.new.faults }
        ensures passes { IfOk result (λ n. Consumes (R.remaining self.old.input) (R.remaining self.new.input) (take n buf.new)) }
        ensures end { IfOk result (λ n. n ≡ 0 → 0 < length buf.old → IsAtEnd (R.remaining self.new.input)) }
    {
        match self.input.read(buf) {
            Ok(n) => Ok(n),
            Err(_) => {
                self.faults = self.faults.saturating_add(1);
                Err(Failed)
            }
        }
    }

    fn faults(&self) -> u64 {
        self.faults
    }
}

/// Standard output, or another writer. It tells no bytes.
#[derive(Drop)]
pub struct StdSink<W> {
    output: W,
    faults: u64,
}

impl<W: Write + Drop> StdSink<W> {
    /// A sink that writes to `output`.
    pub fn new(output: W) -> StdSink<W>
        ensures output { result.output ≡ output }
        ensures faults { result.faults ≡ 0 }
    {
        StdSink { output, faults: 0 }
    }

    fn fail(&mut self) -> Failed
        ensures output { self.new.output ≡ self.old.output }
        ensures rose { Rose self.old.faults self.new.faults }
        ensures count { self.old.faults ≤ self.new.faults }
    {
        self.faults = self.faults.saturating_add(1);
        Failed
    }
}

impl<W: Write + Drop> Sink for StdSink<W> {
    ghost contents = { λ s. None };

    ghost fault_count = { λ s. s.faults };

    /// One write to the writer, and a flush, so that no byte waits in a buffer when the program ends. A writer that takes
    /// nothing of a nonempty piece has failed.
    fn write(&mut self, piece: &[u8]) -> Result<usize, Failed>
        ensures within { IfOk result (λ n. n ≤ length piece.now) }
        ensures some { IfOk result (λ n. 0 < length piece.now → 0 < n) }
        ensures cause { OnErr result (Rose self.old.faults self.new.faults) }
        ensures count { self.old.faults ≤ self.new.faults }
        ensures passes { IfOk result (λ n. Appends (W.contents self.old.output) (W.contents self.new.output) (take n piece.now)) }
    {
        let count = match self.output.write(piece) {
            Ok(count) => count,
            Err(_) => return Err(self.fail()),
        };
        if count == 0 && !piece.is_empty() {
            return Err(self.fail());
        }
        match self.output.flush() {
            Ok(()) => Ok(count),
            Err(_) => Err(self.fail()),
        }
    }

    fn faults(&self) -> u64 {
        self.faults
    }
}
