ghost use Rattle.std.specs.Prelude.{◌≡◌, ℕ, ◌≤◌, ◌<◌, List, Option, length, take, IfOk, OnErr};
ghost use Rattle.sg_io.specs.Bytes.{Gives, Appends, Rose};

/// The outside didn't do what it was asked to do.
#[derive(Clone, Copy, Debug, PartialEq, Eq)]
pub struct Failed;

/// Where bytes come from.
pub trait Source {
    /// The bytes that are left, where the source tells them.
    ghost remaining: { Self → Option (List ℕ) };

    /// How often it has failed.
    ghost fault_count: { Self → ℕ };

    /// Reads the next bytes into the front of `buf` and answers how many. Into a buffer with room it answers 0 at the
    /// end alone. After `Failed` the bytes that are left are as before, and what `buf` holds is open.
    fn read(&mut self, buf: &mut [u8]) -> Result<usize, Failed>
        ensures within { IfOk result (λ n. n ≤ length buf.old) }
        ensures gives { IfOk result (λ n. Gives (remaining self.old) (remaining self.new) (length buf.old) (take n buf.new)) }
        ensures cause { OnErr result (Rose (fault_count self.old) (fault_count self.new)) }
        ensures kept { OnErr result (remaining self.new ≡ remaining self.old) }
        ensures count { fault_count self.old ≤ fault_count self.new };

    /// How often it has failed.
    fn faults(&self) -> u64
        ensures { result ≡ fault_count self.now };
}

/// Where bytes go to.
pub trait Sink {
    /// The bytes that it holds, where the sink tells them.
    ghost contents: { Self → Option (List ℕ) };

    /// How often it has failed.
    ghost fault_count: { Self → ℕ };

    /// Takes some first bytes of `piece`, at least one where there is one, and answers how many. After `Failed` it holds
    /// what it held.
    fn write(&mut self, piece: &[u8]) -> Result<usize, Failed>
        ensures within { IfOk result (λ n. n ≤ length piece.now) }
        ensures some { IfOk result (λ n. 0 < length piece.now → 0 < n) }
        ensures appends { IfOk result (λ n. Appends (contents self.old) (contents self.new) (take n piece.now)) }
        ensures cause { OnErr result (Rose (fault_count self.old) (fault_count self.new)) }
        ensures kept { OnErr result (contents self.new ≡ contents self.old) }
        ensures count { fault_count self.old ≤ fault_count self.new };

    /// How often it has failed.
    fn faults(&self) -> u64
        ensures { result ≡ fault_count self.now };
}
