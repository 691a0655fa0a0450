ghost use Rattle.std.specs.Prelude.{◌≡◌, ◌≤◌, IfOk, IfErr, IfSome, IfNone};
ghost use Rattle.sg_lines.specs.Counting.{after_byte, fits_so_far, IsSmall, IsAfter, IsLong};
ghost use Rattle.sg_lines.specs.Whole.{IsWhole, IsUnread};

use sg_io::Source;
use std::alloc::{AllocError, Global};

/// Why a source wasn't read to its end.
#[derive(Clone, Copy, Debug, PartialEq, Eq)]
pub enum Unread {
    /// It has more than 1,000 lines, or a line of more than 4,096 bytes.
    Large,
    /// It failed.
    Fault,
    /// Out of memory.
    Memory(AllocError),
}

impl From<AllocError> for Unread {
    ghost use Rattle.sg_lines.specs.declared.whole.Unread.TheVariants.{Memory as IsMemory};

    ghost from_gives = { λ want why. why ≡ IsMemory want };

    fn from(want: AllocError) -> Unread {
        Unread::Memory(want)
    }
}

/// The most lines of a batch.
const MOST_LINES: usize = 1000;

/// The most bytes of a line, without its line feed.
const MOST_BYTES: usize = 4096;

/// The most bytes that are read at once.
const PIECE: usize = 4096;

/// All bytes of a source whose lines fit a batch. Else nothing is read past the buffer with the first byte that is too much.
pub fn read_whole<S: Source>(alloc: Global, source: &mut S) -> Result<Vec<u8>, Unread>
    ensures whole { IfOk result (λ bytes. IsWhole (S.remaining source.old) (S.remaining source.new) bytes.items) }
    ensures unread { IfErr result (λ why. IsUnread why (S.remaining source.old) (S.remaining source.new) (S.fault_count source.old) (S.fault_count source.new)) }
    ensures count { S.fault_count source.old ≤ S.fault_count source.new }
{
    let mut bytes = Vec::new(alloc);
    let mut count = Count { lines: 0, bytes: 0 };
    let mut piece = [0; PIECE];
    loop {
        match source.read(&mut piece) {
            Err(_) => return Err(Unread::Fault),
            Ok(0) => return Ok(bytes),
            Ok(n) => {
                match count.and(&piece[..n]) {
                    None => return Err(Unread::Large),
                    Some(more) => count = more,
                }
                bytes.extend_from_slice(&piece[..n])?;
            }
        }
    }
}

// How many lines have begun, and how many bytes the open one has so far; 0 where none is open.
#[derive(Clone, Copy)]
struct Count {
    lines: usize,
    bytes: usize,
}

impl Count {
    // The count after a text; None where the lines no longer fit a batch.
    fn and(self, text: &[u8]) -> Option<Count>
        requires { IsSmall self }
        ensures some { IfSome result (λ c. IsAfter self text.now c) }
        ensures none { IfNone result (IsLong self text.now) }
    {
        let mut count = self;
        for b in text {
            count = count.and_byte(*b);
            if !count.fits() {
                return None;
            }
        }
        Some(count)
    }

    // The count after one more byte.
    fn and_byte(self, b: u8) -> Count
        requires { IsSmall self }
        ensures { result ≡ after_byte b self }
    {
        let lines = if self.bytes == 0 {
            self.lines + 1
        } else {
            self.lines
        };
        let bytes = if b == b'\n' { 0 } else { self.bytes + 1 };
        Count { lines, bytes }
    }

    // Whether what was counted fits a batch.
    fn fits(self) -> bool
        ensures { result ≡ fits_so_far self }
    {
        self.lines <= MOST_LINES && self.bytes <= MOST_BYTES
    }
}
