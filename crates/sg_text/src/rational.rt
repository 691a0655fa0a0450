ghost use Rattle.std.specs.Prelude.{◌≡◌, ◌++◌, IfOk, OnOk};
ghost use Rattle.sg_num.specs.Value.{fraction};
ghost use Rattle.sg_text.specs.RationalText.{rational_text};

use itoa::Buffer;
use sg_num::{Rat, Row};
use std::alloc::{AllocError, Global};

/// The text of a fraction: `p` where the denominator is 1 and `p/q` elsewhere, with a leading `-` where p is negative. The
/// error is out of memory.
pub fn print_rat(alloc: Global, r: Rat) -> Result<Row<u8>, AllocError>
    ensures { IfOk result (λ w. w ≡ rational_text (fraction r)) }
{
    let mut text = Row::new(alloc);
    let mut buffer = Buffer::new();
    text.extend_from_slice(buffer.format(r.num()).as_bytes())?;
    if r.den() != 1 {
        text.extend_from_slice(b"/")?;
        text.extend_from_slice(buffer.format(r.den().unsigned_abs()).as_bytes())?;
    }
    Ok(text)
}
