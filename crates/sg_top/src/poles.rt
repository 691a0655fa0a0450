ghost use Rattle.std.specs.Prelude.{◌≡◌, ◌++◌, ℤ, List, IfOk, codes, false};
ghost use Rattle.std.specs.Fmt.{signed_decimal};
ghost use Rattle.sg_algebra.specs.Coefficients.{Each};
ghost use Rattle.sg_expr.specs.Tree.{tree_of};
ghost use Rattle.sg_spec.specs.Printing.{InForm};
ghost use Rattle.sg_spec.specs.Tree.{Tree};
ghost use Rattle.sg_text.specs.Reads.{IsFree};
ghost use Rattle.sg_top.specs.Lines.{letters_at, scope_text, item_line};
ghost use Rattle.sg_top.specs.Taking.{IsPoleCause, IsPoleReply};

use crate::lines::item_text;
use crate::reply::Reply;
use itoa::Buffer;
use sg_expr::Expr;
use sg_limits::LimitFault;
use sg_text::print;
use std::alloc::{AllocError, Global};

/// The answer where a part of an expression is 0 or may be so too far out, or where a step on the way to this doesn't fit: what
/// the search for poles answers once the counted limits are kept. The error is out of memory.
pub fn pole_reply(alloc: Global, fault: LimitFault) -> Result<Reply, AllocError>
    requires { (a : ℤ) × (es : List Tree) × Each (InForm false false) es × IsPoleCause fault a es }
    ensures { IfOk result (λ r. (a : ℤ) → (es : List Tree) → IsPoleCause fault a es → IsPoleReply a es r.status r.text.items) }
{
    match fault {
        LimitFault::FarPole { item, part, depth } => {
            let text = far_text(alloc, &part, depth, item)?;
            Ok(Reply::refused(text))
        }
        LimitFault::Pole {
            item,
            at,
            part,
            depth,
        } => {
            let text = zero_text(alloc, b"pole at ", at, &part, depth, item)?;
            Ok(Reply::refused(text))
        }
        LimitFault::ZeroFactor {
            item,
            at,
            part,
            depth,
        } => {
            let text = zero_text(alloc, b"zero factor at ", at, &part, depth, item)?;
            Ok(Reply::refused(text))
        }
        LimitFault::Stop(stop) => {
            let reply = Reply::stopped(alloc, stop)?;
            Ok(reply)
        }
        LimitFault::Nodes { .. }
        | LimitFault::Degree { .. }
        | LimitFault::Sums
        | LimitFault::Products => unreachable!(),
    }
}

// The line of a far pole.
fn far_text(alloc: Global, part: &Expr, depth: u32, item: u32) -> Result<Vec<u8>, AllocError>
    requires { InForm false false (tree_of part.now) }
    ensures { IfOk result (λ t. t.items ≡ item_line (codes "far pole of " ++ scope_text (codes "k") depth (tree_of part.now)) item) }
{
    let text = print(alloc, part, letters_at(depth))?;
    let mut what = Vec::from_slice(alloc, b"far pole of ")?;
    what.extend_from_slice(text.as_slice())?;
    item_text(alloc, what.as_slice(), item as usize)
}

// The line of a part that is 0 at a number, of this kind.
fn zero_text(
    alloc: Global,
    kind: &[u8],
    at: i64,
    part: &Expr,
    depth: u32,
    item: u32,
) -> Result<Vec<u8>, AllocError>
    requires { InForm false false (tree_of part.now) }
    ensures { IfOk result (λ t. t.items ≡ item_line (kind.now ++ signed_decimal at ++ codes " of " ++ scope_text (codes "k") depth (tree_of part.now)) item) }
{
    let mut buffer = Buffer::new();
    let text = print(alloc, part, letters_at(depth))?;
    let mut what = Vec::from_slice(alloc, kind)?;
    what.extend_from_slice(buffer.format(at).as_bytes())?;
    what.extend_from_slice(b" of ")?;
    what.extend_from_slice(text.as_slice())?;
    item_text(alloc, what.as_slice(), item as usize)
}

// The letter of the variable at a depth.
fn letters_at(depth: u32) -> &'static [u8]
    ensures letters { result.now ≡ letters_at depth (codes "k") }
    ensures free { IsFree result.now }
{
    if depth == 0 {
        b"k"
    } else if depth % 2 == 1 {
        b"j"
    } else {
        b"i"
    }
}
