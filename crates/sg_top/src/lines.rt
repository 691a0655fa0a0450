//! The lines of answers. The error of each call is out of memory.
ghost use Rattle.std.specs.Prelude.{◌≡◌, ◌++◌, IfOk, Some, decimal, codes};
ghost use Rattle.sg_spec.specs.Reading.{Refusal};
ghost use Rattle.sg_num.specs.Value.{fraction};
ghost use Rattle.sg_text.specs.RationalText.{rational_text};
ghost use Rattle.sg_text.specs.Reads.{refusal_of};
ghost use Rattle.sg_top.specs.Lines.{closed_line, free_line, equal_line, form_line, yes_line, wide_line, op_word, placed, item_line, refusal_words};

use itoa::Buffer;
use sg_num::{Op, Rat, Wide};
use sg_text::{ReadFault, print_rat};
use std::alloc::{AllocError, Global};

/// `closed <form> from <start>`.
pub fn closed_text(alloc: Global, form: &[u8], start: i64) -> Result<Vec<u8>, AllocError>
    ensures { IfOk result (λ t. t.items ≡ closed_line form.now start) }
{
    let mut buffer = Buffer::new();
    let mut text = Vec::from_slice(alloc, b"closed ")?;
    text.extend_from_slice(form)?;
    text.extend_from_slice(b" from ")?;
    text.extend_from_slice(buffer.format(start).as_bytes())?;
    text.extend_from_slice(b"\n")?;
    Ok(text)
}

/// `free <sum>`.
pub fn free_text(alloc: Global, sum: &[u8]) -> Result<Vec<u8>, AllocError>
    ensures { IfOk result (λ t. t.items ≡ free_line sum.now) }
{
    let mut text = Vec::from_slice(alloc, b"free ")?;
    text.extend_from_slice(sum)?;
    text.extend_from_slice(b"\n")?;
    Ok(text)
}

/// `<sum> = <form> from <start>`.
pub fn equal_text(alloc: Global, sum: &[u8], form: &[u8], start: i64) -> Result<Vec<u8>, AllocError>
    ensures { IfOk result (λ t. t.items ≡ equal_line sum.now form.now start) }
{
    let mut buffer = Buffer::new();
    let mut text = Vec::from_slice(alloc, sum)?;
    text.extend_from_slice(b" = ")?;
    text.extend_from_slice(form)?;
    text.extend_from_slice(b" from ")?;
    text.extend_from_slice(buffer.format(start).as_bytes())?;
    text.extend_from_slice(b"\n")?;
    Ok(text)
}

/// `<form> from <start>`.
pub fn form_text(alloc: Global, form: &[u8], start: i64) -> Result<Vec<u8>, AllocError>
    ensures { IfOk result (λ t. t.items ≡ form_line form.now start) }
{
    let mut buffer = Buffer::new();
    let mut text = Vec::from_slice(alloc, form)?;
    text.extend_from_slice(b" from ")?;
    text.extend_from_slice(buffer.format(start).as_bytes())?;
    text.extend_from_slice(b"\n")?;
    Ok(text)
}

/// `yes from <start>`.
pub fn yes_text(alloc: Global, start: i64) -> Result<Vec<u8>, AllocError>
    ensures { IfOk result (λ t. t.items ≡ yes_line start) }
{
    let mut buffer = Buffer::new();
    let mut text = Vec::from_slice(alloc, b"yes from ")?;
    text.extend_from_slice(buffer.format(start).as_bytes())?;
    text.extend_from_slice(b"\n")?;
    Ok(text)
}

/// A fraction, and a line feed.
pub fn rational_line(alloc: Global, r: Rat) -> Result<Vec<u8>, AllocError>
    ensures { IfOk result (λ t. t.items ≡ rational_text (fraction r) ++ codes "\n") }
{
    let number = print_rat(alloc, r)?;
    let mut text = Vec::from_slice(alloc, number.as_slice())?;
    text.extend_from_slice(b"\n")?;
    Ok(text)
}

/// `wide <op> <left> <right>`.
pub fn wide_text(alloc: Global, w: Wide) -> Result<Vec<u8>, AllocError>
    ensures { IfOk result (λ t. t.items ≡ wide_line w) }
{
    let left = print_rat(alloc, w.left)?;
    let right = print_rat(alloc, w.right)?;
    let mut text = Vec::from_slice(alloc, b"wide ")?;
    text.extend_from_slice(word_of(w.op))?;
    text.extend_from_slice(b" ")?;
    text.extend_from_slice(left.as_slice())?;
    text.extend_from_slice(b" ")?;
    text.extend_from_slice(right.as_slice())?;
    text.extend_from_slice(b"\n")?;
    Ok(text)
}

fn word_of(op: Op) -> &'static [u8]
    ensures { result.now ≡ op_word op }
{
    match op {
        Op::Add => b"add",
        Op::Sub => b"sub",
        Op::Mul => b"mul",
        Op::Div => b"div",
    }
}

/// `refused <what> item <i>`, of the i-th text, counted from 1.
pub fn item_text(alloc: Global, what: &[u8], item: usize) -> Result<Vec<u8>, AllocError>
    ensures { IfOk result (λ t. t.items ≡ item_line what.now item) }
{
    let mut buffer = Buffer::new();
    let mut text = Vec::from_slice(alloc, b"refused ")?;
    text.extend_from_slice(what)?;
    text.extend_from_slice(b" item ")?;
    text.extend_from_slice(buffer.format(item).as_bytes())?;
    text.extend_from_slice(b"\n")?;
    Ok(text)
}

/// Why a text isn't read.
pub fn refusal_text(alloc: Global, fault: ReadFault) -> Result<Vec<u8>, AllocError>
    ensures { IfOk result (λ t. (r : Refusal) × (refusal_of fault ≡ Some r) × (t.items ≡ refusal_words r)) }
{
    match fault {
        ReadFault::Long => {
            let text = Vec::from_slice(alloc, b"long")?;
            Ok(text)
        }
        ReadFault::Deep { at } => {
            let text = placed_text(alloc, b"deep", at)?;
            Ok(text)
        }
        ReadFault::Syntax { at } => {
            let text = placed_text(alloc, b"syntax", at)?;
            Ok(text)
        }
        ReadFault::Numeral { at } => {
            let text = placed_text(alloc, b"numeral", at)?;
            Ok(text)
        }
        ReadFault::Exponent { at } => {
            let text = placed_text(alloc, b"exponent", at)?;
            Ok(text)
        }
        ReadFault::Unbound { at } => {
            let text = placed_text(alloc, b"unbound", at)?;
            Ok(text)
        }
        ReadFault::Form { at } => {
            let text = placed_text(alloc, b"form", at)?;
            Ok(text)
        }
        ReadFault::Memory(want) => Err(want),
    }
}

fn placed_text(alloc: Global, kind: &[u8], at: u32) -> Result<Vec<u8>, AllocError>
    ensures { IfOk result (λ t. t.items ≡ placed kind.now at) }
{
    let mut buffer = Buffer::new();
    let mut text = Vec::from_slice(alloc, kind)?;
    text.extend_from_slice(b" at ")?;
    text.extend_from_slice(buffer.format(at).as_bytes())?;
    Ok(text)
}
