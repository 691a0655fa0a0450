ghost use Rattle.std.specs.Prelude.{◌≡◌, ◌≤◌, ◌↔◌, ◌∷◌, List, IfOk, IsTrue, MatchResult, Some, None, length, map};
ghost use Rattle.sg_spec.specs.Tree.{Tree};
ghost use Rattle.sg_spec.specs.Limits.{CountFault, counted};
ghost use Rattle.sg_spec.specs.Reading.{Refusal};
ghost use Rattle.sg_expr.specs.Tree.{tree_of};
ghost use Rattle.sg_limits.specs.Counts.{IsFault};
ghost use Rattle.sg_text.specs.Reads.{IsFree};
ghost use Rattle.sg_words.specs.declared.asked.Command.{Command};
ghost use Rattle.sg_top.specs.Taking.{IsReadAs, IsOutcome};
ghost use Rattle.sg_top.specs.Lines.{count_line, item_line, refusal_words};
ghost use Rattle.sg_top.specs.Refusals.{IsRefusedAt};
ghost use Rattle.sg_top.specs.Stages.{letters_of, IsSum, MayStand, IsReadAt};

use crate::lines::{item_text, refusal_text};
use sg_expr::Expr;
use sg_limits::{LimitFault, inspect};
use sg_num::{Row, Stop};
use sg_text::{Bounds, ReadFault, read};
use sg_words::Command;
use std::alloc::{AllocError, Global};

/// What comes of the texts of a command: their expressions, or the line of a refusal.
#[derive(Drop)]
pub enum Taken {
    Items(Row<Expr>),
    Line(Vec<u8>),
}

/// Reads the texts of a command, the first one and the further ones, and tests the counted limits. The error is out of memory.
pub fn take(
    alloc: Global,
    command: Command,
    first: &Row<u8>,
    others: &[Row<u8>],
) -> Result<Taken, AllocError>
    requires { length others.now ≤ 15 }
    ensures { IfOk result (λ t. IsOutcome command (first.now ∷ others.now) t) }
{
    match read_all(alloc, command, first, others)? {
        Taken::Line(line) => Ok(Taken::Line(line)),
        Taken::Items(items) => match inspect(alloc, &items, None) {
            Ok(_) => Ok(Taken::Items(items)),
            Err(fault) => {
                let line = count_text(alloc, fault)?;
                Ok(Taken::Line(line))
            }
        },
    }
}

/// Which count passes its limit. The error is out of memory.
pub fn count_text(alloc: Global, fault: LimitFault) -> Result<Vec<u8>, AllocError>
    requires { (es : List Tree) × IsFault fault None es }
    ensures { IfOk result (λ t. (es : List Tree) → IsFault fault None es → (f : CountFault) × (counted es ≡ Some f) × (t.items ≡ count_line f)) }
{
    match fault {
        LimitFault::Nodes { item } => item_text(alloc, b"nodes", item as usize),
        LimitFault::Degree { item } => item_text(alloc, b"degree", item as usize),
        LimitFault::Sums => Vec::from_slice(alloc, b"refused sums\n"),
        LimitFault::Products => Vec::from_slice(alloc, b"refused products\n"),
        LimitFault::Stop(Stop::Memory(want)) => Err(want),
        LimitFault::Stop(Stop::Wide(_))
        | LimitFault::FarPole { .. }
        | LimitFault::Pole { .. }
        | LimitFault::ZeroFactor { .. } => unreachable!(),
    }
}

// The expressions of the texts, up to the first that is refused.
fn read_all(
    alloc: Global,
    command: Command,
    first: &Row<u8>,
    others: &[Row<u8>],
) -> Result<Taken, AllocError>
    ensures { IfOk result (λ t. IsReadAs command (first.now ∷ others.now) t) }
{
    let mut items = Row::new(alloc);
    match read_text(alloc, command, 1, first.as_slice())? {
        Ok(e) => items.push(e)?,
        Err(line) => return Ok(Taken::Line(line)),
    }
    for text in others {
        match read_text(alloc, command, items.len() + 1, text.as_slice())? {
            Ok(e) => items.push(e)?,
            Err(line) => return Ok(Taken::Line(line)),
        }
    }
    Ok(Taken::Items(items))
}

// The expression of the text at a place, counted from 1; or the line of its refusal.
fn read_text(
    alloc: Global,
    command: Command,
    item: usize,
    text: &[u8],
) -> Result<Result<Expr, Vec<u8>>, AllocError>
    ensures { IfOk result (λ t. MatchResult t (λ e. IsReadAt command item text.now (tree_of e))
        (λ line. (r : Refusal) × IsRefusedAt command item text.now r × (line.items ≡ item_line (refusal_words r) item))) }
{
    match read(alloc, text, letters(command), &Bounds::input()) {
        Ok(e) => {
            if may_stand(command, item, &e) {
                return Ok(Ok(e));
            }
            let why = refusal_text(alloc, ReadFault::Form { at: 0 })?;
            let line = item_text(alloc, why.as_slice(), item)?;
            Ok(Err(line))
        }
        Err(fault) => {
            let why = refusal_text(alloc, fault)?;
            let line = item_text(alloc, why.as_slice(), item)?;
            Ok(Err(line))
        }
    }
}

// Whether the expression may stand at this place among the texts; a line a command.
fn may_stand(command: Command, item: usize, e: &Expr) -> bool
    ensures { IsTrue result ↔ MayStand command item (tree_of e.now) }
{
    match command {
        Command::Sum { .. } => item == 1 || is_sum(e),
        Command::Tower | Command::Simplify { .. } | Command::Check { .. } => true,
        Command::Value { .. } | Command::ValueAtParameter { .. } => true,
    }
}

// Whether the expression is a sum as a whole.
fn is_sum(e: &Expr) -> bool
    ensures { IsTrue result ↔ IsSum (tree_of e.now) }
{
    matches!(e, Expr::Sum { .. })
}

// The letters of the texts: the variable's and, where there is one, the parameter's; a line a command.
fn letters(command: Command) -> &'static [u8]
    ensures letters { result.now ≡ letters_of command }
    ensures free { IsFree result.now }
{
    match command {
        Command::Sum { .. } | Command::Tower | Command::Simplify { .. } => b"k",
        Command::Check { .. } | Command::Value { .. } => b"k",
        Command::ValueAtParameter { .. } => b"kn",
    }
}
