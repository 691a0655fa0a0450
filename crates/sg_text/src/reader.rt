//! Texts are read.
ghost use Rattle.std.specs.Prelude.{◌≡◌, ◌==◌, ◌⊎◌, ℕ, ◌+◌, ◌-◌, ◌^◌, ◌<◌, ◌≤◌, cond, length, take, IfOk, IfErr, MatchOption, MatchResult, Some, None};
ghost use Rattle.sg_spec.specs.Tree.{Tree};
ghost use Rattle.sg_spec.specs.Reading.{open_after, faulty, IsDeep, Refusal, IsRefused, IsRead};
ghost use Rattle.sg_expr.specs.Tree.{tree_of};
ghost use Rattle.sg_syntax.specs.Drafts.{placed_of};
ghost use Rattle.sg_syntax.specs.Machines.{HasCappedTree};
ghost use Rattle.sg_text.specs.Scopes.{names_of, fault_of};
ghost use Rattle.sg_text.specs.Limited.{bounds_of};
ghost use Rattle.sg_text.specs.Reads.{IsFree, IsTextFault, refusal_of, Refuses, OneTree};

use crate::bounds::Bounds;
use crate::check::first_fault;
use crate::convert::expr_of;
use crate::fault::ReadFault;
use crate::found::{Found, Kind};
use crate::scope::Scope;
use sg_expr::Expr;
use sg_syntax::{Node, SyntaxFault, parse};
use std::alloc::Global;

/// The expression that a text reads as. `free` names the variable and, where it has two letters, the parameter.
/// Errors: too many bytes, too many open parentheses, the place at which the text stops being one, the first of the
/// other faults, and out of memory.
pub fn read(alloc: Global, text: &[u8], free: &[u8], bounds: &Bounds) -> Result<Expr, ReadFault>
    requires { IsFree free.now }
    ensures expression { IfOk result (λ e. IsRead (bounds_of bounds.now) free.now text.now (tree_of e)) }
    ensures fault { IfErr result (λ f. Refuses (bounds_of bounds.now) free.now text.now f) }
    ensures reads { (e : Tree) → IsRead (bounds_of bounds.now) free.now text.now e → MatchResult result (λ x. tree_of x ≡ e) (λ f. refusal_of f ≡ None) }
    ensures refuses { (r : Refusal) → IsRefused (bounds_of bounds.now) free.now text.now r
        → MatchResult result (λ x. ⊥) (λ f. (refusal_of f ≡ None) ⊎ (refusal_of f ≡ Some r)) }
    ensures one_tree { OneTree text.now free.now }
{
    outcome(alloc, text, free, bounds)
}

/// `read` test after test, without the clauses that follow from these.
fn outcome(alloc: Global, text: &[u8], free: &[u8], bounds: &Bounds) -> Result<Expr, ReadFault>
    requires { IsFree free.now }
    ensures expression { IfOk result (λ e. IsRead (bounds_of bounds.now) free.now text.now (tree_of e)) }
    ensures fault { IfErr result (λ f. Refuses (bounds_of bounds.now) free.now text.now f) }
{
    let Bounds {
        bytes,
        parens,
        numeral,
        exponent,
    } = *bounds;
    if text.len() > bytes as usize {
        return Err(ReadFault::Long);
    }
    match first_deep(text, parens) {
        Some(at) => return Err(ReadFault::Deep { at }),
        None => {}
    }
    let node = placed(alloc, text)?;
    let scope = outer_scope(free);
    match first_fault(&node, bounds, false, scope) {
        Some(found) => Err(told(found)),
        None => Ok(Box::into_inner(expr_of(alloc, node, &scope)?)),
    }
}

/// The first place where more parentheses are open than these.
fn first_deep(text: &[u8], most: u32) -> Option<u32>
    requires { length text.now < 2 ^ 32 }
    ensures { MatchOption result ((q : ℕ) → q < length text.now → open_after (take (q + 1) text.now) ≤ most) (λ p. IsDeep most text.now p) }
{
    let mut count = 0;
    for i in 0..text.len() {
        count = counted(count, text[i]);
        if count > most as u64 {
            return Some(i as u32);
        }
    }
    None
}

/// How many parentheses are open after this byte.
fn counted(count: u64, byte: u8) -> u64
    requires { count < 2 ^ 64 - 1 }
    ensures { result ≡ cond (byte == 40) (count + 1) (cond (byte == 41) (count - 1) count) }
{
    match byte {
        b'(' => count + 1,
        b')' => count.saturating_sub(1),
        _ => count,
    }
}

/// The tree of a text, with its places.
fn placed(alloc: Global, text: &[u8]) -> Result<Box<Node>, ReadFault>
    requires { length text.now < 2 ^ 32 }
    ensures node { IfOk result (λ t. HasCappedTree text.now (placed_of t.value)) }
    ensures fault { IfErr result (λ e. IsTextFault text.now e) }
{
    match parse(alloc, text) {
        Ok(node) => Ok(node),
        Err(SyntaxFault::Syntax { at }) => Err(ReadFault::Syntax { at }),
        Err(SyntaxFault::Memory(want)) => Err(ReadFault::Memory(want)),
    }
}

/// The scope of a whole text.
fn outer_scope(free: &[u8]) -> Scope
    requires { IsFree free.now }
    ensures { names_of result ≡ free.now }
{
    let parameter = if free.len() == 2 { Some(free[1]) } else { None };
    Scope {
        variable: free[0],
        parameter,
    }
}

/// The fault that the caller is told.
fn told(found: Found) -> ReadFault
    ensures { refusal_of result ≡ Some (faulty (fault_of found)) }
{
    let at = found.at;
    match found.kind {
        Kind::Numeral => ReadFault::Numeral { at },
        Kind::Exponent => ReadFault::Exponent { at },
        Kind::Unbound => ReadFault::Unbound { at },
        Kind::Form => ReadFault::Form { at },
    }
}
