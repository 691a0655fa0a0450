ghost use Rattle.std.specs.Prelude.{◌≡◌, ◌≤◌, pos, negsuc, ◌≤ℤ◌, IfOk, MatchResult, None, length, map, false};
ghost use Rattle.sg_algebra.specs.Coefficients.{Each};
ghost use Rattle.sg_expr.specs.Tree.{tree_of};
ghost use Rattle.sg_spec.specs.Limits.{counted};
ghost use Rattle.sg_spec.specs.Printing.{InForm};
ghost use Rattle.sg_spec.specs.Reading.{Reads};
ghost use Rattle.std.specs.Prelude.{codes};
ghost use Rattle.sg_text.specs.PrintedText.{printed};
ghost use Rattle.sg_words.specs.declared.asked.Command.TheVariants.{Simplify, Check};
ghost use Rattle.sg_top.specs.Answer.{IsCountedReply, IsTakenReply};
ghost use Rattle.sg_top.specs.Lines.{form_line, yes_line};
ghost use Rattle.sg_top.specs.Taking.{AreTested, IsTestReply};
ghost use Rattle.sg_top.specs.declared.status.Status.TheVariants.{Done, No};

use crate::Status;
use crate::lines::{form_text, item_text, yes_text};
use crate::poles::pole_reply;
use crate::reply::Reply;
use crate::sums::first_later;
use sg_expr::Expr;
use sg_forms::{checked, simplified};
use sg_limits::{Facts, inspect};
use sg_num::Row;
use sg_text::print;
use std::alloc::{AllocError, Global};

/// The answer to the command that simplifies an expression from a on: only where no part of a divisor is 0. The error is out of
/// memory.
pub fn simplify_reply(alloc: Global, items: &Row<Expr>, a: i64) -> Result<Reply, AllocError>
    requires one { length items.now ≡ 1 }
    requires form { Each (InForm false false) (map tree_of items.now) }
    requires kept { counted (map tree_of items.now) ≡ None }
    requires low { negsuc 999 ≤ℤ a }
    requires high { a ≤ℤ pos 1000 }
    ensures { IfOk result (λ r. IsCountedReply (Simplify a) (map tree_of items.now) r.status r.text.items) }
{
    match tested(alloc, items, a)? {
        Ok(facts) => {
            let reply = simplified_reply(alloc, items, &facts, a)?;
            Ok(reply)
        }
        Err(reply) => Ok(reply),
    }
}

/// The answer to the command that asks whether the second expression telescopes the first from a on: only where no part of a divisor
/// is 0. The error is out of memory.
pub fn check_reply(alloc: Global, items: &Row<Expr>, a: i64) -> Result<Reply, AllocError>
    requires two { length items.now ≡ 2 }
    requires form { Each (InForm false false) (map tree_of items.now) }
    requires kept { counted (map tree_of items.now) ≡ None }
    requires low { negsuc 999 ≤ℤ a }
    requires high { a ≤ℤ pos 1000 }
    ensures { IfOk result (λ r. IsCountedReply (Check a) (map tree_of items.now) r.status r.text.items) }
{
    match tested(alloc, items, a)? {
        Ok(facts) => {
            let reply = checked_reply(alloc, items, &facts, a)?;
            Ok(reply)
        }
        Err(reply) => Ok(reply),
    }
}

/// The facts of expressions that pass the tests: that none holds a product, and that no part of a divisor is 0; or the reply to
/// them. The error is out of memory.
pub fn tested(alloc: Global, items: &Row<Expr>, a: i64) -> Result<Result<Facts, Reply>, AllocError>
    requires few { length items.now ≤ 16 }
    requires form { Each (InForm false false) (map tree_of items.now) }
    requires kept { counted (map tree_of items.now) ≡ None }
    ensures { IfOk result (λ t. MatchResult t (λ facts. AreTested a facts (map tree_of items.now)) (λ r. IsTestReply a (map tree_of items.now) r.status r.text.items)) }
{
    match first_later(items.as_slice()) {
        Some(item) => {
            let line = item_text(alloc, b"later", item)?;
            Ok(Err(Reply::refused(line)))
        }
        None => match inspect(alloc, items, Some(a)) {
            Ok(facts) => Ok(Ok(facts)),
            Err(fault) => {
                let reply = pole_reply(alloc, fault)?;
                Ok(Err(reply))
            }
        },
    }
}

// The answer for an expression that passes the tests.
fn simplified_reply(
    alloc: Global,
    items: &Row<Expr>,
    facts: &Facts,
    a: i64,
) -> Result<Reply, AllocError>
    requires one { length items.now ≡ 1 }
    requires form { Each (InForm false false) (map tree_of items.now) }
    requires kept { counted (map tree_of items.now) ≡ None }
    requires low { negsuc 999 ≤ℤ a }
    requires high { a ≤ℤ pos 1000 }
    requires tested { AreTested a facts.now (map tree_of items.now) }
    ensures { IfOk result (λ r. IsTakenReply (Simplify a) (map tree_of items.now) r.status r.text.items) }
{
    match simplified(alloc, facts, items, a) {
        Ok(h) => {
            let reply = form_reply(alloc, &h, facts.start)?;
            Ok(reply)
        }
        Err(stop) => {
            let reply = Reply::stopped(alloc, stop)?;
            Ok(reply)
        }
    }
}

// The line of a simplest form.
fn form_reply(alloc: Global, h: &Expr, start: i64) -> Result<Reply, AllocError>
    requires { InForm false false (tree_of h.now) }
    ensures text { IfOk result (λ r. r.text.items ≡ form_line (printed (codes "k") (tree_of h.now)) start) }
    ensures reads_back { IfOk result (λ r. Reads (printed (codes "k") (tree_of h.now)) (codes "k") (tree_of h.now)) }
    ensures status { IfOk result (λ r. r.status ≡ Done) }
{
    let form = print(alloc, h, b"k")?;
    let text = form_text(alloc, form.as_slice(), start)?;
    Ok(Reply::done(text))
}

// The answer for two expressions that pass the tests.
fn checked_reply(
    alloc: Global,
    items: &Row<Expr>,
    facts: &Facts,
    a: i64,
) -> Result<Reply, AllocError>
    requires two { length items.now ≡ 2 }
    requires form { Each (InForm false false) (map tree_of items.now) }
    requires kept { counted (map tree_of items.now) ≡ None }
    requires low { negsuc 999 ≤ℤ a }
    requires high { a ≤ℤ pos 1000 }
    requires tested { AreTested a facts.now (map tree_of items.now) }
    ensures { IfOk result (λ r. IsTakenReply (Check a) (map tree_of items.now) r.status r.text.items) }
{
    match checked(alloc, facts, items, a) {
        Ok(true) => {
            let text = yes_text(alloc, facts.start)?;
            Ok(Reply::done(text))
        }
        Ok(false) => {
            let reply = Reply::fixed(alloc, b"no\n", Status::No)?;
            Ok(reply)
        }
        Err(stop) => {
            let reply = Reply::stopped(alloc, stop)?;
            Ok(reply)
        }
    }
}
