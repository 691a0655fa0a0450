ghost use Rattle.std.specs.Prelude.{◌≡◌, ◌<◌, ◌≤◌, ◌↔◌, [], ◌∷◌, ◌++◌, pos, negsuc, ◌≤ℤ◌, IfOk, IsTrue, MatchOption, None, length, map, codes, false};
ghost use Rattle.sg_algebra.specs.Coefficients.{Each};
ghost use Rattle.sg_expr.specs.Tree.{tree_of};
ghost use Rattle.sg_spec.specs.Limits.{counted};
ghost use Rattle.sg_spec.specs.Printing.{InForm};
ghost use Rattle.sg_spec.specs.Reading.{Reads};
ghost use Rattle.sg_text.specs.PrintedText.{printed};
ghost use Rattle.sg_words.specs.declared.asked.Command.TheVariants.{Sum};
ghost use Rattle.sg_top.specs.Answer.{IsCountedReply, IsTakenReply};
ghost use Rattle.sg_top.specs.Lines.{closed_line, listed, none_line};
ghost use Rattle.sg_top.specs.Output.{IsNarrow};
ghost use Rattle.sg_worth_theory.proofs.Plain.{HasNoProduct};
ghost use Rattle.sg_depth.specs.Commands.{AreAdmitted};
ghost use Rattle.sg_top.specs.Taking.{IsFirstLater};
ghost use Rattle.sg_top.specs.declared.status.Status.TheVariants.{Done, No};

use crate::Status;
use crate::lines::{closed_text, item_text};
use crate::poles::pole_reply;
use crate::reply::Reply;
use sg_expr::Expr;
use sg_limits::{Facts, inspect};
use sg_nested::nested_closed;
use sg_num::Row;
use sg_plain::closed_form;
use sg_text::print;
use std::alloc::{AllocError, Global};

/// The answer to the command that sums the first expression from a on, over the sums of all of them: a plain polynomial alone is
/// summed in whole arithmetic, other expressions only where no part of a divisor is 0. The error is out of memory.
pub fn sum_reply(alloc: Global, items: &Row<Expr>, a: i64) -> Result<Reply, AllocError>
    requires some { 0 < length items.now }
    requires few { length items.now ≤ 16 }
    requires form { Each (InForm false false) (map tree_of items.now) }
    requires kept { counted (map tree_of items.now) ≡ None }
    requires low { negsuc 999 ≤ℤ a }
    requires high { a ≤ℤ pos 1000 }
    ensures { IfOk result (λ r. IsCountedReply (Sum a) (map tree_of items.now) r.status r.text.items) }
{
    let plain = plain_reply(alloc, items, a)?;
    match plain {
        Some(reply) => Ok(reply),
        None => {
            let reply = tested_reply(alloc, items, a)?;
            Ok(reply)
        }
    }
}

// The answer where the only expression is a plain polynomial, and a is near.
fn plain_reply(alloc: Global, items: &Row<Expr>, a: i64) -> Result<Option<Reply>, AllocError>
    ensures { IfOk result (λ o. MatchOption o (IsNarrow (Sum a) (map tree_of items.now) → ⊥)
        (λ r. IsCountedReply (Sum a) (map tree_of items.now) r.status r.text.items)) }
{
    if items.len() != 1 {
        return Ok(None);
    }
    let f = items.get(0);
    let closed = closed_form(alloc, f, a)?;
    match closed {
        Some(h) => {
            let reply = closed_reply(alloc, &h, a)?;
            Ok(Some(reply))
        }
        None => Ok(None),
    }
}

// The answer after the tests: that none holds a product, and that no part of a divisor is 0.
fn tested_reply(alloc: Global, items: &Row<Expr>, a: i64) -> Result<Reply, AllocError>
    requires some { 0 < length items.now }
    requires few { length items.now ≤ 16 }
    requires form { Each (InForm false false) (map tree_of items.now) }
    requires kept { counted (map tree_of items.now) ≡ None }
    requires not_narrow { IsNarrow (Sum a) (map tree_of items.now) → ⊥ }
    requires low { negsuc 999 ≤ℤ a }
    requires high { a ≤ℤ pos 1000 }
    ensures { IfOk result (λ r. IsCountedReply (Sum a) (map tree_of items.now) r.status r.text.items) }
{
    match first_later(items.as_slice()) {
        Some(item) => {
            let line = item_text(alloc, b"later", item)?;
            Ok(Reply::refused(line))
        }
        None => match inspect(alloc, items, Some(a)) {
            Ok(facts) => {
                let reply = nested_reply(alloc, items, &facts, a)?;
                Ok(reply)
            }
            Err(fault) => {
                let reply = pole_reply(alloc, fault)?;
                Ok(reply)
            }
        },
    }
}

/// The place of the first expression that holds a product, counted from 1; None exactly where none does.
pub fn first_later(items: &[Expr]) -> Option<usize>
    ensures { MatchOption result (Each HasNoProduct (map tree_of items.now)) (λ item. IsFirstLater item (map tree_of items.now)) }
{
    for (i, e) in items.iter().enumerate() {
        if !has_no_product(e) {
            return Some(i + 1);
        }
    }
    None
}

// Whether the expression holds no product.
fn has_no_product(e: &Expr) -> bool
    ensures { IsTrue result ↔ HasNoProduct (tree_of e.now) }
{
    match e {
        Expr::Num(_) | Expr::Here | Expr::Param => true,
        Expr::Add(a, b) | Expr::Mul(a, b) | Expr::Div(a, b) => {
            has_no_product(a) && has_no_product(b)
        }
        Expr::Neg(a) | Expr::Pow(a, _) => has_no_product(a),
        Expr::Sum { from: _, body } => has_no_product(body),
        Expr::Prod { .. } => false,
    }
}

// The answer for expressions that pass all tests, over the sums of all of them.
fn nested_reply(
    alloc: Global,
    items: &Row<Expr>,
    facts: &Facts,
    a: i64,
) -> Result<Reply, AllocError>
    requires some { 0 < length items.now }
    requires admitted { AreAdmitted a facts.now (map tree_of items.now) }
    requires not_narrow { IsNarrow (Sum a) (map tree_of items.now) → ⊥ }
    ensures { IfOk result (λ r. IsTakenReply (Sum a) (map tree_of items.now) r.status r.text.items) }
{
    match nested_closed(alloc, facts, items, a) {
        Ok(Some(h)) => {
            let reply = closed_reply(alloc, &h, facts.start)?;
            Ok(reply)
        }
        Ok(None) => {
            let reply = none_reply(alloc, facts)?;
            Ok(reply)
        }
        Err(wide) => {
            let reply = Reply::stopped(alloc, wide)?;
            Ok(reply)
        }
    }
}

// The line that there is no closed form over the products and sums.
fn none_reply(alloc: Global, facts: &Facts) -> Result<Reply, AllocError>
    requires products { Each (InForm false false) (map tree_of facts.now.prods) }
    requires sums { Each (InForm false false) (map tree_of facts.now.sums) }
    ensures text { IfOk result (λ r. r.text.items ≡ none_line (map tree_of facts.now.prods ++ map tree_of facts.now.sums)) }
    ensures status { IfOk result (λ r. r.status ≡ No) }
{
    let prods = listed_text(alloc, facts.prods.as_slice())?;
    let sums = listed_text(alloc, facts.sums.as_slice())?;
    let mut text = Vec::from_slice(alloc, b"none over k")?;
    text.extend_from_slice(prods.as_slice())?;
    text.extend_from_slice(sums.as_slice())?;
    text.extend_from_slice(b"\n")?;
    Ok(Reply::no(text))
}

// Each expression in k, after a comma and a blank.
fn listed_text(alloc: Global, gens: &[Expr]) -> Result<Vec<u8>, AllocError>
    requires { Each (InForm false false) (map tree_of gens.now) }
    ensures { IfOk result (λ t. t.items ≡ listed (map tree_of gens.now)) }
{
    let mut text = Vec::new(alloc);
    for g in gens {
        let form = print(alloc, g, b"k")?;
        text.extend_from_slice(b", ")?;
        text.extend_from_slice(form.as_slice())?;
    }
    Ok(text)
}

// The line of a closed form.
fn closed_reply(alloc: Global, h: &Expr, a: i64) -> Result<Reply, AllocError>
    requires { InForm false false (tree_of h.now) }
    ensures text { IfOk result (λ r. r.text.items ≡ closed_line (printed (codes "m") (tree_of h.now)) a) }
    ensures reads_back { IfOk result (λ r. Reads (printed (codes "m") (tree_of h.now)) (codes "m") (tree_of h.now)) }
    ensures status { IfOk result (λ r. r.status ≡ Done) }
{
    let form = print(alloc, h, b"m")?;
    let text = closed_text(alloc, form.as_slice(), a)?;
    Ok(Reply::done(text))
}
