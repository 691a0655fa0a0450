ghost use Rattle.std.specs.Prelude.{◌≡◌, [], ◌∷◌, pos, negsuc, IfOk, None, length, map, false};
ghost use Rattle.sg_algebra.specs.Coefficients.{Each};
ghost use Rattle.sg_expr.specs.Tree.{tree_of};
ghost use Rattle.sg_spec.specs.Limits.{counted};
ghost use Rattle.sg_spec.specs.Printing.{InForm};
ghost use Rattle.sg_words.specs.declared.asked.Command.TheVariants.{Tower};
ghost use Rattle.sg_forms.specs.Commands.{IsPrinted, ArePrinted};
ghost use Rattle.sg_forms.specs.Marks.{mark_of, marks_of};
ghost use Rattle.sg_top.specs.Answer.{IsCountedReply};
ghost use Rattle.sg_top.specs.Lines.{standing_line, standing_lines};
ghost use Rattle.sg_top.specs.Output.{IsReadBack};
ghost use Rattle.sg_top.specs.Stages.{undivided};
ghost use Rattle.sg_top.specs.Taking.{AreTested, IsToldReply};

use crate::Status;
use crate::forms::tested;
use crate::lines::{equal_text, free_text};
use crate::reply::Reply;
use sg_expr::Expr;
use sg_forms::{Standing, standings};
use sg_limits::Facts;
use sg_num::Row;
use sg_text::print;
use std::alloc::{AllocError, Global};

/// The limit from which on the bodies of sums are examined, below that of each sum.
const LOWEST: i64 = -1001;

/// The answer to the command that asks which sums of the expression are new over those before them, and what the others are (Karr
/// 1981): only where no part of a divisor in their bodies is 0. The expression's own divisors may be 0. The error is out of memory.
pub fn tower_reply(alloc: Global, items: &Row<Expr>) -> Result<Reply, AllocError>
    requires one { length items.now ≡ 1 }
    requires form { Each (InForm false false) (map tree_of items.now) }
    requires kept { counted (map tree_of items.now) ≡ None }
    ensures { IfOk result (λ r. IsCountedReply Tower (map tree_of items.now) r.status r.text.items) }
{
    let examined = examined_alone(alloc, items.get(0))?;
    match tested(alloc, &examined, LOWEST)? {
        Ok(facts) => {
            let reply = told_reply(alloc, &examined, &facts)?;
            Ok(reply)
        }
        Err(reply) => Ok(reply),
    }
}

// The expression alone, with products in place of its own quotients.
fn examined_alone(alloc: Global, e: &Expr) -> Result<Row<Expr>, AllocError>
    ensures { IfOk result (λ r. map tree_of r ≡ undivided (tree_of e.now) ∷ []) }
{
    let same = undivided(alloc, e)?;
    let mut items = Row::new(alloc);
    items.push(same)?;
    Ok(items)
}

// The expression with a product in place of each quotient, but for those in the bodies of sums and products.
fn undivided(alloc: Global, e: &Expr) -> Result<Expr, AllocError>
    ensures { IfOk result (λ u. tree_of u ≡ undivided (tree_of e.now)) }
{
    match e {
        Expr::Num(_) | Expr::Here | Expr::Param | Expr::Sum { .. } | Expr::Prod { .. } => {
            e.copy(alloc)
        }
        Expr::Add(a, b) => {
            let left = Box::new(alloc, undivided(alloc, a)?)?;
            let right = Box::new(alloc, undivided(alloc, b)?)?;
            Ok(Expr::Add(left, right))
        }
        Expr::Neg(a) => {
            let inner = Box::new(alloc, undivided(alloc, a)?)?;
            Ok(Expr::Neg(inner))
        }
        Expr::Mul(a, b) | Expr::Div(a, b) => {
            let left = Box::new(alloc, undivided(alloc, a)?)?;
            let right = Box::new(alloc, undivided(alloc, b)?)?;
            Ok(Expr::Mul(left, right))
        }
        Expr::Pow(a, n) => {
            let inner = Box::new(alloc, undivided(alloc, a)?)?;
            Ok(Expr::Pow(inner, *n))
        }
    }
}

// The answer for an expression that passes the tests.
fn told_reply(alloc: Global, items: &Row<Expr>, facts: &Facts) -> Result<Reply, AllocError>
    requires one { length items.now ≡ 1 }
    requires form { Each (InForm false false) (map tree_of items.now) }
    requires kept { counted (map tree_of items.now) ≡ None }
    requires tested { AreTested (negsuc 1000) facts.now (map tree_of items.now) }
    ensures { IfOk result (λ r. IsToldReply (map tree_of items.now) r.status r.text.items) }
{
    if facts.sums.is_empty() {
        let reply = Reply::fixed(alloc, b"empty\n", Status::Done)?;
        return Ok(reply);
    }
    match standings(alloc, facts, items) {
        Ok(told) => {
            let text = told_text(alloc, &facts.sums, &told, facts.start)?;
            Ok(Reply::done(text))
        }
        Err(stop) => {
            let reply = Reply::stopped(alloc, stop)?;
            Ok(reply)
        }
    }
}

// The lines of what is told of the sums, of which there are some.
fn told_text(
    alloc: Global,
    sums: &Row<Expr>,
    told: &Row<Standing>,
    start: i64,
) -> Result<Vec<u8>, AllocError>
    requires sums { Each (InForm false false) (map tree_of sums.now) }
    requires count { length told.now ≡ length sums.now }
    requires printed { ArePrinted told.now }
    ensures text { IfOk result (λ t. t.items ≡ standing_lines start (map tree_of sums.now) (marks_of told.now)) }
    ensures read_back { IfOk result (λ _. Each IsReadBack (marks_of told.now)) }
{
    let mut text = Vec::new(alloc);
    for i in 0..sums.len() {
        let line = standing_text(alloc, sums.get(i), told.get(i), start)?;
        text.extend_from_slice(line.as_slice())?;
    }
    Ok(text)
}

// The line of what is told of a sum.
fn standing_text(
    alloc: Global,
    sum: &Expr,
    standing: &Standing,
    start: i64,
) -> Result<Vec<u8>, AllocError>
    requires sum { InForm false false (tree_of sum.now) }
    requires printed { IsPrinted (mark_of standing.now) }
    ensures text { IfOk result (λ t. t.items ≡ standing_line start (tree_of sum.now) (mark_of standing.now)) }
    ensures read_back { IfOk result (λ _. IsReadBack (mark_of standing.now)) }
{
    let name = print(alloc, sum, b"k")?;
    match standing {
        Standing::Free => {
            let line = free_text(alloc, name.as_slice())?;
            Ok(line)
        }
        Standing::Expressed(h) => {
            let form = print(alloc, h, b"k")?;
            let line = equal_text(alloc, name.as_slice(), form.as_slice(), start)?;
            Ok(line)
        }
    }
}
