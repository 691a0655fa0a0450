ghost use Rattle.std.specs.Prelude.{◌↔◌, ◌<◌, ◌≤◌, ℤ, IfOk, IfErr, IsOk, List, Option, Some};
ghost use Rattle.sg_spec.specs.Fraction.{Fraction};
ghost use Rattle.sg_spec.specs.Tree.{Tree, neg, power};
ghost use Rattle.sg_spec.specs.Value.{val, folded, how_many, power_of};
ghost use Rattle.sg_spec.specs.Steps.{Step, steps, folded_steps, power_steps, result_of, AllFit, IsFirstMisfit};
ghost use Rattle.sg_expr.specs.Tree.{tree_of};
ghost use Rattle.sg_num.specs.Value.{fraction};
ghost use Rattle.sg_value.specs.Answer.{Answers, AnswersTwo, Evaluates, IsValue, Stands, operation_of, step_of};
ghost use Rattle.sg_value.specs.Left.{left_operand, left_depth, left_part};

use crate::left::{left_depth, left_part};
use crate::step::{Outcome, join, operate};
use crate::terms::{count, place, whole};
use sg_expr::Expr;
use sg_num::{Op, Rat, Wide};

/// The value of `e` for the parameter `n` and the variable `k`; None where it has none. It is Wide exactly where a
/// step of the evaluation doesn't fit, and keeps the first such step: sums and products are folded term by term, what was folded so
/// far on the left. It takes no memory.
pub fn value_at(e: &Expr, n: i64, k: i64) -> Result<Option<Rat>, Wide>
    ensures value { IfOk result (λ v. IsValue v (val (tree_of e.now) n k)) }
    ensures wide { IfErr result (λ w. IsFirstMisfit (steps (tree_of e.now) n k) (step_of w)) }
    ensures exact { IsOk result ↔ AllFit (steps (tree_of e.now) n k) }
{
    match evaluate(e, n, k) {
        Outcome::Value(r) => Ok(Some(r)),
        Outcome::NoValue => Ok(None),
        Outcome::TooWide(wide) => Err(wide),
    }
}

// The value by the steps of the definition, up to the first that doesn't fit. A text of many terms or factors is deep only on its
// left side: what stands lowest there is evaluated first, and then each part above it without going down to it again.
#[cycle(evaluate)]
fn evaluate(e: &Expr, n: i64, k: i64) -> Outcome
    ensures { Evaluates result (tree_of e.now) n k }
{
    let depth = left_depth(e);
    let lowest = evaluate_part(left_part(e, depth), n, k);
    climb(e, depth, lowest, n, k)
}

// The value by the parts.
#[cycle(evaluate)]
fn evaluate_part(e: &Expr, n: i64, k: i64) -> Outcome
    ensures { Evaluates result (tree_of e.now) n k }
{
    match e {
        Expr::Num(c) => Outcome::Value(Rat::whole(*c)),
        Expr::Here => Outcome::Value(whole(k)),
        Expr::Param => Outcome::Value(whole(n)),
        Expr::Add(a, _) | Expr::Mul(a, _) | Expr::Div(a, _) => evaluate_above(
            e,
            evaluate(a, n, k),
            n,
            k,
        ),
        Expr::Neg(a) => opposite(evaluate(a, n, k)),
        Expr::Pow(a, e) => raise(evaluate(a, n, k), *e),
        Expr::Sum { from, body } => fold(Op::Add, Rat::whole(0), body, n, *from, k),
        Expr::Prod { from, body } => fold(Op::Mul, Rat::whole(1), body, n, *from, k),
    }
}

// The value of a tree from what its part so many left operands below answers. It halves the way, so that the calls that wait for
// one another are few and no part is looked up often.
#[cycle(evaluate)]
fn climb(e: &Expr, count: usize, below: Outcome, n: i64, k: i64) -> Outcome
    requires { count ≤ left_depth (tree_of e.now) }
    ensures { Evaluates below (left_part (tree_of e.now) count) n k → Evaluates result (tree_of e.now) n k }
{
    if count == 0 {
        return below;
    }
    if count == 1 {
        return evaluate_above(e, below, n, k);
    }
    let upper = count / 2;
    let middle = climb(left_part(e, upper), count - upper, below, n, k);
    climb(e, upper, middle, n, k)
}

// The value of a sum, a product or a quotient after what its left operand answered.
#[cycle(evaluate)]
fn evaluate_above(e: &Expr, left: Outcome, n: i64, k: i64) -> Outcome
    requires { 0 < left_depth (tree_of e.now) }
    ensures { Evaluates left (left_operand (tree_of e.now)) n k → Evaluates result (tree_of e.now) n k }
{
    match e {
        Expr::Add(_, b) => evaluate_right(Op::Add, left, b, n, k),
        Expr::Mul(_, b) => evaluate_right(Op::Mul, left, b, n, k),
        Expr::Div(_, b) => evaluate_right(Op::Div, left, b, n, k),
        Expr::Num(_) | Expr::Here | Expr::Param | Expr::Neg(_) | Expr::Pow(_, _) => unreachable!(),
        Expr::Sum { .. } | Expr::Prod { .. } => unreachable!(),
    }
}

/// After what the left part answered the right part, and then the step that joins them.
#[cycle(evaluate)]
fn evaluate_right(op: Op, left: Outcome, right: &Expr, n: i64, k: i64) -> Outcome
    ensures { (u : Option Fraction) (us : List Step) → Answers left u us
        → AnswersTwo op result u us (val (tree_of right.now) n k) (steps (tree_of right.now) n k) }
{
    match left {
        Outcome::Value(left) => join(op, left, evaluate(right, n, k)),
        Outcome::NoValue => Outcome::NoValue,
        Outcome::TooWide(wide) => Outcome::TooWide(wide),
    }
}

/// The terms from the first to the last, each joined on the right of what was folded so far.
#[cycle(evaluate)]
fn fold(op: Op, start: Rat, body: &Expr, n: i64, from: i64, last: i64) -> Outcome
    ensures { Answers result (folded (result_of (operation_of op)) (fraction start) (val (tree_of body.now) n) from (how_many from last))
        (folded_steps (operation_of op) (fraction start) (val (tree_of body.now) n) (steps (tree_of body.now) n) from (how_many from last)) }
{
    let mut so_far = start;
    let terms = count(from, last);
    for i in 0..terms {
        let term = evaluate(body, n, place(from, last, i));
        match join(op, so_far, term) {
            Outcome::Value(next) => so_far = next,
            end => return end,
        }
    }
    Outcome::Value(so_far)
}

/// 0 less what was answered.
fn opposite(part: Outcome) -> Outcome
    ensures { (t : Tree) (n k : ℤ) → Evaluates part t n k → Evaluates result (neg t) n k }
{
    match part {
        Outcome::Value(x) => operate(Op::Sub, Rat::whole(0), x),
        Outcome::NoValue => Outcome::NoValue,
        Outcome::TooWide(wide) => Outcome::TooWide(wide),
    }
}

/// 1, multiplied by what was answered as often as the exponent says.
fn raise(base: Outcome, exponent: u128) -> Outcome
    ensures { (t : Tree) (n k : ℤ) → Evaluates base t n k → Evaluates result (power t exponent) n k }
{
    match base {
        Outcome::Value(x) => power(x, exponent),
        Outcome::NoValue => Outcome::NoValue,
        Outcome::TooWide(wide) => Outcome::TooWide(wide),
    }
}

/// 1, multiplied by x as often as the exponent says.
fn power(x: Rat, exponent: u128) -> Outcome
    ensures { (y : Fraction) → Stands x (Some y) → Answers result (power_of (Some y) exponent) (power_steps (Some y) exponent) }
{
    let mut so_far = Rat::whole(1);
    for _i in 0..exponent {
        match operate(Op::Mul, so_far, x) {
            Outcome::Value(next) => so_far = next,
            end => return end,
        }
    }
    Outcome::Value(so_far)
}
