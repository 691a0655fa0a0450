ghost use Rattle.std.specs.Prelude.{◌≡◌, ◌≢◌, ◌↔◌, ℤ, pos, IfOk, IfErr, IsOk, IsTrue, List, Option, Some};
ghost use Rattle.sg_spec.specs.Fraction.{Fraction, Same};
ghost use Rattle.sg_spec.specs.Steps.{Step};
ghost use Rattle.sg_num.specs.Value.{fraction};
ghost use Rattle.sg_num.specs.Steps.{outcome, fits_step};
ghost use Rattle.sg_value.specs.Answer.{Answers, AnswersStep, AnswersTwo, Stands};

use sg_num::{Op, Rat, Wide};

/// What an evaluation comes to: a value, no value, or the first step that doesn't fit.
#[derive(Clone, Copy)]
pub enum Outcome {
    Value(Rat),
    NoValue,
    TooWide(Wide),
}

/// The step that joins two values.
pub fn operate(op: Op, left: Rat, right: Rat) -> Outcome
    ensures { (x y : Fraction) → Stands left (Some x) → Stands right (Some y) → AnswersStep op result x y }
{
    if divides_by_zero(op, right) {
        return Outcome::NoValue;
    }
    match stepped(op, left, right) {
        Ok(r) => Outcome::Value(r),
        Err(wide) => Outcome::TooWide(wide),
    }
}

/// The value of the left part joined with what the right part answers.
pub fn join(op: Op, left: Rat, right: Outcome) -> Outcome
    ensures { (u v : Option Fraction) (us vs : List Step) → Answers (Outcome.Value left) u us → Answers right v vs → AnswersTwo op result u us v vs }
{
    match right {
        Outcome::Value(right) => operate(op, left, right),
        Outcome::NoValue => Outcome::NoValue,
        Outcome::TooWide(wide) => Outcome::TooWide(wide),
    }
}

/// Whether the step is a division by 0.
fn divides_by_zero(op: Op, right: Rat) -> bool
    ensures { IsTrue result ↔ ((op ≡ Op.Div) × ((fraction right).num ≡ pos 0)) }
{
    op == Op::Div && right.is_zero()
}

/// The result of one step, for a divisor other than 0.
fn stepped(op: Op, left: Rat, right: Rat) -> Result<Rat, Wide>
    requires { op ≡ Op.Div → (fraction right).num ≢ pos 0 }
    ensures value { IfOk result (λ r. Same (fraction r) (outcome op (fraction left) (fraction right))) }
    ensures wide { IfErr result (λ w. w ≡ record { op = op; left = left; right = right }) }
    ensures exact { IsOk result ↔ IsTrue (fits_step op (fraction left) (fraction right)) }
{
    match op {
        Op::Add => left.plus(right),
        Op::Sub => left.minus(right),
        Op::Mul => left.times(right),
        Op::Div => left.over(right),
    }
}
