ghost use Rattle.std.specs.Prelude.{◌≡◌, ◌+◌, ◌*◌, ◌^◌, ◌<◌, ◌≤◌, pos, max, IfOk, IfErr};
ghost use Rattle.sg_spec.specs.Fraction.{whole};
ghost use Rattle.sg_spec.specs.Parts.{ratio_of, numer};
ghost use Rattle.sg_num.specs.Value.{fraction};
ghost use Rattle.sg_num.specs.Stopped.{IsTooWide};
ghost use Rattle.sg_num.specs.declared.step.Op.TheVariants.{Add as IsAdd, Mul as IsMul};
ghost use Rattle.sg_expr.specs.Tree.{tree_of};
ghost use Rattle.sg_parts.specs.Weights.{HasNaturals, AreWeights, IsHeavyRatio, AreSumWeights, AreProductWeights, IsLightSum, IsHeavySum};

use sg_expr::Expr;
use sg_num::{Op, Rat, Wide};

/// The weights of a numerator and of a denominator.
#[derive(Clone, Copy)]
pub struct Weights {
    pub over: u128,
    pub under: u128,
}

const LIMIT: u128 = 0x8000_0000_0000_0000_0000_0000_0000_0000;

/// The weights of the numerator and the denominator of a tree. Where one of them doesn't fit, the step that makes it is kept.
pub fn weights_of(e: &Expr) -> Result<Weights, Wide>
    requires { HasNaturals (tree_of e.now) }
    ensures weights { IfOk result (λ w. AreWeights w (ratio_of (tree_of e.now))) }
    ensures wide { IfErr result IsTooWide }
    ensures heavy { IfErr result (λ _. IsHeavyRatio (ratio_of (tree_of e.now))) }
{
    match e {
        Expr::Num(n) => Ok(Weights {
            over: n.unsigned_abs().max(1),
            under: 1,
        }),
        Expr::Here
        | Expr::Param
        | Expr::Sum { from: _, body: _ }
        | Expr::Prod { from: _, body: _ } => { Ok(Weights { over: 1, under: 1 }) }
        Expr::Neg(a) => {
            let w = weights_of(a)?;
            Ok(w)
        }
        Expr::Add(a, b) => {
            let x = weights_of(a)?;
            let y = weights_of(b)?;
            let w = sum_weights(x, y)?;
            Ok(w)
        }
        Expr::Mul(a, b) => {
            let x = weights_of(a)?;
            let y = weights_of(b)?;
            let w = product_weights(x, y)?;
            Ok(w)
        }
        Expr::Div(a, b) => {
            let x = weights_of(a)?;
            let y = weights_of(b)?;
            let w = product_weights(x, turned(y))?;
            Ok(w)
        }
        Expr::Pow(a, e) => {
            if *e == 0 {
                return Ok(Weights { over: 1, under: 1 });
            }
            let x = weights_of(a)?;
            let over = power(x.over, *e)?;
            let under = power(x.under, *e)?;
            Ok(Weights { over, under })
        }
    }
}

/// The weight of the numerator of a sum is told to fit. Where it doesn't, the step that makes it is kept.
pub fn weigh_sum(a: &Expr, b: &Expr) -> Result<(), Wide>
    requires left { HasNaturals (tree_of a.now) }
    requires right { HasNaturals (tree_of b.now) }
    ensures light { IfOk result (λ _. IsLightSum (ratio_of (tree_of a.now)) (ratio_of (tree_of b.now))) }
    ensures wide { IfErr result IsTooWide }
    ensures heavy { IfErr result (λ _. IsHeavySum (ratio_of (tree_of a.now)) (ratio_of (tree_of b.now))) }
{
    let x = weights_of(a)?;
    let y = weights_of(b)?;
    let _weight = sum_over(x, y)?;
    Ok(())
}

// Of the sum.
fn sum_weights(x: Weights, y: Weights) -> Result<Weights, Wide>
    requires x_over { x.over < 2 ^ 127 }
    requires x_under { x.under < 2 ^ 127 }
    requires y_over { y.over < 2 ^ 127 }
    requires y_under { y.under < 2 ^ 127 }
    ensures weights { IfOk result (λ w. AreSumWeights w x y) }
    ensures wide { IfErr result IsTooWide }
    ensures heavy { IfErr result (λ _. 2 ^ 127 ≤ max (x.over * y.under + y.over * x.under) (x.under * y.under)) }
{
    let over = sum_over(x, y)?;
    let under = product(x.under, y.under)?;
    Ok(Weights { over, under })
}

// Of the numerator of the sum.
fn sum_over(x: Weights, y: Weights) -> Result<u128, Wide>
    requires x_over { x.over < 2 ^ 127 }
    requires x_under { x.under < 2 ^ 127 }
    requires y_over { y.over < 2 ^ 127 }
    requires y_under { y.under < 2 ^ 127 }
    ensures weight { IfOk result (λ w. (w ≡ x.over * y.under + y.over * x.under) × (w < 2 ^ 127)) }
    ensures wide { IfErr result IsTooWide }
    ensures heavy { IfErr result (λ _. 2 ^ 127 ≤ x.over * y.under + y.over * x.under) }
{
    let left = product(x.over, y.under)?;
    let right = product(y.over, x.under)?;
    let w = sum(left, right)?;
    Ok(w)
}

// Of the product.
fn product_weights(x: Weights, y: Weights) -> Result<Weights, Wide>
    requires x_over { x.over < 2 ^ 127 }
    requires x_under { x.under < 2 ^ 127 }
    requires y_over { y.over < 2 ^ 127 }
    requires y_under { y.under < 2 ^ 127 }
    ensures weights { IfOk result (λ w. AreProductWeights w x y) }
    ensures wide { IfErr result IsTooWide }
    ensures heavy { IfErr result (λ _. 2 ^ 127 ≤ max (x.over * y.over) (x.under * y.under)) }
{
    let over = product(x.over, y.over)?;
    let under = product(x.under, y.under)?;
    Ok(Weights { over, under })
}

// Of what is divided by.
fn turned(x: Weights) -> Weights
    ensures over { result.over ≡ x.under }
    ensures under { result.under ≡ x.over }
{
    Weights {
        over: x.under,
        under: x.over,
    }
}

// The power.
fn power(a: u128, exponent: u128) -> Result<u128, Wide>
    requires some { 1 ≤ a }
    requires fits { a < 2 ^ 127 }
    ensures power { IfOk result (λ w. (w ≡ a ^ exponent) × (w < 2 ^ 127)) }
    ensures wide { IfErr result IsTooWide }
    ensures heavy { IfErr result (λ _. 2 ^ 127 ≤ a ^ exponent) }
{
    let mut w = 1;
    if a == 1 {
        return Ok(w);
    }
    for _i in 0..exponent {
        w = product(a, w)?;
    }
    Ok(w)
}

// The product.
fn product(a: u128, b: u128) -> Result<u128, Wide>
    requires a_fits { a < 2 ^ 127 }
    requires b_fits { b < 2 ^ 127 }
    ensures product { IfOk result (λ w. (w ≡ a * b) × (w < 2 ^ 127)) }
    ensures wide { IfErr result IsTooWide }
    ensures heavy { IfErr result (λ _. 2 ^ 127 ≤ a * b) }
{
    let w = a.saturating_mul(b);
    if w < LIMIT {
        return Ok(w);
    }
    Err(step(Op::Mul, a, b))
}

// The sum.
fn sum(a: u128, b: u128) -> Result<u128, Wide>
    requires a_fits { a < 2 ^ 127 }
    requires b_fits { b < 2 ^ 127 }
    ensures sum { IfOk result (λ w. (w ≡ a + b) × (w < 2 ^ 127)) }
    ensures wide { IfErr result IsTooWide }
    ensures heavy { IfErr result (λ _. 2 ^ 127 ≤ a + b) }
{
    let w = a + b;
    if w < LIMIT {
        return Ok(w);
    }
    Err(step(Op::Add, a, b))
}

// A step of two whole numbers.
fn step(op: Op, a: u128, b: u128) -> Wide
    requires a_fits { a < 2 ^ 127 }
    requires b_fits { b < 2 ^ 127 }
    ensures op { result.op ≡ op }
    ensures left { fraction result.left ≡ whole (pos a) }
    ensures right { fraction result.right ≡ whole (pos b) }
{
    Wide {
        op,
        left: Rat::whole(a as i128),
        right: Rat::whole(b as i128),
    }
}
