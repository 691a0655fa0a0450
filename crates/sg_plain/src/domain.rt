ghost use Rattle.std.specs.Prelude.{◌≡◌, ◌≤◌, ◌*◌, ◌^◌, ◌↔◌, min, IsTrue};
ghost use Rattle.sg_expr.specs.Tree.{tree_of};
ghost use Rattle.sg_plain.specs.Plain.{IsPlain};
ghost use Rattle.sg_spec.specs.Limits.{degrees};
ghost use Rattle.sg_spec.specs.Polynomials.{IsPolynomial, weight};

use sg_expr::Expr;

/// Whether an expression is a plain polynomial: built from numerals, the variable, sums, products, opposites and powers, of
/// written degree at most four and of weight at most 65,536.
pub fn is_plain(e: &Expr) -> bool
    ensures { IsTrue result ↔ IsPlain (tree_of e.now) }
{
    is_polynomial(e) && degree(e) <= 4 && weight(e) <= 65536
}

// Whether the expression is built from numerals, the variable, sums, products, opposites and powers alone.
fn is_polynomial(e: &Expr) -> bool
    ensures { IsTrue result ↔ IsPolynomial (tree_of e.now) }
{
    match e {
        Expr::Num(_) | Expr::Here => true,
        Expr::Add(a, b) | Expr::Mul(a, b) => is_polynomial(a) && is_polynomial(b),
        Expr::Neg(a) | Expr::Pow(a, _) => is_polynomial(a),
        Expr::Param | Expr::Div(_, _) | Expr::Sum { .. } | Expr::Prod { .. } => false,
    }
}

// The written degree, or 5 where it is more.
fn degree(e: &Expr) -> u128
    ensures { result ≡ min 5 (degrees (tree_of e.now)).variable }
{
    match e {
        Expr::Here => 1,
        Expr::Add(a, b) => degree(a).max(degree(b)),
        Expr::Neg(a) => degree(a),
        Expr::Mul(a, b) | Expr::Div(a, b) => (degree(a) + degree(b)).min(5),
        Expr::Pow(a, n) => at_most_five(degree(a), *n),
        Expr::Num(_) | Expr::Param | Expr::Sum { .. } | Expr::Prod { .. } => 0,
    }
}

// The product, or 5 where it is more.
fn at_most_five(d: u128, n: u128) -> u128
    requires { d ≤ 5 }
    ensures { result ≡ min 5 (d * n) }
{
    (d * n.min(5)).min(5)
}

// The weight, or 65,537 where it is more.
fn weight(e: &Expr) -> u128
    ensures { result ≡ min 65537 (weight (tree_of e.now)) }
{
    match e {
        Expr::Num(c) => c.unsigned_abs().max(1).min(65537),
        Expr::Add(a, b) => (weight(a) + weight(b)).min(65537),
        Expr::Neg(a) => weight(a),
        Expr::Mul(a, b) => (weight(a) * weight(b)).min(65537),
        Expr::Div(a, b) => (weight(a) * weight(b)).min(65537),
        Expr::Pow(a, n) => weight_power(weight(a), *n),
        Expr::Here | Expr::Param | Expr::Sum { .. } | Expr::Prod { .. } => 1,
    }
}

// The power, or 65,537 where it is more.
fn weight_power(w: u128, n: u128) -> u128
    requires some { 1 ≤ w }
    requires small { w ≤ 65537 }
    ensures { result ≡ min 65537 (w ^ n) }
{
    if w == 1 {
        return 1;
    }
    let mut power = 1;
    for _done in 0..n.min(17) {
        power = (power * w).min(65537);
    }
    power
}
