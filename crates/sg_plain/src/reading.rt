ghost use Rattle.std.specs.Prelude.{◌≡◌, ◌≤◌, ℕ, unsigned_abs};
ghost use Rattle.sg_algebra.proofs.Ring.{pow};
ghost use Rattle.sg_algebra.proofs.Whole.{ℤR};
ghost use Rattle.sg_expr.specs.Tree.{tree_of};
ghost use Rattle.sg_plain.specs.Plain.{IsPlain, whole_at, IsQuartic};

use crate::products::{multiplied, opposite, plus};
use crate::quartic::Quartic;
use sg_expr::Expr;

/// The coefficients of a plain polynomial.
pub fn quartic_of(e: &Expr) -> Quartic
    requires { IsPlain (tree_of e.now) }
    ensures { IsQuartic (tree_of e.now) result.constant result.linear result.square result.cube result.fourth }
{
    let u = value(e, 0);
    let v = value(e, 1);
    let w = value(e, 2);
    let x = value(e, 3);
    let y = value(e, 4);
    Quartic::interpolated(&[u, v, w, x, y])
}

// The value of a plain polynomial at a whole number of size at most five. A base under the exponent 0 has no part in it.
fn value(e: &Expr, k: i128) -> i128
    requires plain { IsPlain (tree_of e.now) }
    requires near { unsigned_abs k ≤ 5 }
    ensures value { result ≡ whole_at (tree_of e.now) k }
    ensures small { unsigned_abs result ≤ 67108864 }
{
    match e {
        Expr::Num(n) => *n,
        Expr::Here => k,
        Expr::Add(a, b) => {
            let v = value(a, k);
            let w = value(b, k);
            plus(v, w)
        }
        Expr::Neg(a) => {
            let v = value(a, k);
            opposite(v)
        }
        Expr::Mul(a, b) => {
            let v = value(a, k);
            let w = value(b, k);
            multiplied(v, w)
        }
        Expr::Pow(a, n) => {
            if *n == 0 {
                return 1;
            }
            let v = value(a, k);
            power(v, *n)
        }
        Expr::Param | Expr::Div(_, _) | Expr::Sum { .. } | Expr::Prod { .. } => 0,
    }
}

// The power of a number, where it and those before it are small, by squarings.
fn power(v: i128, n: u128) -> i128
    requires { (i : ℕ) → i ≤ n → unsigned_abs (pow ℤR v i) ≤ 67108864 }
    ensures { result ≡ pow ℤR v n }
{
    if n == 0 {
        return 1;
    }
    let half = power(v, n / 2);
    let square = multiplied(half, half);
    if n % 2 == 0 {
        square
    } else {
        multiplied(square, v)
    }
}
