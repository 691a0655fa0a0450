ghost use Rattle.std.specs.Prelude.{◌≡◌, ◌≢◌, ◌∷◌, [], map, IfOk};
ghost use Rattle.sg_expr.specs.Tree.{tree_of};
ghost use Rattle.sg_spec.specs.Tree.{Tree, neg, mul, div, add};
ghost use Rattle.sg_spec.specs.Canonical.{times_all, over_all, above, raised_factor, with_sign};

use sg_expr::Expr;
use sg_num::Row;
use std::alloc::{AllocError, Global};

/// The power, where the exponent isn't 0.
pub fn power(alloc: Global, t: &Expr, e: u128) -> Result<Expr, AllocError>
    requires { e ≢ 0 }
    ensures { IfOk result (λ r. raised_factor (tree_of t.now) e ≡ tree_of r ∷ []) }
{
    let base = t.copy(alloc)?;
    if e == 1 {
        return Ok(base);
    }
    let inner = Box::new(alloc, base)?;
    Ok(Expr::Pow(inner, e))
}

/// The power as a factor.
pub fn factor(alloc: Global, t: &Expr, e: u128) -> Result<Row<Expr>, AllocError>
    ensures { IfOk result (λ r. map tree_of r ≡ raised_factor (tree_of t.now) e) }
{
    let mut row = Row::new(alloc);
    if e == 0 {
        return Ok(row);
    }
    row.push(power(alloc, t, e)?)?;
    Ok(row)
}

/// s + t
pub fn plus(alloc: Global, s: Expr, t: Expr) -> Result<Expr, AllocError>
    ensures { IfOk result (λ r. tree_of r ≡ add (tree_of s) (tree_of t)) }
{
    let left = Box::new(alloc, s)?;
    let right = Box::new(alloc, t)?;
    Ok(Expr::Add(left, right))
}

/// With its sign.
pub fn with_sign(alloc: Global, minus: bool, t: Expr) -> Result<Expr, AllocError>
    ensures { IfOk result (λ r. tree_of r ≡ with_sign minus (tree_of t)) }
{
    if !minus {
        return Ok(t);
    }
    let inner = Box::new(alloc, t)?;
    Ok(Expr::Neg(inner))
}

/// t times all of these.
pub fn times_all(alloc: Global, t: Expr, us: &[Expr]) -> Result<Expr, AllocError>
    ensures { IfOk result (λ r. tree_of r ≡ times_all (tree_of t) (map tree_of us.now)) }
{
    match us.split_first() {
        None => Ok(t),
        Some((u, rest)) => {
            let t = times(alloc, t, u)?;
            let all = times_all(alloc, t, rest)?;
            Ok(all)
        }
    }
}

/// t over all of these.
pub fn over_all(alloc: Global, t: Expr, us: &[Expr]) -> Result<Expr, AllocError>
    ensures { IfOk result (λ r. tree_of r ≡ over_all (tree_of t) (map tree_of us.now)) }
{
    match us.split_first() {
        None => Ok(t),
        Some((u, rest)) => {
            let t = over(alloc, t, u)?;
            let all = over_all(alloc, t, rest)?;
            Ok(all)
        }
    }
}

/// The numerator n times the factors; a numerator 1 isn't written before a factor.
pub fn above(alloc: Global, n: &Expr, us: &[Expr]) -> Result<Expr, AllocError>
    ensures { IfOk result (λ r. tree_of r ≡ above (tree_of n.now) (map tree_of us.now)) }
{
    match us.split_first() {
        None => {
            let t = n.copy(alloc)?;
            Ok(t)
        }
        Some((u, rest)) => {
            if n.same(&Expr::Num(1)) {
                let first = u.copy(alloc)?;
                let t = times_all(alloc, first, rest)?;
                return Ok(t);
            }
            let first = n.copy(alloc)?;
            let t = times_all(alloc, first, us)?;
            Ok(t)
        }
    }
}

// t u
fn times(alloc: Global, t: Expr, u: &Expr) -> Result<Expr, AllocError>
    ensures { IfOk result (λ r. tree_of r ≡ mul (tree_of t) (tree_of u.now)) }
{
    let left = Box::new(alloc, t)?;
    let right = Box::new(alloc, u.copy(alloc)?)?;
    Ok(Expr::Mul(left, right))
}

// t / u
fn over(alloc: Global, t: Expr, u: &Expr) -> Result<Expr, AllocError>
    ensures { IfOk result (λ r. tree_of r ≡ div (tree_of t) (tree_of u.now)) }
{
    let left = Box::new(alloc, t)?;
    let right = Box::new(alloc, u.copy(alloc)?)?;
    Ok(Expr::Div(left, right))
}
