use sg_expr::Expr;
use sg_plain::{closed_form, plain_form, telescopes};
use sg_reciprocals::is_reciprocal;
use std::alloc::{AllocError, Global};
use std::test::Fail;

fn plus(alloc: Global, left: Expr, right: Expr) -> Result<Expr, AllocError> {
    Ok(Expr::Add(Box::new(alloc, left)?, Box::new(alloc, right)?))
}

fn times(alloc: Global, c: i128, right: Expr) -> Result<Expr, AllocError> {
    let left = Box::new(alloc, Expr::Num(c))?;
    Ok(Expr::Mul(left, Box::new(alloc, right)?))
}

fn minus(alloc: Global, e: Expr) -> Result<Expr, AllocError> {
    Ok(Expr::Neg(Box::new(alloc, e)?))
}

fn over(alloc: Global, left: Expr, d: i128) -> Result<Expr, AllocError> {
    let right = Box::new(alloc, Expr::Num(d))?;
    Ok(Expr::Div(Box::new(alloc, left)?, right))
}

fn power(alloc: Global, e: u128) -> Result<Expr, AllocError> {
    Ok(Expr::Pow(Box::new(alloc, Expr::Here)?, e))
}

/// Whether the sum of f from a on has the closed form that is wanted.
fn sums_to(alloc: Global, f: Expr, a: i64, want: Expr) -> Result<bool, AllocError> {
    match closed_form(alloc, &f, a)? {
        Some(h) => Ok(h.same(&want)),
        None => Ok(false),
    }
}

/// Whether the sum of f from a on isn't plain.
fn is_left(alloc: Global, f: Expr, a: i64) -> Result<bool, AllocError> {
    Ok(closed_form(alloc, &f, a)?.is_none())
}

/// 0, k and -5.
#[test]
fn sums_of_flat_polynomials(rt: HostRuntime) -> Result<(), Fail> {
    let alloc = rt.alloc();
    assert!(rt; sums_to(alloc, Expr::Num(0), 1, Expr::Num(0))?);
    let want = plus(alloc, power(alloc, 2)?, Expr::Here)?;
    assert!(rt; sums_to(alloc, Expr::Here, 1, over(alloc, want, 2)?)?);
    let f = minus(alloc, Expr::Num(5))?;
    let want = minus(alloc, times(alloc, 5, Expr::Here)?)?;
    assert!(rt; sums_to(alloc, f, 3, plus(alloc, want, Expr::Num(10))?)?);
    Ok(())
}

/// k from 65, k^5, 65,537, and k/2.
#[test]
fn what_is_not_plain_is_left(rt: HostRuntime) -> Result<(), Fail> {
    let alloc = rt.alloc();
    assert!(rt; is_left(alloc, Expr::Here, 65)?);
    assert!(rt; is_left(alloc, power(alloc, 5)?, 1)?);
    assert!(rt; is_left(alloc, Expr::Num(65537), 1)?);
    assert!(rt; is_left(alloc, over(alloc, Expr::Here, 2)?, 1)?);
    Ok(())
}

/// k^2 and its differences 2*k+1, with 2*k, and with a quotient.
#[test]
fn differences_of_polynomials(rt: HostRuntime) -> Result<(), Fail> {
    let alloc = rt.alloc();
    let g = power(alloc, 2)?;
    let even = times(alloc, 2, Expr::Here)?;
    assert_eq!(rt; telescopes(&even, &g), Some(false));
    let odd = plus(alloc, even, Expr::Num(1))?;
    assert_eq!(rt; telescopes(&odd, &g), Some(true));
    let f = over(alloc, odd, 1)?;
    assert_eq!(rt; telescopes(&f, &g), None);
    Ok(())
}

/// k*(k+2) and k/2.
#[test]
fn plain_polynomials_in_canonical_form(rt: HostRuntime) -> Result<(), Fail> {
    let alloc = rt.alloc();
    let factor = plus(alloc, Expr::Here, Expr::Num(2))?;
    let f = Expr::Mul(Box::new(alloc, Expr::Here)?, Box::new(alloc, factor)?);
    let want = plus(alloc, power(alloc, 2)?, times(alloc, 2, Expr::Here)?)?;
    let got = plain_form(alloc, &f)?.ok_or("plain")?;
    assert!(rt; got.same(&want));
    let half = over(alloc, Expr::Here, 2)?;
    assert!(rt; plain_form(alloc, &half)?.is_none());
    Ok(())
}

/// c/(k+b).
fn quotient(alloc: Global, c: i128, b: i128) -> Result<Expr, AllocError> {
    let below = plus(alloc, Expr::Here, Expr::Num(b))?;
    let left = Box::new(alloc, Expr::Num(c))?;
    Ok(Expr::Div(left, Box::new(alloc, below)?))
}

#[test]
fn reciprocals_are_found(rt: HostRuntime) -> Result<(), Fail> {
    let alloc = rt.alloc();
    assert!(rt; is_reciprocal(&quotient(alloc, 3, 7)?));
    assert!(rt; !is_reciprocal(&quotient(alloc, 0, 1)?));
    assert!(rt; !is_reciprocal(&over(alloc, Expr::Here, 2)?));
    Ok(())
}
