use sg_canonical::rational_tree;
use sg_expr::Expr;
use sg_num::{Rat, Row, Stop};
use sg_poly::Poly;
use sg_ratfun::RatFun;
use std::alloc::{AllocError, Global};
use std::test::Fail;

fn plus(alloc: Global, left: Expr, right: Expr) -> Result<Expr, AllocError> {
    Ok(Expr::Add(Box::new(alloc, left)?, Box::new(alloc, right)?))
}

fn times(alloc: Global, left: Expr, right: Expr) -> Result<Expr, AllocError> {
    Ok(Expr::Mul(Box::new(alloc, left)?, Box::new(alloc, right)?))
}

fn over(alloc: Global, left: Expr, right: Expr) -> Result<Expr, AllocError> {
    Ok(Expr::Div(Box::new(alloc, left)?, Box::new(alloc, right)?))
}

fn minus(alloc: Global, e: Expr) -> Result<Expr, AllocError> {
    Ok(Expr::Neg(Box::new(alloc, e)?))
}

fn power(alloc: Global, t: Expr, e: u128) -> Result<Expr, AllocError> {
    Ok(Expr::Pow(Box::new(alloc, t)?, e))
}

/// The number times the variable.
fn multiple(alloc: Global, n: i128) -> Result<Expr, AllocError> {
    times(alloc, Expr::Num(n), Expr::Here)
}

/// m^2+m
fn square_and_one(alloc: Global) -> Result<Expr, AllocError> {
    let square = power(alloc, Expr::Here, 2)?;
    plus(alloc, square, Expr::Here)
}

/// 3*m+2
fn three_and_two(alloc: Global) -> Result<Expr, AllocError> {
    let first = multiple(alloc, 3)?;
    plus(alloc, first, Expr::Num(2))
}

/// 6*m+1
fn six_and_one(alloc: Global) -> Result<Expr, AllocError> {
    let first = multiple(alloc, 6)?;
    plus(alloc, first, Expr::Num(1))
}

/// 2*m-1
fn two_less_one(alloc: Global) -> Result<Expr, AllocError> {
    let first = multiple(alloc, 2)?;
    let last = minus(alloc, Expr::Num(1))?;
    plus(alloc, first, last)
}

fn fractions(alloc: Global, list: &[(i128, i128)]) -> Result<Row<Rat>, Stop> {
    let mut row = Row::new(alloc);
    for i in 0..list.len() {
        let (n, d) = list[i];
        if let Some(r) = Rat::new(n, d) {
            row.push(r)?;
        }
    }
    Ok(row)
}

/// Whether the tree of the function with these coefficients above and below, the lowest first, is this one.
fn is_tree(
    alloc: Global,
    upper: &[(i128, i128)],
    lower: &[(i128, i128)],
    want: &Expr,
) -> Result<bool, Stop> {
    let num = Poly::from_coeffs(alloc, fractions(alloc, upper)?)?;
    let den = Poly::from_coeffs(alloc, fractions(alloc, lower)?)?;
    if den.is_zero() {
        return Ok(false);
    }
    let r = RatFun::new(alloc, num, den)?;
    let t = rational_tree(alloc, &r)?;
    Ok(t.same(want))
}

/// (m^2+m)/2 from (m+m^2)/2
#[test]
fn over_a_number(rt: HostRuntime) -> Result<(), Fail> {
    let alloc = rt.alloc();
    let want = over(alloc, square_and_one(alloc)?, Expr::Num(2))?;
    assert!(rt; is_tree(alloc, &[(0, 1), (1, 1), (1, 1)], &[(2, 1)], &want)?);
    Ok(())
}

/// (3*m+2)/(6*m+1) from (1/3+m/2)/(1/6+m)
#[test]
fn whole_coefficients(rt: HostRuntime) -> Result<(), Fail> {
    let alloc = rt.alloc();
    let want = over(alloc, three_and_two(alloc)?, six_and_one(alloc)?)?;
    assert!(rt; is_tree(alloc, &[(1, 3), (1, 2)], &[(1, 6), (1, 1)], &want)?);
    Ok(())
}

/// -3/(2*m-1) from (3/2)/(1/2-m)
#[test]
fn sign_in_front(rt: HostRuntime) -> Result<(), Fail> {
    let alloc = rt.alloc();
    let want = minus(alloc, over(alloc, Expr::Num(3), two_less_one(alloc)?)?)?;
    assert!(rt; is_tree(alloc, &[(3, 2)], &[(1, 2), (-1, 1)], &want)?);
    Ok(())
}
