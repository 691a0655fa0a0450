use crate::sample;
use sg_expr::Expr;
use std::alloc::{AllocError, Global};
use std::test::Fail;

fn times(alloc: Global, a: Expr, b: Expr) -> Result<Expr, AllocError> {
    let left = Box::new(alloc, a)?;
    let right = Box::new(alloc, b)?;
    Ok(Expr::Mul(left, right))
}

fn over(alloc: Global, a: Expr, b: Expr) -> Result<Expr, AllocError> {
    let above = Box::new(alloc, a)?;
    let below = Box::new(alloc, b)?;
    Ok(Expr::Div(above, below))
}

fn power(alloc: Global, e: u128) -> Result<Expr, AllocError> {
    let base = Box::new(alloc, Expr::Here)?;
    Ok(Expr::Pow(base, e))
}

/// `c*k^p*H(k,2)`.
fn with_squares(alloc: Global, c: i128, p: u128) -> Result<Expr, AllocError> {
    let body = over(alloc, Expr::Num(1), power(alloc, 2)?)?;
    let squares = Expr::Sum {
        from: 1,
        body: Box::new(alloc, body)?,
    };
    times(
        alloc,
        times(alloc, Expr::Num(c), power(alloc, p)?)?,
        squares,
    )
}

/// The texts of these samples are `4*k^2*H(k,2)/(k+1)` and `7*k^0*H(k,2)/k`.
#[test]
fn samples_are_those_of_the_generator(rt: HostRuntime) -> Result<(), Fail> {
    let one = Box::new(rt.alloc(), Expr::Num(1))?;
    let next = Expr::Add(Box::new(rt.alloc(), Expr::Here)?, one);
    let first = over(rt.alloc(), with_squares(rt.alloc(), 4, 2)?, next)?;
    assert!(rt; sample(rt.alloc(), 5, 1)?.same(&first));
    let last = over(rt.alloc(), with_squares(rt.alloc(), 7, 0)?, Expr::Here)?;
    assert!(rt; sample(rt.alloc(), u64::MAX, 999)?.same(&last));
    Ok(())
}
