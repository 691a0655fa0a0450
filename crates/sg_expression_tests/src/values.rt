use sg_expr::Expr;
use sg_num::Rat;
use sg_value::value_at;
use std::alloc::{AllocError, Global};
use std::test::Fail;

/// The sum of 1/j from 1 on.
fn harmonic(alloc: Global) -> Result<Expr, AllocError> {
    let one = Box::new(alloc, Expr::Num(1))?;
    let reciprocal = Expr::Div(one, Box::new(alloc, Expr::Here)?);
    let body = Box::new(alloc, reciprocal)?;
    Ok(Expr::Sum { from: 1, body })
}

#[test]
fn a_harmonic_number(rt: HostRuntime) -> Result<(), Fail> {
    let e = harmonic(rt.alloc())?;
    let got = value_at(&e, 0, 10)?;
    assert_eq!(rt; got, Rat::new(7381, 2520));
    Ok(())
}
