use sg_expr::Expr;
use std::alloc::{AllocError, Global};
use std::test::Fail;

fn quotient(alloc: Global, left: Expr, right: Expr) -> Result<Expr, AllocError> {
    Ok(Expr::Div(Box::new(alloc, left)?, Box::new(alloc, right)?))
}

fn product(alloc: Global, left: Expr, right: Expr) -> Result<Expr, AllocError> {
    Ok(Expr::Mul(Box::new(alloc, left)?, Box::new(alloc, right)?))
}

fn sum(alloc: Global, from: i64, body: Expr) -> Result<Expr, AllocError> {
    let body = Box::new(alloc, body)?;
    Ok(Expr::Sum { from, body })
}

/// The sum of 1/j from 1 on.
fn harmonic(alloc: Global) -> Result<Expr, AllocError> {
    sum(alloc, 1, quotient(alloc, Expr::Num(1), Expr::Here)?)
}

#[test]
fn a_copy_is_the_same(rt: HostRuntime) -> Result<(), Fail> {
    let e = harmonic(rt.alloc())?;
    let copy = e.copy(rt.alloc())?;
    assert!(rt; e.same(&copy));
    let other = sum(
        rt.alloc(),
        2,
        quotient(rt.alloc(), Expr::Num(1), Expr::Here)?,
    )?;
    assert!(rt; !e.same(&other));
    Ok(())
}

/// H(k) + sum(j,1,k,H(j)/j), whose sums are H(k) and the sum of H(j)/j.
#[test]
fn lists_the_sums_from_the_inside(rt: HostRuntime) -> Result<(), Fail> {
    let alloc = rt.alloc();
    let outer = sum(alloc, 1, quotient(alloc, harmonic(alloc)?, Expr::Here)?)?;
    let left = Box::new(alloc, harmonic(alloc)?)?;
    let e = Expr::Add(left, Box::new(alloc, outer.copy(alloc)?)?);
    let sums = e.sums_of(alloc)?;
    assert_eq!(rt; sums.len(), 2);
    assert!(rt; sums.get(0).same(&harmonic(alloc)?));
    assert!(rt; sums.get(1).same(&outer));
    assert_eq!(rt; outer.join_sums(alloc, sums)?.len(), 2);
    assert!(rt; e.prods_of(alloc)?.is_empty());
    Ok(())
}

#[test]
fn lists_a_product_once(rt: HostRuntime) -> Result<(), Fail> {
    let alloc = rt.alloc();
    let body = Box::new(alloc, Expr::Num(2))?;
    let power = Expr::Prod { from: 1, body };
    let e = product(alloc, power.copy(alloc)?, power.copy(alloc)?)?;
    let prods = e.prods_of(alloc)?;
    assert_eq!(rt; prods.len(), 1);
    assert!(rt; prods.get(0).same(&power));
    assert_eq!(rt; e.join_prods(alloc, prods)?.len(), 1);
    Ok(())
}

/// n*k at n + 2 is (n+2)*k.
#[test]
fn moves_the_parameter_on(rt: HostRuntime) -> Result<(), Fail> {
    let alloc = rt.alloc();
    let e = product(alloc, Expr::Param, Expr::Here)?;
    let left = Box::new(alloc, Expr::Param)?;
    let plus = Expr::Add(left, Box::new(alloc, Expr::Num(2))?);
    let want = product(alloc, plus, Expr::Here)?;
    assert!(rt; e.substitute(alloc, 2)?.same(&want));
    assert!(rt; e.substitute(alloc, 0)?.same(&e));
    Ok(())
}
