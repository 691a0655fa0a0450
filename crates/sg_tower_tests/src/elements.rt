ghost use Rattle.std.specs.Prelude.{◌≡◌, ◌+◌, [], length, pos, IfOk};
ghost use Rattle.sg_spec.specs.Tree.{numeral, here, add, neg, div, power, sum_from};
ghost use Rattle.sg_expr.specs.Tree.{tree_of};
ghost use Rattle.sg_build.specs.Letters.{letter, HasNoLetter};
ghost use Rattle.sg_build.specs.Placed.{IsPlaceable};

use crate::made::polynomial;
use sg_bottom::Bottom;
use sg_build::{Letters, elem_at, express, place, value_in};
use sg_expr::Expr;
use sg_num::{Field, Rat, Row, Stop};
use sg_poly::Poly;
use sg_ratfun::RatFun;
use sg_tower::Tower;
use std::alloc::{AllocError, Global};
use std::test::Fail;

/// The function with these coefficients above and below, the lowest first; 0 where those below are 0.
fn function(alloc: Global, upper: &[i128], lower: &[i128]) -> Result<RatFun<Rat>, Stop> {
    let num = polynomial(alloc, upper)?;
    let den = polynomial(alloc, lower)?;
    if den.is_zero() {
        return RatFun::zero(alloc);
    }
    RatFun::new(alloc, num, den)
}

/// Whether the function is expressed as this tree.
fn is_expressed<F: Letters, T: Tower<K = F>>(
    alloc: Global,
    tower: &T,
    f: &RatFun<F>,
    want: &Expr,
) -> Result<bool, Stop>
    requires no_products { 0 ≡ length (T.reading F.vars F.val tower.now).formal.products }
    requires no_sums { 0 ≡ (T.reading F.vars F.val tower.now).formal.sums }
{
    let e = tower.lift(alloc, f)?;
    let t = express(alloc, tower, &[], &[], &e)?;
    Ok(t.same(want))
}

/// -3/k from 6/(-2k)
#[test]
fn expresses_a_function(rt: HostRuntime) -> Result<(), Fail> {
    let alloc = rt.alloc();
    let three = Box::new(alloc, Expr::Num(3))?;
    let inner = Box::new(alloc, Expr::Div(three, Box::new(alloc, Expr::Here)?))?;
    let f = function(alloc, &[6], &[0, -2])?;
    let tower: Bottom<Rat> = Bottom::none(alloc);
    assert!(rt; is_expressed(alloc, &tower, &f, &Expr::Neg(inner))?);
    let parameter: Option<Rat> = Letters::param(alloc)?;
    assert!(rt; parameter.is_none());
    Ok(())
}

/// 1/k
fn reciprocal(alloc: Global) -> Result<Expr, AllocError>
    ensures { IfOk result (λ e. tree_of e ≡ div (numeral (pos 1)) here) }
{
    let one = Box::new(alloc, Expr::Num(1))?;
    let below = Box::new(alloc, Expr::Here)?;
    Ok(Expr::Div(one, below))
}

/// The sum of 1/j from 1 on.
fn harmonic(alloc: Global) -> Result<Expr, AllocError>
    ensures { IfOk result (λ e. tree_of e ≡ sum_from (pos 1) (div (numeral (pos 1)) here)) }
{
    let body = Box::new(alloc, reciprocal(alloc)?)?;
    Ok(Expr::Sum { from: 1, body })
}

/// The value, where no parameter is.
fn value(alloc: Global, e: &Expr, k: i64) -> Result<Option<Rat>, Stop>
    requires { HasNoLetter 0 (tree_of e.now) }
{
    let found: Option<Rat> = value_in(alloc, e, k)?;
    Ok(found)
}

/// H(3) is 11/6, and 1/k has no value at 0.
#[test]
fn evaluates_expressions(rt: HostRuntime) -> Result<(), Fail> {
    let alloc = rt.alloc();
    let sum = harmonic(alloc)?;
    assert_eq!(rt; value(alloc, &sum, 3)?, Rat::new(11, 6));
    let inverse = reciprocal(alloc)?;
    assert_eq!(rt; value(alloc, &inverse, 0)?, None);
    Ok(())
}

/// The value of the function.
fn value_at<F: Letters, T: Tower<K = F>>(
    alloc: Global,
    tower: &T,
    f: &RatFun<F>,
    k: i64,
) -> Result<Option<F>, Stop>
    requires { 0 ≡ length (T.reading F.vars F.val tower.now).formal.products + (T.reading F.vars F.val tower.now).formal.sums }
{
    let e = tower.lift(alloc, f)?;
    let v = elem_at(alloc, tower, &e, k, &[])?;
    Ok(v)
}

/// 1/k is 1/2 at 2 and has a pole at 0.
#[test]
fn evaluates_an_element(rt: HostRuntime) -> Result<(), Fail> {
    let alloc = rt.alloc();
    let inverse = function(alloc, &[1], &[0, 1])?;
    let tower: Bottom<Rat> = Bottom::none(alloc);
    assert_eq!(rt; value_at(alloc, &tower, &inverse, 2)?, Rat::new(1, 2));
    assert_eq!(rt; value_at(alloc, &tower, &inverse, 0)?, None);
    Ok(())
}

/// (k^2-1)/(k+1)
fn quotient(alloc: Global) -> Result<Expr, AllocError>
    ensures { IfOk result (λ e. tree_of e ≡ div (add (power here 2) (neg (numeral (pos 1)))) (add here (numeral (pos 1)))) }
{
    let square = Box::new(alloc, Expr::Pow(Box::new(alloc, Expr::Here)?, 2))?;
    let less = Box::new(alloc, Expr::Neg(Box::new(alloc, Expr::Num(1))?))?;
    let above = Box::new(alloc, Expr::Add(square, less))?;
    let one = Box::new(alloc, Expr::Num(1))?;
    let below = Box::new(alloc, Expr::Add(Box::new(alloc, Expr::Here)?, one))?;
    Ok(Expr::Div(above, below))
}

/// The expression of the element that an expression without sums and products stands for.
fn expressed_again<F: Letters, T: Tower<K = F>>(
    alloc: Global,
    tower: &T,
    e: &Expr,
) -> Result<Expr, Stop>
    requires no_products { 0 ≡ length (T.reading F.vars F.val tower.now).formal.products }
    requires no_sums { 0 ≡ (T.reading F.vars F.val tower.now).formal.sums }
    requires placeable { IsPlaceable (letter F.vars) (T.reading F.vars F.val tower.now) [] [] [] (tree_of e.now) }
{
    let known = Row::new(alloc);
    let x = place(alloc, tower, &[], &[], known.as_slice(), e)?;
    let t = express(alloc, tower, &[], &[], &x)?;
    Ok(t)
}

/// (k^2-1)/(k+1) is k-1.
#[test]
fn places_a_quotient(rt: HostRuntime) -> Result<(), Fail> {
    let alloc = rt.alloc();
    let e = quotient(alloc)?;
    let tower: Bottom<Rat> = Bottom::none(alloc);
    let t = expressed_again(alloc, &tower, &e)?;
    let less = Box::new(alloc, Expr::Neg(Box::new(alloc, Expr::Num(1))?))?;
    let want = Expr::Add(Box::new(alloc, Expr::Here)?, less);
    assert!(rt; t.same(&want));
    Ok(())
}
