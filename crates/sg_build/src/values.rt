ghost use Rattle.std.specs.Prelude.{◌≡◌, ◌<◌, ◌+ℤ◌, ℕ, ℤ, pos, IfOk, IfErr, IfSome, IfNone};
ghost use Rattle.sg_algebra.proofs.Value.{Value};
ghost use Rattle.sg_num.specs.Stopped.{KeepsWideStep};
ghost use Rattle.sg_expr.specs.Tree.{tree_of};
ghost use Rattle.sg_spec.specs.Tree.{Tree, neg, div, power};
ghost use Rattle.sg_spec.specs.Value.{how_many};
ghost use Rattle.sg_spec.specs.Worth.{HasWorth};
ghost use Rattle.sg_build.specs.Letters.{letter, HasNoLetter};
ghost use Rattle.sg_build.specs.Found.{Finds, IsFold, join_of, start_of};

use crate::letters::Letters;
use crate::numbers::{natural_power, parameter, product, sum, whole};
use sg_expr::Expr;
use sg_num::{Field, Stop};
use std::alloc::Global;

/// The value of an expression where the variable is k, with the parameter as an element of the field; None exactly where it has none:
/// a divisor that is evaluated is 0. The error is out of memory, or a step that doesn't fit 128 bits.
pub fn value_in<K: Letters>(alloc: Global, e: &Expr, k: i64) -> Result<Option<K>, Stop>
    requires no_letter { HasNoLetter K.vars (tree_of e.now) }
    ensures some { IfOk result (λ o. IfSome o (λ x. HasWorth (letter K.vars) (tree_of e.now) k (K.val x))) }
    ensures none { IfOk result (λ o. IfNone o ((v : Value K.vars) → ¬ HasWorth (letter K.vars) (tree_of e.now) k v)) }
    ensures wide { IfErr result KeepsWideStep }
{
    let place = k;
    let found: Option<K> = find_value(alloc, e, &place)?;
    Ok(found)
}

// The value by the parts.
#[cycle(find_value)]
fn find_value<K: Letters>(alloc: Global, e: &Expr, k: &i64) -> Result<Option<K>, Stop>
    requires { HasNoLetter K.vars (tree_of e.now) }
    ensures value { IfOk result (Finds K.val (HasWorth (letter K.vars) (tree_of e.now) k.now)) }
    ensures wide { IfErr result KeepsWideStep }
{
    match e {
        Expr::Num(c) => {
            let r: K = whole(alloc, c)?;
            Ok(Some(r))
        }
        Expr::Here => {
            let r: K = whole(alloc, &i128::from(*k))?;
            Ok(Some(r))
        }
        Expr::Param => {
            let r: K = parameter(alloc)?;
            Ok(Some(r))
        }
        Expr::Add(a, b) => {
            let x: Option<K> = find_value(alloc, a, k)?;
            let y: Option<K> = find_value(alloc, b, k)?;
            let r = sum(alloc, x, y)?;
            Ok(r)
        }
        Expr::Neg(a) => {
            let x: Option<K> = find_value(alloc, a, k)?;
            let r = opposite(alloc, x)?;
            Ok(r)
        }
        Expr::Mul(a, b) => {
            let x: Option<K> = find_value(alloc, a, k)?;
            let y: Option<K> = find_value(alloc, b, k)?;
            let r = product(alloc, x, y)?;
            Ok(r)
        }
        Expr::Div(a, b) => {
            let x: Option<K> = find_value(alloc, a, k)?;
            let y: Option<K> = find_value(alloc, b, k)?;
            let r = quotient(alloc, x, y)?;
            Ok(r)
        }
        Expr::Pow(a, e) => {
            let x: Option<K> = find_value(alloc, a, k)?;
            let r = raised(alloc, x, e)?;
            Ok(r)
        }
        Expr::Sum { from, body } => {
            let r: Option<K> = fold(alloc, Folding::Sum, body, from, k)?;
            Ok(r)
        }
        Expr::Prod { from, body } => {
            let r: Option<K> = fold(alloc, Folding::Product, body, from, k)?;
            Ok(r)
        }
    }
}

/// How the terms of a sum or a product are joined.
#[derive(Clone, Copy)]
pub enum Folding {
    Sum,
    Product,
}

// The terms from the first to the last, each joined on the right of what was folded so far.
#[cycle(find_value)]
fn fold<K: Letters>(
    alloc: Global,
    op: Folding,
    body: &Expr,
    from: &i64,
    last: &i64,
) -> Result<Option<K>, Stop>
    requires { HasNoLetter K.vars (tree_of body.now) }
    ensures value { IfOk result (Finds K.val (IsFold (letter K.vars) op (tree_of body.now) from.now last.now)) }
    ensures wide { IfErr result KeepsWideStep }
{
    let mut so_far: K = start(alloc, op)?;
    let terms = count(from, last);
    for i in 0..terms {
        let place = term_place(from, last, i);
        let term: Option<K> = find_value(alloc, body, &place)?;
        match term {
            None => return Ok(None),
            Some(x) => so_far = joined(alloc, op, &so_far, &x)?,
        }
    }
    Ok(Some(so_far))
}

// What the terms are joined to.
fn start<K: Field>(alloc: Global, op: Folding) -> Result<K, Stop>
    ensures value { IfOk result (λ r. K.val r ≡ start_of op) }
    ensures wide { IfErr result KeepsWideStep }
{
    match op {
        Folding::Sum => K::zero(alloc),
        Folding::Product => K::one(alloc),
    }
}

// How many whole numbers there are from the first to the last.
fn count(from: &i64, last: &i64) -> u128
    ensures { result ≡ how_many from.now last.now }
{
    if *last < *from {
        return 0;
    }
    u128::from(last.abs_diff(*from)) + 1
}

// The whole number that comes so many places after the first. The last one only bounds the place, so that the number fits.
fn term_place(from: &i64, last: &i64, i: u128) -> i64
    requires { i < how_many from.now last.now }
    ensures { result ≡ from.now +ℤ pos i }
{
    let _last = *last;
    (i128::from(*from) + i as i128) as i64
}

// The terms so far and the next one.
fn joined<K: Field>(alloc: Global, op: Folding, x: &K, y: &K) -> Result<K, Stop>
    ensures value { IfOk result (λ r. K.val r ≡ join_of op (K.val x.now) (K.val y.now)) }
    ensures wide { IfErr result KeepsWideStep }
{
    match op {
        Folding::Sum => x.add(alloc, y),
        Folding::Product => x.mul(alloc, y),
    }
}

// The opposite of a value.
fn opposite<K: Field>(alloc: Global, x: Option<K>) -> Result<Option<K>, Stop>
    ensures value { IfOk result (λ o. (l : Value K.vars) (k : ℤ) (s : Tree) → Finds K.val (HasWorth l s k) x → Finds K.val (HasWorth l (neg s) k) o) }
    ensures wide { IfErr result KeepsWideStep }
{
    match x {
        Some(x) => {
            let none = K::zero(alloc)?;
            let r = none.sub(alloc, &x)?;
            Ok(Some(r))
        }
        None => Ok(None),
    }
}

// The quotient of two values; None where the second is 0.
fn quotient<K: Field>(alloc: Global, x: Option<K>, y: Option<K>) -> Result<Option<K>, Stop>
    ensures value { IfOk result (λ o. (l : Value K.vars) (k : ℤ) (s t : Tree) → Finds K.val (HasWorth l s k) x → Finds K.val (HasWorth l t k) y
        → Finds K.val (HasWorth l (div s t) k) o) }
    ensures wide { IfErr result KeepsWideStep }
{
    match (x, y) {
        (Some(x), Some(y)) => {
            if y.is_zero() {
                return Ok(None);
            }
            let r = x.div(alloc, &y)?;
            Ok(Some(r))
        }
        _ => Ok(None),
    }
}

// The power of a value.
fn raised<K: Field>(alloc: Global, x: Option<K>, e: &u128) -> Result<Option<K>, Stop>
    ensures value { IfOk result (λ o. (l : Value K.vars) (k : ℤ) (s : Tree) → Finds K.val (HasWorth l s k) x
        → Finds K.val (HasWorth l (power s e.now) k) o) }
    ensures wide { IfErr result KeepsWideStep }
{
    match x {
        Some(x) => {
            let r = natural_power(alloc, &x, *e)?;
            Ok(Some(r))
        }
        None => Ok(None),
    }
}
