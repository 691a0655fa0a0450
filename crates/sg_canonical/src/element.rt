ghost use Rattle.std.specs.Prelude.{◌≡◌, ◌≢◌, ◌+◌, ◌<◌, ◌≤◌, ◌==◌, ◌∷◌, ◌++◌, [], pos, length, map, All, IfOk, IfErr, OnOk, reverse};
ghost use Rattle.sg_num.specs.Stopped.{KeepsWideStep};
ghost use Rattle.sg_expr.specs.Tree.{tree_of};
ghost use Rattle.sg_spec.specs.Canonical.{raised, raised_factor, with_upper, grouped, joined, signed_terms, element_tree};
ghost use Rattle.sg_canonical.specs.Signs.{signed_of};
ghost use Rattle.sg_canonical.specs.Parts.{part_at, own_terms, IsRun};

use crate::factors::power;
use crate::monomials::{lower_factors, push_coefficient};
use crate::products::{push_above, push_below};
use crate::quotient::Quotient;
use crate::signs::{Signed, total_tree};
use sg_expr::Expr;
use sg_num::{Row, Stop};
use std::alloc::{AllocError, Global};

/// A term of an element: the powers of the sums, the last first, the exponents of the products, in their order, and a
/// coefficient.
#[derive(Drop)]
pub struct Part {
    pub powers: Row<u128>,
    pub exponents: Row<i128>,
    pub quotient: Quotient,
}

/// The canonical tree of the element with these terms in descending order, over these products and these sums, the last sum
/// first.
pub fn element_tree(
    alloc: Global,
    products: &[Expr],
    sums: &[Expr],
    parts: &[Part],
) -> Result<Expr, Stop>
    requires few { length sums.now ≤ 64 }
    requires sized { All (λ p. length sums.now ≡ length p.powers) parts.now }
    ensures tree { IfOk result (λ t. tree_of t ≡ element_tree (map tree_of products.now) (reverse (map tree_of sums.now)) (map (part_at 0) parts.now)) }
    ensures wide { IfErr result KeepsWideStep }
{
    let mut terms = Row::new(alloc);
    push_signed(alloc, products, sums, 0, parts, &mut terms)?;
    let t = total_tree(alloc, false, terms.as_slice())?;
    Ok(t)
}

// Adds the terms over these sums, the last first, which is the one at i.
fn push_signed(
    alloc: Global,
    products: &[Expr],
    sums: &[Expr],
    i: usize,
    parts: &[Part],
    out: &mut Row<Signed>,
) -> Result<(), Stop>
    requires few { i + length sums.now ≤ 64 }
    requires sized { All (λ p. i + length sums.now ≡ length p.powers) parts.now }
    ensures terms { OnOk result (map signed_of out.new
        ≡ map signed_of out.old ++ signed_terms (map tree_of products.now) (map tree_of sums.now) (map (part_at i) parts.now)) }
    ensures wide { IfErr result KeepsWideStep }
{
    match sums.split_first() {
        None => push_parts(alloc, products, parts, out),
        Some((s, below)) => {
            match parts.split_first() {
                None => Ok(()),
                Some((p, rest)) => {
                    let e = *p.powers.get(i);
                    let n = 1 + run(i, e, rest);
                    let (head, tail) = parts.split_at(n);
                    let mut inner = Row::new(alloc);
                    push_signed(alloc, products, below, i + 1, head, &mut inner)?;
                    push_raised(alloc, s, e, inner, out)?;
                    push_signed(alloc, products, sums, i, tail, out)
                }
            }
        }
    }
}

// How many of the first parts have this power of the sum at i, the last sum first.
fn run(i: usize, e: u128, parts: &[Part]) -> usize
    requires { All (λ p. i < length p.powers) parts.now }
    ensures inside { result ≤ length parts.now }
    ensures run { IsRun i e parts.now result }
{
    match parts.split_first() {
        None => 0,
        Some((p, rest)) => {
            if *p.powers.get(i) == e {
                1 + run(i, e, rest)
            } else {
                0
            }
        }
    }
}

// Adds the terms of parts without sums.
fn push_parts(
    alloc: Global,
    products: &[Expr],
    parts: &[Part],
    out: &mut Row<Signed>,
) -> Result<(), Stop>
    ensures terms { OnOk result (map signed_of out.new ≡ map signed_of out.old ++ joined (own_terms (map tree_of products.now)) parts.now) }
    ensures wide { IfErr result KeepsWideStep }
{
    match parts.split_first() {
        None => Ok(()),
        Some((p, rest)) => {
            push_part(alloc, products, p, out)?;
            push_parts(alloc, products, rest, out)
        }
    }
}

// Adds the terms of a part without sums.
fn push_part(alloc: Global, products: &[Expr], p: &Part, out: &mut Row<Signed>) -> Result<(), Stop>
    ensures terms { OnOk result (map signed_of out.new ≡ map signed_of out.old ++ own_terms (map tree_of products.now) p.now) }
    ensures wide { IfErr result KeepsWideStep }
{
    let mut uppers = Row::new(alloc);
    push_above(alloc, products, p.exponents.as_slice(), &mut uppers)?;
    let mut lowers = lower_factors(alloc, p.quotient.lower.as_slice())?;
    push_below(alloc, products, p.exponents.as_slice(), &mut lowers)?;
    push_coefficient(alloc, p.quotient.upper.as_slice(), uppers, lowers, out)
}

// Adds the terms times a power of a sum.
fn push_raised(
    alloc: Global,
    t: &Expr,
    e: u128,
    ss: Row<Signed>,
    out: &mut Row<Signed>,
) -> Result<(), AllocError>
    ensures terms { OnOk result (map signed_of out.new ≡ map signed_of out.old ++ raised (tree_of t.now) e (map signed_of ss)) }
{
    if e == 0 {
        let mut all = ss;
        out.append(&mut all)?;
        return Ok(());
    }
    if ss.is_empty() {
        return Ok(());
    }
    let s = one_raised(alloc, t, e, ss)?;
    out.push(s)?;
    Ok(())
}

// The terms times a power of a sum, which isn't 0, as one term.
fn one_raised(alloc: Global, t: &Expr, e: u128, ss: Row<Signed>) -> Result<Signed, AllocError>
    requires power { e ≢ 0 }
    requires some { ss ≢ [] }
    ensures { IfOk result (λ r. raised (tree_of t.now) e (map signed_of ss) ≡ signed_of r ∷ []) }
{
    if ss.len() == 1 {
        let s = with_factor(alloc, only(ss), t, e)?;
        return Ok(s);
    }
    let minus = ss.get(0).minus;
    let s = grouped(alloc, minus, ss.as_slice(), t, e)?;
    Ok(s)
}

// The term times a power of a sum.
fn with_factor(alloc: Global, s: Signed, t: &Expr, e: u128) -> Result<Signed, AllocError>
    requires { e ≢ 0 }
    ensures { IfOk result (λ r. signed_of r ≡ with_upper (signed_of s) (raised_factor (tree_of t.now) e)) }
{
    let mut uppers = s.uppers;
    uppers.push(power(alloc, t, e)?)?;
    Ok(Signed {
        minus: s.minus,
        numerator: s.numerator,
        uppers,
        lowers: s.lowers,
    })
}

// The only one of these.
fn only(ss: Row<Signed>) -> Signed
    requires { length ss ≡ 1 }
    ensures { ss ≡ result ∷ [] }
{
    let mut list = ss;
    list.remove(0)
}

// All terms in parentheses, times a power of a sum, with the sign of the first.
fn grouped(
    alloc: Global,
    minus: bool,
    ss: &[Signed],
    t: &Expr,
    e: u128,
) -> Result<Signed, AllocError>
    requires { e ≢ 0 }
    ensures { IfOk result (λ r. signed_of r ≡ grouped minus (map signed_of ss.now) (raised_factor (tree_of t.now) e)) }
{
    let mut uppers = Row::new(alloc);
    uppers.push(total_tree(alloc, minus, ss)?)?;
    uppers.push(power(alloc, t, e)?)?;
    Ok(Signed {
        minus,
        numerator: Expr::Num(1),
        uppers,
        lowers: Row::new(alloc),
    })
}
