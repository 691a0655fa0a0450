ghost use Rattle.std.specs.Prelude.{◌≡◌, length, IfOk, IfErr, IsTrue, ◌↔◌};
ghost use Rattle.sg_algebra.specs.Coefficients.{Each};
ghost use Rattle.sg_num.specs.Stopped.{KeepsWideStep};
ghost use Rattle.sg_laurent.specs.Elements.{exponents};
ghost use Rattle.sg_laurent.specs.Exponents.{unit_exponents};
ghost use Rattle.sg_products.specs.Supports.{Has, Grows, AreSupports};

use crate::flat::{listed, pushed};
use sg_laurent::{Laurent, Term};
use sg_num::{Field, Row, Stop};
use sg_ratfun::RatFun;
use std::alloc::{AllocError, Global};

/// Lists of exponents: first that of zeros, then those of the terms of the elements, each once.
pub(crate) fn supports<F: Field>(
    alloc: Global,
    alphas: &[RatFun<F>],
    fs: &Row<Laurent<RatFun<F>>>,
) -> Result<Row<Row<i128>>, Stop>
    ensures value { IfOk result (AreSupports F.val alphas.now fs.now) }
    ensures wide { IfErr result KeepsWideStep }
{
    let n = alphas.len();
    let zeros = zero_list(alloc, n)?;
    let mut es = Row::new(alloc);
    es.push(zeros)?;
    for i in 0..fs.len() {
        let f = fs.get(i);
        let terms = f.terms(n);
        es = with_terms(alloc, n, es, terms)?;
    }
    Ok(es)
}

// n zeros.
fn zero_list(alloc: Global, n: usize) -> Result<Row<i128>, AllocError>
    ensures { IfOk result (λ r. r ≡ unit_exponents n n) }
{
    let mut row = Row::new(alloc);
    for _j in 0..n {
        pushed(&mut row, 0)?;
    }
    Ok(row)
}

// The lists, and the exponents of the terms that aren't among them.
fn with_terms<K: Field>(
    alloc: Global,
    n: usize,
    es: Row<Row<i128>>,
    terms: &[Term<K>],
) -> Result<Row<Row<i128>>, Stop>
    requires own { Each (λ e. length e ≡ n) es }
    requires fit { Each (λ t. length (exponents t) ≡ n) terms.now }
    ensures grows { IfOk result (Grows es) }
    ensures all { IfOk result (λ r. Each (λ t. Has (exponents t) r) terms.now) }
    ensures fit { IfOk result (Each (λ e. length e ≡ n)) }
    ensures wide { IfErr result KeepsWideStep }
{
    let mut row = es;
    for i in 0..terms.len() {
        let t = &terms[i];
        row = with_list(alloc, n, row, t.exps.as_slice())?;
    }
    Ok(row)
}

// The lists, and this one where it isn't among them.
fn with_list(
    alloc: Global,
    n: usize,
    es: Row<Row<i128>>,
    e: &[i128],
) -> Result<Row<Row<i128>>, Stop>
    requires own { Each (λ e. length e ≡ n) es }
    requires fit { length e.now ≡ n }
    ensures grows { IfOk result (Grows es) }
    ensures has { IfOk result (Has e.now) }
    ensures fit { IfOk result (Each (λ e. length e ≡ n)) }
    ensures wide { IfErr result KeepsWideStep }
{
    if is_among(&es, e) {
        return Ok(es);
    }
    let list = listed(alloc, e)?;
    let mut row = es;
    row.push(list)?;
    Ok(row)
}

// Whether the list is one of these.
fn is_among(es: &Row<Row<i128>>, e: &[i128]) -> bool
    ensures { IsTrue result → Has e.now es.now }
{
    for i in 0..es.len() {
        let own = es.get(i);
        if are_same(own.as_slice(), e) {
            return true;
        }
    }
    false
}

// Whether two lists of exponents are one.
fn are_same(a: &[i128], b: &[i128]) -> bool
    ensures { IsTrue result ↔ (a.now ≡ b.now) }
{
    a == b
}
