ghost use Rattle.std.specs.Prelude.{◌≡◌, [], ◌∷◌, ◌++◌, IfOk, IfErr, OnOk};
ghost use Rattle.sg_num.specs.Stopped.{KeepsWideStep};
ghost use Rattle.sg_ratfun.specs.Fractions.{ratio};
ghost use Rattle.sg_ratfun.specs.Reduced.{IsReduced};
ghost use Rattle.sg_tower.specs.Terms.{HasTerms};
ghost use Rattle.sg_laurent.specs.Elements.{exponents};
ghost use Rattle.sg_products.specs.Readings.{laurents, IsFlatTerm};

use sg_laurent::{Laurent, Term};
use sg_num::{Field, Row, Stop};
use sg_ratfun::RatFun;
use sg_tower::FlatTerm;
use std::alloc::{AllocError, Global};

/// The terms in descending order, those of the last product compared first.
pub fn descending_terms<F: Field>(
    alloc: Global,
    alphas: &[RatFun<F>],
    e: &Laurent<RatFun<F>>,
) -> Result<Row<FlatTerm<F>>, Stop>
    ensures value { IfOk result (HasTerms (laurents F.val alphas.now) F.val e.now) }
    ensures wide { IfErr result KeepsWideStep }
{
    let terms = e.terms(alphas.len());
    let mut row = Row::new(alloc);
    for i in 0..terms.len() {
        let t = flat_term(alloc, &terms[i])?;
        row.push(t)?;
    }
    Ok(row)
}

// The term with its exponents as a list.
fn flat_term<F: Field>(alloc: Global, t: &Term<RatFun<F>>) -> Result<FlatTerm<F>, Stop>
    ensures value { IfOk result (IsFlatTerm F.val t.now) }
    ensures wide { IfErr result KeepsWideStep }
{
    let coeff = t.coeff.copy(alloc)?;
    // the clause of this call says that the coefficient is in lowest terms
    let _size = coeff.den_len();
    let exps = listed(alloc, t.exps.as_slice())?;
    Ok(FlatTerm { exps, coeff })
}

/// The exponents as a list.
pub(crate) fn listed(alloc: Global, exps: &[i128]) -> Result<Row<i128>, AllocError>
    ensures { IfOk result (λ r. r ≡ exps.now) }
{
    let mut row = Row::new(alloc);
    for i in 0..exps.len() {
        let e = exps[i];
        pushed(&mut row, e)?;
    }
    Ok(row)
}

/// One exponent more.
pub(crate) fn pushed(row: &mut Row<i128>, e: i128) -> Result<(), AllocError>
    ensures { OnOk result (row.new ≡ row.old ++ e ∷ []) }
{
    row.push(e)?;
    Ok(())
}
