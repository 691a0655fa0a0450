ghost use Rattle.std.specs.Prelude.{◌≡◌, ℕ, ◌<◌, IfOk, IfErr, length, map};
ghost use Rattle.sg_algebra.proofs.Polynomial.{coefficient as coefficient_at};
ghost use Rattle.sg_num.specs.Stopped.{KeepsWideStep};
ghost use Rattle.sg_tower.specs.Elements.{IsSum, IsDifference, IsMultiple, IsCopy};
ghost use Rattle.sg_ratfun.specs.Fractions.{ratio};
ghost use Rattle.sg_laurent.specs.Elements.{Same, element};
ghost use Rattle.sg_products.specs.Readings.{count, laurents};
ghost use Rattle.sg_products.specs.Solving.{IsExtended, IsCombined, StartRows, power_at};

use crate::partial::Partial;
use sg_laurent::{Laurent, Term};
use sg_matrix::{constant, plus_constants, unit_row};
use sg_num::{Field, Row, Stop};
use sg_ratfun::RatFun;
use smallvec::SmallVec;
use std::alloc::Global;

/// The sum of the rows with constants as factors.
pub(crate) fn combined<F: Field>(
    alloc: Global,
    alphas: &[RatFun<F>],
    cs: &Row<F>,
    rows: &Row<Partial<F>>,
) -> Result<Partial<F>, Stop>
    ensures value { IfOk result (IsCombined F.val alphas.now (coefficient_at (map F.val cs.now)) rows.now) }
    ensures wide { IfErr result KeepsWideStep }
{
    let mut sum = Partial {
        coeffs: Row::new(alloc),
        value: Laurent::zero(alloc, alphas.len()),
        left: Laurent::zero(alloc, alphas.len()),
    };
    for i in 0..rows.len() {
        let c = constant(alloc, cs, i)?;
        sum = extended(alloc, alphas, sum, &c, rows.get(i))?;
    }
    Ok(sum)
}

// acc + c row.
fn extended<F: Field>(
    alloc: Global,
    alphas: &[RatFun<F>],
    acc: Partial<F>,
    c: &F,
    row: &Partial<F>,
) -> Result<Partial<F>, Stop>
    ensures value { IfOk result (IsExtended F.val alphas.now acc (F.val c.now) row.now) }
    ensures wide { IfErr result KeepsWideStep }
{
    if c.is_zero() {
        return Ok(acc);
    }
    let coeffs = plus_constants(alloc, &acc.coeffs, c, &row.coeffs)?;
    let more = multiple(alloc, alphas, c, &row.value)?;
    let value = sum_of(alloc, alphas, &acc.value, &more)?;
    let rest = multiple(alloc, alphas, c, &row.left)?;
    let left = sum_of(alloc, alphas, &acc.left, &rest)?;
    Ok(Partial {
        coeffs,
        value,
        left,
    })
}

/// The sum of two elements.
pub(crate) fn sum_of<F: Field>(
    alloc: Global,
    alphas: &[RatFun<F>],
    x: &Laurent<RatFun<F>>,
    y: &Laurent<RatFun<F>>,
) -> Result<Laurent<RatFun<F>>, Stop>
    ensures value { IfOk result (IsSum (laurents F.val alphas.now) x.now y.now) }
    ensures wide { IfErr result KeepsWideStep }
{
    let r = x.add(alloc, alphas.len(), y)?;
    Ok(r)
}

/// The difference of two elements.
pub(crate) fn difference_of<F: Field>(
    alloc: Global,
    alphas: &[RatFun<F>],
    x: &Laurent<RatFun<F>>,
    y: &Laurent<RatFun<F>>,
) -> Result<Laurent<RatFun<F>>, Stop>
    ensures value { IfOk result (IsDifference (laurents F.val alphas.now) x.now y.now) }
    ensures wide { IfErr result KeepsWideStep }
{
    let r = x.sub(alloc, alphas.len(), y)?;
    Ok(r)
}

/// The element with one term, at these exponents.
pub(crate) fn power_of<F: Field>(
    alloc: Global,
    alphas: &[RatFun<F>],
    e: &[i128],
    c: &RatFun<F>,
) -> Result<Laurent<RatFun<F>>, Stop>
    requires { length e.now ≡ length alphas.now }
    ensures value { IfOk result (λ r. Same (ratio F.val) (count F.val alphas.now) (element (ratio F.val) (count F.val alphas.now) r)
        (power_at F.val alphas.now e.now (ratio F.val c.now))) }
    ensures wide { IfErr result KeepsWideStep }
{
    let exps = SmallVec::from_slice(alloc, e)?;
    let coeff = c.copy(alloc)?;
    let none = Laurent::zero(alloc, alphas.len());
    let r = none.with_term(alloc, alphas.len(), Term { exps, coeff })?;
    Ok(r)
}

// The element times a constant.
fn multiple<F: Field>(
    alloc: Global,
    alphas: &[RatFun<F>],
    c: &F,
    x: &Laurent<RatFun<F>>,
) -> Result<Laurent<RatFun<F>>, Stop>
    ensures value { IfOk result (IsMultiple (laurents F.val alphas.now) (F.val c.now) x.now) }
    ensures wide { IfErr result KeepsWideStep }
{
    let copy = c.copy(alloc)?;
    let k = RatFun::from_constant(alloc, copy)?;
    let r = x.scale(alloc, alphas.len(), &k)?;
    Ok(r)
}

/// The unit rows: no value yet, and all is left.
pub(crate) fn start<F: Field>(
    alloc: Global,
    alphas: &[RatFun<F>],
    fs: &Row<Laurent<RatFun<F>>>,
) -> Result<Row<Partial<F>>, Stop>
    ensures value { IfOk result (StartRows F.val alphas.now fs.now) }
    ensures wide { IfErr result KeepsWideStep }
{
    let mut rows = Row::new(alloc);
    for i in 0..fs.len() {
        let coeffs = unit_row(alloc, fs.len(), i)?;
        let left = copy_of(alloc, alphas, fs.get(i))?;
        let value = Laurent::zero(alloc, alphas.len());
        rows.push(Partial {
            coeffs,
            value,
            left,
        })?;
    }
    Ok(rows)
}

// The element once more.
fn copy_of<F: Field>(
    alloc: Global,
    alphas: &[RatFun<F>],
    x: &Laurent<RatFun<F>>,
) -> Result<Laurent<RatFun<F>>, Stop>
    ensures value { IfOk result (IsCopy (laurents F.val alphas.now) x.now) }
    ensures wide { IfErr result KeepsWideStep }
{
    let r = x.copy(alloc, alphas.len())?;
    Ok(r)
}
