ghost use Rattle.std.specs.Prelude.{◌≡◌, ℕ, ◌<◌, length, map, OnOk, IfOk, IfErr};
ghost use Rattle.sg_algebra.proofs.Value.{one_value, neg_value, ◌+ᵛ◌, ◌*ᵛ◌, ◌/ᵛ◌};
ghost use Rattle.sg_algebra.proofs.Polynomial.{zero_polynomial};
ghost use Rattle.sg_num.specs.Stopped.{KeepsWideStep};
ghost use Rattle.sg_poly.specs.Polynomials.{polynomial};
ghost use Rattle.sg_ratfun.specs.Fractions.{ratio};
ghost use Rattle.sg_first_order_theory.proofs.ValueFractions.{whole as as_value};
ghost use Rattle.sg_reduction_theory.proofs.Conditions.{alone as alone_at};
ghost use Rattle.sg_reduction_theory.proofs.Places.{Fits, Good};
ghost use Rattle.sg_constant.specs.Shares.{polys, over, shares};
ghost use Rattle.sg_constant.specs.Reductions.{IsAdded, IsReduction};

use crate::moving::Factors;
use crate::peeling::peeled;
use crate::polynomials::nothing;
use crate::shares::{Share, State};
use sg_num::{Field, Row, Stop};
use sg_poly::Poly;
use sg_ratfun::RatFun;
use std::alloc::Global;

// A polynomial, and a proper fraction.
#[derive(Drop)]
struct Mixed<F: Field> {
    whole: Poly<F>,
    upper: Poly<F>,
    lower: Poly<F>,
}

// The polynomials of several functions, and the shares that their proper fractions are reduced to.
#[derive(Drop)]
pub(crate) struct Reduction<F: Field> {
    pub(crate) wholes: Row<Poly<F>>,
    pub(crate) state: State<F>,
}

// The reduction of the functions, each apart: its polynomial, and its proper fraction settled.
pub(crate) fn reduced<F: Field>(
    alloc: Global,
    factors: &Factors<F>,
    fs: &[RatFun<F>],
) -> Result<Reduction<F>, Stop>
    requires inverse { F.val factors.now.a *ᵛ F.val factors.now.inverse ≡ one_value }
    requires minus { F.val factors.now.minus ≡ neg_value one_value }
    ensures reduced { IfOk result (λ r. IsReduction (F.val factors.now.a) (length fs.now) (map (ratio F.val) fs.now) (polys F.val r.wholes)
        (shares F.val r.state.settled) (shares F.val r.state.moved)) }
    ensures wide { IfErr result KeepsWideStep }
{
    let n = fs.len();
    let mut wholes = Row::new(alloc);
    let mut state = State {
        settled: Row::new(alloc),
        moved: Row::new(alloc),
    };
    for i in 0..n {
        let parts = divided(alloc, &fs[i])?;
        add_fraction(alloc, factors, &mut state, parts.upper, parts.lower, n, i)?;
        wholes.push(parts.whole)?;
    }
    Ok(Reduction { wholes, state })
}

// The rational function as the sum of a polynomial and a proper fraction.
fn divided<F: Field>(alloc: Global, f: &RatFun<F>) -> Result<Mixed<F>, Stop>
    ensures value { IfOk result (λ r. ratio F.val f.now ≡ as_value (polynomial F.val r.whole)
        +ᵛ as_value (polynomial F.val r.upper) /ᵛ as_value (polynomial F.val r.lower)) }
    ensures fits { IfOk result (λ r. (n i : ℕ) → Fits (over (alone_at n i (polynomial F.val r.upper)) (polynomial F.val r.lower))) }
    ensures wide { IfErr result KeepsWideStep }
{
    let lower = f.den(alloc)?;
    let _divisor = lower.coeffs();
    let num = f.num(alloc)?;
    let (whole, upper) = num.div_rem(alloc, &lower)?;
    Ok(Mixed {
        whole,
        upper,
        lower,
    })
}

// Adds the proper fraction of the function at the place i of n.
fn add_fraction<F: Field>(
    alloc: Global,
    factors: &Factors<F>,
    state: &mut State<F>,
    upper: Poly<F>,
    lower: Poly<F>,
    n: usize,
    i: usize,
) -> Result<(), Stop>
    requires inverse { F.val factors.now.a *ᵛ F.val factors.now.inverse ≡ one_value }
    requires minus { F.val factors.now.minus ≡ neg_value one_value }
    requires fits { Fits (over (alone_at n i (polynomial F.val upper)) (polynomial F.val lower)) }
    requires good { Good n (shares F.val state.old.settled) }
    requires within { i < n }
    ensures added { OnOk result (IsAdded (F.val factors.now.a) n (over (alone_at n i (polynomial F.val upper)) (polynomial F.val lower))
        (shares F.val state.old.settled) (shares F.val state.old.moved) (shares F.val state.new.settled) (shares F.val state.new.moved)) }
    ensures wide { IfErr result KeepsWideStep }
{
    let none = upper.is_zero();
    if none {
        return Ok(());
    }
    let uppers = alone(alloc, n, i, &upper)?;
    peeled(alloc, factors, state, Share { uppers, lower })?;
    Ok(())
}

// n polynomials that are 0 but for p at i.
fn alone<F: Field>(alloc: Global, n: usize, i: usize, p: &Poly<F>) -> Result<Row<Poly<F>>, Stop>
    ensures value { IfOk result (λ r. polys F.val r ≡ alone_at n i (polynomial F.val p.now)) }
    ensures wide { IfErr result KeepsWideStep }
{
    let mut list = Row::new(alloc);
    for j in 0..n {
        let item = item_at(alloc, j, i, p)?;
        list.push(item)?;
    }
    Ok(list)
}

// p where j is i, and 0 else.
fn item_at<F: Field>(alloc: Global, j: usize, i: usize, p: &Poly<F>) -> Result<Poly<F>, Stop>
    ensures here { IfOk result (λ r. j ≡ i → polynomial F.val r ≡ polynomial F.val p.now) }
    ensures other { IfOk result (λ r. ¬ (j ≡ i) → polynomial F.val r ≡ zero_polynomial) }
    ensures wide { IfErr result KeepsWideStep }
{
    if j != i {
        let r = nothing(alloc)?;
        return Ok(r);
    }
    let r = p.copy(alloc)?;
    Ok(r)
}
