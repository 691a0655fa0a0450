ghost use Rattle.std.specs.Prelude.{◌≡◌, ℕ, ◌<◌, [], length, map, get_or, IfOk, IfErr};
ghost use Rattle.sg_algebra.proofs.Value.{zero_value, one_value, ◌+ᵛ◌};
ghost use Rattle.sg_algebra.proofs.Embedding.{constant_value};
ghost use Rattle.sg_algebra.proofs.Polynomial.{coefficient, zero_polynomial};
ghost use Rattle.sg_num.specs.Stopped.{KeepsWideStep};
ghost use Rattle.sg_poly.specs.Polynomials.{polynomial};
ghost use Rattle.sg_ratfun.specs.Fractions.{ratio};
ghost use Rattle.sg_first_order_theory.specs.Solutions.{pair, IsBasis};
ghost use Rattle.sg_first_order_theory.proofs.Weighted.{weighted};
ghost use Rattle.sg_reduction_theory.proofs.Bases.{IsNull};
ghost use Rattle.sg_reduction_theory.proofs.Moves.{sum_at};
ghost use Rattle.sg_reduction_theory.proofs.Places.{Good};
ghost use Rattle.sg_reduction_theory.proofs.Spanning.{Sized, Known};
ghost use Rattle.sg_reduction_theory.proofs.Steps.{term as term_of};
ghost use Rattle.sg_constant.specs.Shares.{polys, share, shares, HasLowers};
ghost use Rattle.sg_constant.specs.Reductions.{AreFactors, IsUnit, AreSolutions, VanishAt};

use crate::conditions::rows;
use crate::moving::Factors;
use crate::polynomials::nothing;
use crate::reducing::reduced;
use crate::shares::Share;
use crate::summing::summed;
use sg_matrix::{Solution, null_basis};
use sg_num::{Field, Row, Stop, copies_of};
use sg_poly::Poly;
use sg_ratfun::RatFun;
use std::alloc::Global;

/// A basis of all pairs of constants c and rational functions g with a g(k+1) - g(k) = c_0 f_0(k) + c_1 f_1(k) + .., for a constant
/// a that isn't 0. Each f is split into a polynomial and small fractions; where denominators have images in common, the fractions
/// are moved together, and what is left has to vanish (Abramov 1975, Paule 1995). For a = 1 and f = 1/(k(k+1)) it is the pair of
/// 0 and 1, and that of 1 and -1/k. It stops at a kept step that doesn't fit or because it is out of memory.
pub fn solve_constant<F: Field>(
    alloc: Global,
    a: &F,
    fs: &Row<RatFun<F>>,
) -> Result<Row<Solution<F, RatFun<F>>>, Stop>
    requires { ¬ (F.val a.now ≡ zero_value) }
    ensures basis { IfOk result (λ r. IsBasis (constant_value F.vars (F.val a.now)) (map (ratio F.val) fs.now)
        (map (λ s. pair (map F.val s.coeffs) (ratio F.val s.value)) r)) }
    ensures wide { IfErr result KeepsWideStep }
{
    let n = fs.len();
    let functions = fs.as_slice();
    let factors = factors_of(alloc, a)?;
    let r = reduced(alloc, &factors, functions)?;
    let settled = r.state.settled.as_slice();
    let basis = vanishing(alloc, settled, n)?;
    let first = unit_solution(alloc, a, n)?;
    let vectors = basis.as_slice();
    let wholes = r.wholes.as_slice();
    let moved = r.state.moved.as_slice();
    let list = solutions(alloc, a, vectors, wholes, moved, first)?;
    Ok(list)
}

// The coefficient of the equation, its inverse, and -1.
fn factors_of<F: Field>(alloc: Global, a: &F) -> Result<Factors<F>, Stop>
    requires { ¬ (F.val a.now ≡ zero_value) }
    ensures value { IfOk result (λ r. AreFactors F.val (F.val a.now) r) }
    ensures wide { IfErr result KeepsWideStep }
{
    let unit = F::one(alloc)?;
    let zero = F::zero(alloc)?;
    let copy = a.copy(alloc)?;
    let inverse = unit.div(alloc, a)?;
    let minus = zero.sub(alloc, &unit)?;
    Ok(Factors {
        a: copy,
        inverse,
        minus,
    })
}

// A basis of the constants at which all numerators vanish, of n each.
fn vanishing<F: Field>(alloc: Global, list: &[Share<F>], n: usize) -> Result<Row<Row<F>>, Stop>
    requires { Good n (shares F.val list.now) }
    ensures null { IfOk result (λ r. IsNull F.val n (shares F.val list.now) r) }
    ensures vanish { IfOk result (λ r. VanishAt F.val r (shares F.val list.now)) }
    ensures wide { IfErr result KeepsWideStep }
{
    let conditions = rows(alloc, list)?;
    let basis = null_basis(alloc, &conditions, n)?;
    Ok(basis)
}

// The solution with n zeros as constants and 1, where a is 1.
fn unit_solution<F: Field>(
    alloc: Global,
    a: &F,
    n: usize,
) -> Result<Row<Solution<F, RatFun<F>>>, Stop>
    ensures one { IfOk result (λ r. F.val a.now ≡ one_value → IsUnit F.val n r) }
    ensures other { IfOk result (λ r. ¬ (F.val a.now ≡ one_value) → r ≡ []) }
    ensures wide { IfErr result KeepsWideStep }
{
    let unit = F::one(alloc)?;
    let same = a.same(alloc, &unit)?;
    let mut list = Row::new(alloc);
    if !same {
        return Ok(list);
    }
    let coeffs = zeros(alloc, n)?;
    let value = RatFun::one(alloc)?;
    list.push(Solution { coeffs, value })?;
    Ok(list)
}

// n zeros.
fn zeros<F: Field>(alloc: Global, n: usize) -> Result<Row<F>, Stop>
    ensures size { IfOk result (λ r. length r ≡ n) }
    ensures zeros { IfOk result (λ r. (i : ℕ) → coefficient (map F.val r) i ≡ zero_value) }
    ensures wide { IfErr result KeepsWideStep }
{
    let mut row = Row::new(alloc);
    'zeros: for i in 0..n {
        row.push(F::zero(alloc)?)?;
    }
    Ok(row)
}

// One solution for each vector of constants, after those that are given.
fn solutions<F: Field>(
    alloc: Global,
    a: &F,
    vectors: &[Row<F>],
    wholes: &[Poly<F>],
    moved: &[Share<F>],
    first: Row<Solution<F, RatFun<F>>>,
) -> Result<Row<Solution<F, RatFun<F>>>, Stop>
    requires sized { (i : ℕ) → i < length vectors.now → length (get_or vectors.now i []) ≡ length wholes.now }
    requires numbers { Sized (length wholes.now) (shares F.val moved.now) }
    requires some { HasLowers (shares F.val moved.now) }
    ensures value { IfOk result (λ r. AreSolutions F.val (F.val a.now) (polys F.val wholes.now) (shares F.val moved.now) vectors.now first r) }
    ensures wide { IfErr result KeepsWideStep }
{
    let mut list = first;
    for i in 0..vectors.len() {
        let vector = &vectors[i];
        let c = vector.as_slice();
        let value = solution(alloc, a, c, wholes, moved)?;
        let coeffs = copies_of(alloc, c)?;
        list.push(Solution { coeffs, value })?;
    }
    Ok(list)
}

// The solution with these constants, where they solve the equation at all.
fn solution<F: Field>(
    alloc: Global,
    a: &F,
    c: &[F],
    wholes: &[Poly<F>],
    moved: &[Share<F>],
) -> Result<RatFun<F>, Stop>
    requires same { length c.now ≡ length wholes.now }
    requires sized { Sized (length c.now) (shares F.val moved.now) }
    requires some { HasLowers (shares F.val moved.now) }
    ensures known { IfOk result (λ r. Known (F.val a.now) (polys F.val wholes.now) (shares F.val moved.now) (coefficient (map F.val c.now))
        (ratio F.val r)) }
    ensures wide { IfErr result KeepsWideStep }
{
    let p = combined(alloc, c, wholes)?;
    let y = summed(alloc, a, &p)?;
    let first = RatFun::from_poly(alloc, y)?;
    let r = with_terms(alloc, first, c, moved)?;
    Ok(r)
}

// The sum of the polynomials with the constants as factors.
fn combined<F: Field>(alloc: Global, c: &[F], list: &[Poly<F>]) -> Result<Poly<F>, Stop>
    requires { length c.now ≡ length list.now }
    ensures value { IfOk result (λ r. polynomial F.val r ≡ weighted (coefficient (map F.val c.now)) (polys F.val list.now)) }
    ensures wide { IfErr result KeepsWideStep }
{
    let mut sum = nothing(alloc)?;
    for i in 0..list.len() {
        let part = list[i].scale(alloc, &c[i])?;
        sum = sum.add(alloc, &part)?;
    }
    Ok(sum)
}

// The sum of the combinations of shares, and of another rational function.
fn with_terms<F: Field>(
    alloc: Global,
    first: RatFun<F>,
    c: &[F],
    list: &[Share<F>],
) -> Result<RatFun<F>, Stop>
    requires sized { Sized (length c.now) (shares F.val list.now) }
    requires some { HasLowers (shares F.val list.now) }
    ensures value { IfOk result (λ r. ratio F.val r ≡ ratio F.val first +ᵛ sum_at (coefficient (map F.val c.now)) (shares F.val list.now)) }
    ensures wide { IfErr result KeepsWideStep }
{
    let mut sum = first;
    for i in 0..list.len() {
        let part = term(alloc, c, &list[i])?;
        sum = sum.add(alloc, &part)?;
    }
    Ok(sum)
}

// The combination of the numerators with the constants as factors, over the denominator.
fn term<F: Field>(alloc: Global, c: &[F], s: &Share<F>) -> Result<RatFun<F>, Stop>
    requires same { length c.now ≡ length s.now.uppers }
    requires some { ¬ (polynomial F.val s.now.lower ≡ zero_polynomial) }
    ensures value { IfOk result (λ r. ratio F.val r ≡ term_of (coefficient (map F.val c.now)) (share F.val s.now)) }
    ensures wide { IfErr result KeepsWideStep }
{
    let n = combined(alloc, c, s.uppers.as_slice())?;
    let w = s.lower.copy(alloc)?;
    let r = RatFun::new(alloc, n, w)?;
    Ok(r)
}
