ghost use Rattle.std.specs.Prelude.{◌≡◌, ℕ, List, suc, ◌≤◌, ◌<◌, map, length, get_or, [], IfOk, IfErr};
ghost use Rattle.sg_algebra.proofs.Value.{Value, zero_value, ◌*ᵛ◌};
ghost use Rattle.sg_algebra.proofs.Polynomial.{zero_polynomial, ◌*ᵖ◌};
ghost use Rattle.sg_num.specs.Stopped.{KeepsWideStep};
ghost use Rattle.sg_poly.specs.Divisors.{◌∣ᵖ◌};
ghost use Rattle.sg_poly.specs.Polynomials.{polynomial};
ghost use Rattle.sg_ratfun.specs.Fractions.{ratio};
ghost use Rattle.sg_first_order_theory.specs.Solutions.{pair, IsBasis};
ghost use Rattle.sg_first_order_theory.proofs.ValueFractions.{whole};
ghost use Rattle.sg_first_order_theory.proofs.Weighted.{Cleared};
ghost use Rattle.sg_first_order_theory.proofs.FirstOrder.{IsReduced};
ghost use Rattle.sg_first_order_theory.proofs.Basis.{pair_of};

use crate::degree::bound;
use crate::denominator::{cleared, common_denominator};
use crate::dispersion::{Equation, reduced};
use crate::system::vectors;
use sg_matrix::Solution;
use sg_num::{Field, Row, Stop, copies_of};
use sg_poly::Poly;
use sg_ratfun::RatFun;
use std::alloc::Global;

// The same for any a, by an ansatz: a bound on the denominators of all g and one on the degrees of their numerators (Abramov
// 1989, 1995) leave a linear system for the constants and the coefficients of the numerator.
pub(crate) fn solve_by_denominators<F: Field>(
    alloc: Global,
    a: &RatFun<F>,
    fs: &Row<RatFun<F>>,
) -> Result<Row<Solution<F, RatFun<F>>>, Stop>
    requires { ¬ (ratio F.val a.now ≡ zero_value) }
    ensures basis { IfOk result (λ r. IsBasis (ratio F.val a.now) (map (ratio F.val) fs.now)
        (map (λ s. pair (map F.val s.coeffs) (ratio F.val s.value)) r)) }
    ensures wide { IfErr result KeepsWideStep }
{
    let v = common_denominator(alloc, a, fs.as_slice())?;
    let left = cleared(alloc, &v, a)?;
    let right = v.copy(alloc)?;
    let equation = reduced(alloc, left, right)?;
    let list = sides(alloc, &v, &equation.factor, fs.as_slice())?;
    let r = solved(alloc, &equation, list.as_slice())?;
    Ok(r)
}

// The right sides of the reduced equation.
fn sides<F: Field>(
    alloc: Global,
    v: &Poly<F>,
    factor: &Poly<F>,
    fs: &[RatFun<F>],
) -> Result<Row<Poly<F>>, Stop>
    requires { (i : ℕ) → i < length fs.now → polynomial F.val (get_or fs.now i ([], [])).1 ∣ᵖ polynomial F.val v.now }
    ensures value { IfOk result (λ r. Cleared (polynomial F.val factor.now *ᵖ polynomial F.val v.now) (map (ratio F.val) fs.now)
        (map (polynomial F.val) r)) }
    ensures size { IfOk result (λ r. length r ≡ length fs.now) }
    ensures wide { IfErr result KeepsWideStep }
{
    let mut list = Row::new(alloc);
    for i in 0..fs.len() {
        list.push(side(alloc, v, factor, &fs[i])?)?;
    }
    Ok(list)
}

// One of them.
fn side<F: Field>(
    alloc: Global,
    v: &Poly<F>,
    factor: &Poly<F>,
    f: &RatFun<F>,
) -> Result<Poly<F>, Stop>
    requires { polynomial F.val f.now.1 ∣ᵖ polynomial F.val v.now }
    ensures value { IfOk result (λ r. whole (polynomial F.val factor.now *ᵖ polynomial F.val v.now) *ᵛ ratio F.val f.now ≡ whole (polynomial F.val r)) }
    ensures wide { IfErr result KeepsWideStep }
{
    let c = cleared(alloc, v, f)?;
    let r = c.mul(alloc, factor)?;
    Ok(r)
}

// The basis of the solutions of the reduced equation.
fn solved<F: Field>(
    alloc: Global,
    equation: &Equation<F>,
    sides: &[Poly<F>],
) -> Result<Row<Solution<F, RatFun<F>>>, Stop>
    requires left { ¬ (polynomial F.val equation.now.a ≡ zero_polynomial) }
    requires lower { ¬ (polynomial F.val equation.now.lower ≡ zero_polynomial) }
    ensures value { IfOk result (λ r. (a : Value (suc F.vars)) (fs : List (Value (suc F.vars))) → length sides.now ≡ length fs → IsReduced a fs
        (polynomial F.val equation.now.a) (polynomial F.val equation.now.b) (polynomial F.val equation.now.lower) (map (polynomial F.val) sides.now) →
        IsBasis a fs (map (λ s. pair (map F.val s.coeffs) (ratio F.val s.value)) r)) }
    ensures wide { IfErr result KeepsWideStep }
{
    let n = bound(alloc, &equation.a, &equation.b, sides)?;
    let basis = vectors(alloc, &equation.a, &equation.b, sides, n)?;
    let list = solutions(alloc, &basis, sides.len(), &equation.lower)?;
    Ok(list)
}

// What vectors stand for.
fn solutions<F: Field>(
    alloc: Global,
    basis: &Row<Row<F>>,
    n: usize,
    lower: &Poly<F>,
) -> Result<Row<Solution<F, RatFun<F>>>, Stop>
    requires within { (i : ℕ) → i < length basis.now → n ≤ length (get_or basis.now i []) }
    requires some { ¬ (polynomial F.val lower.now ≡ zero_polynomial) }
    ensures value { IfOk result (λ r. map (λ s. pair (map F.val s.coeffs) (ratio F.val s.value)) r ≡
        map (pair_of F.val n (polynomial F.val lower.now)) basis.now) }
    ensures wide { IfErr result KeepsWideStep }
{
    let mut list = Row::new(alloc);
    for i in 0..basis.len() {
        list.push(solution(alloc, basis.get(i).as_slice(), n, lower)?)?;
    }
    Ok(list)
}

// What a vector stands for: the first n items are the constants, the others the coefficients of lower g.
fn solution<F: Field>(
    alloc: Global,
    vector: &[F],
    n: usize,
    lower: &Poly<F>,
) -> Result<Solution<F, RatFun<F>>, Stop>
    requires within { n ≤ length vector.now }
    requires some { ¬ (polynomial F.val lower.now ≡ zero_polynomial) }
    ensures value { IfOk result (λ s. pair (map F.val s.coeffs) (ratio F.val s.value) ≡ pair_of F.val n (polynomial F.val lower.now) vector.now) }
    ensures wide { IfErr result KeepsWideStep }
{
    let (first, last) = vector.split_at(n);
    let coeffs = copies_of(alloc, first)?;
    let rest = copies_of(alloc, last)?;
    let y = Poly::from_coeffs(alloc, rest)?;
    let den = lower.copy(alloc)?;
    let value = RatFun::new(alloc, y, den)?;
    Ok(Solution { coeffs, value })
}
