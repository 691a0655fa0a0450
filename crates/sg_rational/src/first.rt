ghost use Rattle.std.specs.Prelude.{◌≡◌, map, IfOk, IfErr};
ghost use Rattle.sg_algebra.proofs.Value.{zero_value};
ghost use Rattle.sg_num.specs.Stopped.{KeepsWideStep};
ghost use Rattle.sg_ratfun.specs.Fractions.{ratio};
ghost use Rattle.sg_first_order_theory.specs.Solutions.{pair, IsBasis};

use crate::ansatz::solve_by_denominators;
use sg_constant::solve_constant;
use sg_matrix::Solution;
use sg_num::{Field, Row, Stop};
use sg_ratfun::RatFun;
use std::alloc::Global;

/// A basis of all pairs of constants c and rational functions g with a(k) g(k+1) - g(k) = c_0 f_0(k) + c_1 f_1(k) + .., where
/// a isn't 0: every such pair is a combination of the pairs given. For a = 1 and f = 1/(k(k+1)) it is the pair of 0 and 1, and
/// the pair of 1 and -1/k. A constant a goes by reduction (Abramov 1975), which keeps fractions small; any other by a bound on
/// the denominators of all g and one on the degrees of their numerators (Abramov 1989, 1995), which leave a linear system. It
/// stops at a kept step that doesn't fit or because it is out of memory; the latter also where a shift or a degree is past 2^20.
pub fn solve_first<F: Field>(
    alloc: Global,
    a: &RatFun<F>,
    fs: &Row<RatFun<F>>,
) -> Result<Row<Solution<F, RatFun<F>>>, Stop>
    requires { ¬ (ratio F.val a.now ≡ zero_value) }
    ensures basis { IfOk result (λ r. IsBasis (ratio F.val a.now) (map (ratio F.val) fs.now)
        (map (λ s. pair (map F.val s.coeffs) (ratio F.val s.value)) r)) }
    ensures wide { IfErr result KeepsWideStep }
{
    match a.constant(alloc)? {
        Some(c) => {
            let list = solve_constant(alloc, &c, fs)?;
            Ok(list)
        }
        None => {
            let list = solve_by_denominators(alloc, a, fs)?;
            Ok(list)
        }
    }
}
