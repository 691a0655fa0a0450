ghost use Rattle.std.specs.Prelude.{◌≡◌, IfOk, IfErr};
ghost use Rattle.sg_algebra.proofs.Polynomial.{zero_polynomial};
ghost use Rattle.sg_num.specs.Stopped.{KeepsWideStep};
ghost use Rattle.sg_poly.specs.Polynomials.{polynomial};

use sg_num::{Field, Row, Stop};
use sg_poly::Poly;
use std::alloc::Global;

// The polynomial 0.
pub(crate) fn nothing<F: Field>(alloc: Global) -> Result<Poly<F>, Stop>
    ensures value { IfOk result (λ r. polynomial F.val r ≡ zero_polynomial) }
    ensures wide { IfErr result KeepsWideStep }
{
    let p = Poly::from_coeffs(alloc, Row::new(alloc))?;
    Ok(p)
}
