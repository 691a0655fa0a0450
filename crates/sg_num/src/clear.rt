ghost use Rattle.std.specs.Prelude.{◌≡◌, ◌≢◌, ℤ, pos, ◌*ℤ◌, map, All, IfOk, IfErr};
ghost use Rattle.sg_algebra.proofs.Value.{◌*ᵛ◌};
ghost use Rattle.sg_algebra.proofs.Rational.{whole_value};
ghost use Rattle.sg_num.specs.Stopped.{IsTooWide, KeepsWideStep};
ghost use Rattle.sg_num.specs.Value.{fraction, number};
ghost use Rattle.sg_num.specs.Roots.{IsMultiple};

use crate::rat::Rat;
use crate::row::Row;
use crate::step::{Stop, Wide};
use crate::whole::whole_product;
use std::alloc::Global;

/// The least common multiple of the denominators, up to its sign: every common multiple is a multiple of it. It stops at a step
/// that doesn't fit.
pub fn common_denominator(list: &[Rat]) -> Result<i128, Wide>
    ensures some { IfOk result (λ l. l ≢ pos 0) }
    ensures each { IfOk result (λ l. All (λ r. IsMultiple l (fraction r).den) list.now) }
    ensures least { IfOk result (λ l. (m : ℤ) → All (λ r. IsMultiple m (fraction r).den) list.now → (k : ℤ) × (m ≡ k *ℤ l)) }
    ensures wide { IfErr result IsTooWide }
{
    let mut multiple = 1;
    for i in 0..list.len() {
        multiple = raised(multiple, list[i])?;
    }
    Ok(multiple)
}

// The least common multiple of `l` and the denominator of `r`: `l` times the denominator of `l` over it.
fn raised(l: i128, r: Rat) -> Result<i128, Wide>
    requires { l ≢ pos 0 }
    ensures some { IfOk result (λ n. n ≢ pos 0) }
    ensures whole { IfOk result (λ n. (k : ℤ) × (n ≡ k *ℤ l)) }
    ensures multiple { IfOk result (λ n. IsMultiple n (fraction r).den) }
    ensures least { IfOk result (λ n. (m : ℤ) → (k : ℤ) × (m ≡ k *ℤ l) → IsMultiple m (fraction r).den → (k : ℤ) × (m ≡ k *ℤ n)) }
    ensures wide { IfErr result IsTooWide }
{
    let quotient = Rat::whole(l).over(Rat::whole(r.den()))?;
    let multiple = whole_product(l, quotient.den())?;
    Ok(multiple)
}

/// The whole numbers that the fractions are when multiplied by `l`, a common multiple of their denominators.
pub fn cleared(alloc: Global, list: &[Rat], l: i128) -> Result<Row<i128>, Stop>
    requires { All (λ r. IsMultiple l (fraction r).den) list.now }
    ensures value { IfOk result (λ c. map (whole_value 0) c ≡ map (λ r. whole_value 0 l *ᵛ number r) list.now) }
    ensures wide { IfErr result KeepsWideStep }
{
    let mut row = Row::new(alloc);
    for i in 0..list.len() {
        row.push(multiplied(l, list[i])?)?;
    }
    Ok(row)
}

// `l` times `r`, where `l` is a multiple of the denominator.
fn multiplied(l: i128, r: Rat) -> Result<i128, Wide>
    requires { IsMultiple l (fraction r).den }
    ensures value { IfOk result (λ n. whole_value 0 n ≡ whole_value 0 l *ᵛ number r) }
    ensures wide { IfErr result IsTooWide }
{
    let product = Rat::whole(l).times(r)?;
    Ok(product.num())
}
