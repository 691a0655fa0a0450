ghost use Rattle.std.specs.Prelude.{◌≡◌, ◌%◌, length, map, unsigned_abs, pos, ◌<ℤ◌, IfOk, IfErr, IsTrue, ◌↔◌};
ghost use Rattle.sg_algebra.specs.Coefficients.{Each};
ghost use Rattle.sg_algebra.proofs.Ring.{pow};
ghost use Rattle.sg_algebra.proofs.Value.{zero_value};
ghost use Rattle.sg_algebra.proofs.ValueField.{ValueR, ValueF};
ghost use Rattle.sg_num.specs.Stopped.{KeepsWideStep};
ghost use Rattle.sg_tower_theory.specs.Powers.{power, powers};

use sg_num::{Field, Stop};
use std::alloc::Global;

/// The product of the powers of the elements by the exponents.
pub(crate) fn factor<K: Field>(alloc: Global, alphas: &[K], exps: &[i128]) -> Result<K, Stop>
    requires some { Each (λ a. ¬ (K.val a ≡ zero_value)) alphas.now }
    requires count { length exps.now ≡ length alphas.now }
    ensures value { IfOk result (λ r. K.val r ≡ powers (ValueF K.vars) (map K.val alphas.now) exps.now) }
    ensures wide { IfErr result KeepsWideStep }
{
    let mut product = K::one(alloc)?;
    for i in 0..alphas.len() {
        let a = &alphas[i];
        let p = to_power(alloc, a, exps[i])?;
        product = product.mul(alloc, &p)?;
    }
    Ok(product)
}

// The power of an element that isn't 0.
fn to_power<K: Field>(alloc: Global, x: &K, e: i128) -> Result<K, Stop>
    requires { ¬ (K.val x.now ≡ zero_value) }
    ensures value { IfOk result (λ r. K.val r ≡ power (ValueF K.vars) (K.val x.now) e) }
    ensures wide { IfErr result KeepsWideStep }
{
    let n = size_of(e);
    if is_negative(e) {
        let one = K::one(alloc)?;
        let inverse = one.div(alloc, x)?;
        let r = natural_power(alloc, &inverse, n)?;
        return Ok(r);
    }
    let r = natural_power(alloc, x, n)?;
    Ok(r)
}

fn size_of(e: i128) -> u128
    ensures { result ≡ unsigned_abs e }
{
    e.unsigned_abs()
}

fn is_negative(e: i128) -> bool
    ensures { IsTrue result ↔ (e <ℤ pos 0) }
{
    e < 0
}

// The power, by squaring that of half the exponent.
fn natural_power<K: Field>(alloc: Global, x: &K, n: u128) -> Result<K, Stop>
    ensures value { IfOk result (λ r. K.val r ≡ pow (ValueR K.vars) (K.val x.now) n) }
    ensures wide { IfErr result KeepsWideStep }
{
    if n == 0 {
        let one = K::one(alloc)?;
        return Ok(one);
    }
    let half = natural_power(alloc, x, n / 2)?;
    let square = half.mul(alloc, &half)?;
    if is_even(n) {
        return Ok(square);
    }
    let r = square.mul(alloc, x)?;
    Ok(r)
}

fn is_even(n: u128) -> bool
    ensures { IsTrue result ↔ (n % 2 ≡ 0) }
{
    n % 2 == 0
}
