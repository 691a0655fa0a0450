ghost use Rattle.std.specs.Prelude.{◌≡◌, ℕ, IfOk, IfErr};
ghost use Rattle.sg_algebra.proofs.Rational.{whole_value};
ghost use Rattle.sg_algebra.proofs.Ring.{pow};
ghost use Rattle.sg_algebra.proofs.Value.{Value, ◌+ᵛ◌, ◌*ᵛ◌};
ghost use Rattle.sg_algebra.proofs.ValueField.{ValueR};
ghost use Rattle.sg_num.specs.Stopped.{KeepsWideStep};
ghost use Rattle.sg_build.specs.Letters.{letter};
ghost use Rattle.sg_build.specs.Found.{IsBoth};

use crate::letters::Letters;
use sg_num::{Field, Rat, Stop};
use std::alloc::Global;

/// A whole number.
pub fn whole<K: Field>(alloc: Global, c: &i128) -> Result<K, Stop>
    ensures value { IfOk result (λ r. K.val r ≡ whole_value K.vars c.now) }
    ensures wide { IfErr result KeepsWideStep }
{
    let n = *c;
    let r = K::from_rat(alloc, Rat::whole(n))?;
    Ok(r)
}

/// The parameter, in a field that has one.
pub fn parameter<K: Letters>(alloc: Global) -> Result<K, Stop>
    requires { ¬ (K.vars ≡ 0) }
    ensures value { IfOk result (λ r. K.val r ≡ letter K.vars) }
    ensures wide { IfErr result KeepsWideStep }
{
    let found: Option<K> = Letters::param(alloc)?;
    match found {
        Some(x) => Ok(x),
        None => unreachable!(),
    }
}

/// x to the power e, by squaring.
pub fn natural_power<K: Field>(alloc: Global, x: &K, e: u128) -> Result<K, Stop>
    ensures value { IfOk result (λ r. K.val r ≡ pow (ValueR K.vars) (K.val x.now) e) }
    ensures wide { IfErr result KeepsWideStep }
{
    if e == 0 {
        let r = K::one(alloc)?;
        return Ok(r);
    }
    let half = natural_power(alloc, x, e / 2)?;
    let square = half.mul(alloc, &half)?;
    if e % 2 == 0 {
        return Ok(square);
    }
    let r = square.mul(alloc, x)?;
    Ok(r)
}

/// The sum, where both are there.
pub fn sum<K: Field>(alloc: Global, x: Option<K>, y: Option<K>) -> Result<Option<K>, Stop>
    ensures value { IfOk result (IsBoth K.val ◌+ᵛ◌ x y) }
    ensures wide { IfErr result KeepsWideStep }
{
    match (x, y) {
        (Some(x), Some(y)) => {
            let r = x.add(alloc, &y)?;
            Ok(Some(r))
        }
        _ => Ok(None),
    }
}

/// The product, where both are there.
pub fn product<K: Field>(alloc: Global, x: Option<K>, y: Option<K>) -> Result<Option<K>, Stop>
    ensures value { IfOk result (IsBoth K.val ◌*ᵛ◌ x y) }
    ensures wide { IfErr result KeepsWideStep }
{
    match (x, y) {
        (Some(x), Some(y)) => {
            let r = x.mul(alloc, &y)?;
            Ok(Some(r))
        }
        _ => Ok(None),
    }
}
