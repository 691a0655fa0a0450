//! The four steps with whole numbers, as steps of fractions: each is exact, or the step that doesn't fit.
ghost use Rattle.std.specs.Prelude.{◌≡◌, ◌≢◌, pos, neg_ℤ, ◌+ℤ◌, ◌-ℤ◌, ◌*ℤ◌, ℤ, IfOk, IfErr, IfSome, IfNone};
ghost use Rattle.sg_num.specs.Stopped.{IsTooWide};

use crate::rat::Rat;
use crate::step::Wide;

/// The sum of two whole numbers, Wide where it doesn't fit.
pub fn whole_sum(a: i128, b: i128) -> Result<i128, Wide>
    ensures value { IfOk result (λ n. n ≡ a +ℤ b) }
    ensures wide { IfErr result IsTooWide }
{
    if let Some(sum) = a.checked_add(b) {
        return Ok(sum);
    }
    let sum = Rat::whole(a).plus(Rat::whole(b))?;
    Ok(sum.num())
}

/// The difference of two whole numbers, Wide where it doesn't fit.
pub fn whole_difference(a: i128, b: i128) -> Result<i128, Wide>
    ensures value { IfOk result (λ n. n ≡ a -ℤ b) }
    ensures wide { IfErr result IsTooWide }
{
    let difference = Rat::whole(a).minus(Rat::whole(b))?;
    Ok(difference.num())
}

/// The product of two whole numbers, Wide where it doesn't fit.
pub fn whole_product(a: i128, b: i128) -> Result<i128, Wide>
    ensures value { IfOk result (λ n. n ≡ a *ℤ b) }
    ensures wide { IfErr result IsTooWide }
{
    let product = Rat::whole(a).times(Rat::whole(b))?;
    Ok(product.num())
}

/// The quotient by a whole number other than 0; None exactly where it isn't whole. Most numbers that are tried fail this test,
/// so it comes before any step with fractions. Wide where the quotient doesn't fit.
pub fn whole_quotient(a: i128, b: i128) -> Result<Option<i128>, Wide>
    requires { b ≢ pos 0 }
    ensures some { IfOk result (λ o. IfSome o (λ q. q *ℤ b ≡ a)) }
    ensures none { IfOk result (λ o. IfNone o ((q : ℤ) → q *ℤ b ≢ a)) }
    ensures wide { IfErr result IsTooWide }
{
    if a.unsigned_abs() % b.unsigned_abs() != 0 {
        return Ok(None);
    }
    let quotient = Rat::whole(a).over(Rat::whole(b))?;
    Ok(Some(quotient.num()))
}
