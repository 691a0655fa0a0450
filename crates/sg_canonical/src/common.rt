ghost use Rattle.std.specs.Prelude.{◌≡◌, ◌++◌, ◌∷◌, [], pos, ◌*ℤ◌, map, IfOk, IfErr};
ghost use Rattle.sg_num.specs.Stopped.{KeepsWideStep};
ghost use Rattle.sg_num.specs.Value.{fraction};
ghost use Rattle.sg_canonical.specs.Whole.{IsCommon};

use crate::whole::multiples;
use sg_num::{Rat, Row, Stop, whole_product};
use std::alloc::Global;

/// Whole numbers over one denominator.
#[derive(Drop)]
pub struct Common {
    pub numbers: Row<i128>,
    pub denominator: i128,
}

/// The fractions, the last first, over their least common denominator.
pub fn over_common(alloc: Global, list: &[Rat]) -> Result<Common, Stop>
    ensures common { IfOk result (λ w. IsCommon list.now w.numbers w.denominator) }
    ensures wide { IfErr result KeepsWideStep }
{
    match list.split_first() {
        None => Ok(Common {
            numbers: Row::new(alloc),
            denominator: 1,
        }),
        Some((c, rest)) => {
            let above = over_common(alloc, rest)?;
            let more = Rat::whole(above.denominator).times(*c)?;
            let all = with_lowest(alloc, above.numbers.as_slice(), above.denominator, more)?;
            Ok(all)
        }
    }
}

// All times the denominator of one more, and that one's numerator at the end.
fn with_lowest(
    alloc: Global,
    numbers: &[i128],
    denominator: i128,
    more: Rat,
) -> Result<Common, Stop>
    ensures numbers { IfOk result (λ w. w.numbers ≡ map (λ a. a *ℤ pos (fraction more).den) numbers.now ++ (fraction more).num ∷ []) }
    ensures denominator { IfOk result (λ w. w.denominator ≡ denominator *ℤ pos (fraction more).den) }
    ensures wide { IfErr result KeepsWideStep }
{
    let mut all = multiples(alloc, numbers, more.den())?;
    all.push(more.num())?;
    let product = whole_product(denominator, more.den())?;
    Ok(Common {
        numbers: all,
        denominator: product,
    })
}
