use sg_num::{Field, Probe, Rat, Row, Stop};
use std::alloc::Global;

// The answer of a call on two elements.
fn answer<F: Field>(alloc: Global, a: &F, b: &F, call: u8) -> Result<F, Stop> {
    match call {
        0 => F::zero(alloc),
        1 => F::one(alloc),
        2 => a.add(alloc, b),
        3 => a.sub(alloc, b),
        4 => a.mul(alloc, b),
        5 if !b.is_zero() => a.div(alloc, b),
        _ => a.copy(alloc),
    }
}

// Whether the answer is this fraction, and no other.
fn answers<F: Field>(alloc: Global, a: Rat, b: Rat, call: u8, want: Rat) -> Result<bool, Stop> {
    let a = F::from_rat(alloc, a)?;
    let b = F::from_rat(alloc, b)?;
    let got = answer(alloc, &a, &b, call)?;
    let want = F::from_rat(alloc, want)?;
    let same = got.same(alloc, &want)?;
    Ok(same && got.is_zero() == want.is_zero())
}

#[test]
fn computes_through_the_bound(rt: HostRuntime) {
    let calls = [(0, 1), (1, 1), (5, 6), (1, 6), (1, 6), (3, 2), (1, 2)];
    let (Some(half), Some(third)) = (Rat::new(1, 2), Rat::new(1, 3)) else {
        assert!(rt; false, "no operands");
        return;
    };
    let mut call = 0u8;
    for (num, den) in calls {
        let Some(want) = Rat::new(num, den) else {
            assert!(rt; false, "no fraction");
            return;
        };
        assert!(rt;
            matches!(
                answers::<Rat>(rt.alloc(), half, third, call, want),
                Ok(true)
            ),
            "{call}"
        );
        call = call.wrapping_add(1);
    }
}

// What a probe of two elements answers.
fn probed<F: Field>(alloc: Global, a: Rat, b: Rat) -> Result<Probe, Stop> {
    let mut list = Row::new(alloc);
    list.push(F::from_rat(alloc, a)?)?;
    list.push(F::from_rat(alloc, b)?)?;
    F::probe(alloc, &list)
}

// Fractions have no variable, and each is its own value.
#[test]
fn probes_through_the_bound(rt: HostRuntime) {
    let (a, b) = (Rat::whole(0), Rat::whole(-3));
    match probed::<Rat>(rt.alloc(), a, b) {
        Ok(probe) => {
            assert!(rt; probe.args.is_empty());
            assert_eq!(rt; probe.values.as_slice(), [a, b].as_slice());
        }
        Err(_) => assert!(rt; false, "out of memory"),
    }
}
