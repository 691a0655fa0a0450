use sg_laurent::Laurent;
use sg_num::{Rat, Stop};
use std::alloc::Global;

fn inverse_of(alloc: Global, x: &Laurent<Rat>) -> Result<Laurent<Rat>, Stop> {
    match x.inverse(alloc, 1)? {
        Some(y) => Ok(y),
        None => Ok(Laurent::zero(alloc, 1)),
    }
}

// (x + 1/x)(x - 1/x)
fn difference_of_squares(alloc: Global) -> Result<Laurent<Rat>, Stop> {
    let x: Laurent<Rat> = Laurent::product(alloc, 1, 0)?;
    let y = inverse_of(alloc, &x)?;
    let sum = x.add(alloc, 1, &y)?;
    let difference = x.sub(alloc, 1, &y)?;
    let r = sum.mul(alloc, 1, &difference)?;
    Ok(r)
}

// x^2 - x^-2
fn has_squares(alloc: Global, e: &Laurent<Rat>) -> Result<bool, Stop> {
    for (exponent, want) in [(2, 1), (1, 0), (0, 0), (-2, -1)] {
        let c = e.coefficient(alloc, 1, &[exponent])?;
        if c != Rat::whole(want) {
            return Ok(false);
        }
    }
    Ok(e.terms(1).len() == 2)
}

#[test]
fn multiplies(rt: HostRuntime) {
    let e = difference_of_squares(rt.alloc());
    assert!(rt; e.is_ok());
    if let Ok(e) = e {
        assert!(rt; matches!(has_squares(rt.alloc(), &e), Ok(true)));
    }
}

fn six(alloc: Global) -> Result<Option<Rat>, Stop> {
    let three = Laurent::constant(alloc, 2, Rat::whole(3))?;
    let e = three.scale(alloc, 2, &Rat::whole(2))?;
    let c = e.constant_of(alloc, 2)?;
    Ok(c)
}

fn is_own_copy(alloc: Global) -> Result<bool, Stop> {
    let x: Laurent<Rat> = Laurent::product(alloc, 2, 1)?;
    let y = x.copy(alloc, 2)?;
    let same = y.same(alloc, 2, &x)?;
    Ok(same && y.constant_of(alloc, 2)?.is_none())
}

#[test]
fn knows_constants(rt: HostRuntime) {
    assert!(rt; matches!(six(rt.alloc()), Ok(Some(c)) if c == Rat::whole(6)));
    assert!(rt; matches!(is_own_copy(rt.alloc()), Ok(true)));
}
