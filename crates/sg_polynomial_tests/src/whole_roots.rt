use sg_num::{
    Field, Rat, Row, Stop, cleared, common_denominator, common_unit, copies_of, horner, in_unit,
    whole_difference, whole_product, whole_quotient, whole_roots, whole_sum,
};
use std::alloc::Global;

// The fractions with these numerators over `den`.
fn over(alloc: Global, list: &[i128], den: i128) -> Result<Row<Rat>, Stop> {
    let mut row = Row::new(alloc);
    for n in list {
        if let Some(c) = Rat::new(*n, den) {
            row.push(c)?;
        }
    }
    Ok(row)
}

// Whether the polynomial with these coefficients has exactly these whole roots.
fn has_roots(alloc: Global, list: &[i128], den: i128, want: &[i128]) -> Result<bool, Stop> {
    let p = over(alloc, list, den)?;
    if p.is_empty() {
        return Ok(false);
    }
    let last = p.get(p.len() - 1);
    if last.is_zero() {
        return Ok(false);
    }
    let r = whole_roots(alloc, p.as_slice())?;
    Ok(r.as_slice() == want)
}

#[test]
fn finds_known_roots(rt: HostRuntime) {
    let cases: [(&[i128], i128, &[i128]); 14] = [
        (&[7], 1, &[]),
        (&[1, 0, 1], 1, &[]),
        (&[-1, 0, 0, 8], 3, &[]),
        (&[0, 0, 0, 5], 1, &[0]),
        (&[3, 1], 7, &[-3]),
        (&[-6, 11, -6, 1], 1, &[1, 2, 3]),
        (&[0, -4, 0, 1], 6, &[-2, 0, 2]),
        (&[4, 4, 1], 5, &[-2]),
        (&[-9, 9, 4, -4], 12, &[1]),
        (&[-120, 274, -225, 85, -15, 1], 1, &[1, 2, 3, 4, 5]),
        (&[-9_999_900_000, -1, 1], 1, &[-99_999, 100_000]),
        (&[30_000, -10_003, 1], 3, &[3, 10_000]),
        (&[1, 0, -1], i128::MAX, &[-1, 1]),
        (&[-524_287, 1], 1, &[524_287]),
    ];
    for (list, den, want) in cases {
        assert!(rt;
            matches!(has_roots(rt.alloc(), list, den, want), Ok(true)),
            "{list:?} over {den}"
        );
    }
}

#[test]
fn stops_at_long_scans(rt: HostRuntime) {
    for n in [524_288, 1_000_000_000_000_000_000_000_000_000_000] {
        assert!(rt;
            matches!(
                has_roots(rt.alloc(), &[-n, 1], 1, &[n]),
                Err(Stop::Memory(_))
            ),
            "{n}"
        );
    }
}

// The common denominator of 1 / a and 1 / b, and what the two are over it.
fn common(alloc: Global, a: i128, b: i128) -> Result<(i128, Row<i128>), Stop> {
    let mut row = Row::new(alloc);
    for den in [a, b] {
        if let Some(c) = Rat::new(1, den) {
            row.push(c)?;
        }
    }
    let list = row.as_slice();
    let l = common_denominator(list)?;
    let whole = cleared(alloc, list, l)?;
    Ok((l, whole))
}

#[test]
fn finds_common_denominators(rt: HostRuntime) {
    let found = match common(rt.alloc(), 4, 6) {
        Ok((l, whole)) => l == 12 && whole.as_slice() == [3, 2].as_slice(),
        Err(_) => false,
    };
    assert!(rt; found);
    assert!(rt;
        matches!(
            common(rt.alloc(), i128::MAX, i128::MAX - 1),
            Err(Stop::Wide(_))
        )
    );
}

#[test]
fn steps_with_whole_numbers(rt: HostRuntime) {
    assert_eq!(rt; whole_sum(3, -5), Ok(-2));
    assert!(rt; whole_sum(i128::MAX, 1).is_err());
    assert_eq!(rt; whole_difference(3, -5), Ok(8));
    assert_eq!(rt; whole_product(3, -5), Ok(-15));
    assert_eq!(rt; whole_quotient(-15, 5), Ok(Some(-3)));
    assert_eq!(rt; whole_quotient(-15, 4), Ok(None));
}

// The unit in which 1/4 + k/6 + k^2 is whole, which is 6, and the polynomial 9 + k + k^2 there.
fn scaled(alloc: Global) -> Result<(i128, Row<Rat>), Stop> {
    let p = over(alloc, &[3, 2, 12], 12)?;
    let c = common_unit(p.as_slice(), &[]);
    let r = in_unit(alloc, p.as_slice(), Rat::whole(c))?;
    Ok((c, r))
}

#[test]
fn goes_to_another_unit(rt: HostRuntime) {
    let want = [Rat::whole(9), Rat::whole(1), Rat::whole(1)];
    let found = match scaled(rt.alloc()) {
        Ok((c, r)) => c == 6 && r.as_slice() == want.as_slice(),
        Err(_) => false,
    };
    assert!(rt; found);
}

// The value at x of a copy of the polynomial with these whole coefficients.
fn value<F: Field>(alloc: Global, list: &[i128], x: i128) -> Result<F, Stop> {
    let mut p = Row::new(alloc);
    for n in list {
        p.push(F::from_rat(alloc, Rat::whole(*n))?)?;
    }
    let copy = copies_of(alloc, p.as_slice())?;
    let x = F::from_rat(alloc, Rat::whole(x))?;
    let v = horner(alloc, copy.as_slice(), &x)?;
    Ok(v)
}

#[test]
fn has_values_through_the_bound(rt: HostRuntime) {
    let found = match value::<Rat>(rt.alloc(), &[1, 2, 3], -2) {
        Ok(v) => v == Rat::whole(9),
        Err(_) => false,
    };
    assert!(rt; found);
}

// Whether the fraction is among the guesses for the polynomial with these coefficients.
fn guesses(alloc: Global, list: &[i128], root: Rat) -> Result<bool, Stop> {
    let p = over(alloc, list, 1)?;
    let roots = Rat::linear_roots(alloc, p.as_slice())?;
    Ok(roots.as_slice().contains(&root))
}

// (2 k - 1) (k + 3) k and its roots
#[test]
fn guesses_fractions(rt: HostRuntime) {
    for (num, den) in [(1, 2), (-3, 1), (0, 1)] {
        let found = match Rat::new(num, den) {
            Some(root) => matches!(guesses(rt.alloc(), &[0, -3, 5, 2], root), Ok(true)),
            None => false,
        };
        assert!(rt; found, "{num} / {den}");
    }
}
