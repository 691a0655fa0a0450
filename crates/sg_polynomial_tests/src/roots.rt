use sg_num::{Rat, Row, Stop};
use sg_roots::far_roots;
use std::alloc::Global;

// The whole coefficients as fractions.
fn fractions(alloc: Global, list: &[i128]) -> Result<Row<Rat>, Stop> {
    let mut row = Row::new(alloc);
    for n in list {
        row.push(Rat::whole(*n))?;
    }
    Ok(row)
}

// Whether the polynomial with these coefficients, the last not 0, has exactly these whole roots.
fn has_roots(alloc: Global, list: &[i128], want: &[i128]) -> Result<bool, Stop> {
    let p = fractions(alloc, list)?;
    if p.is_empty() {
        return Ok(false);
    }
    let last = p.get(p.len() - 1);
    if last.is_zero() {
        return Ok(false);
    }
    let r = far_roots(alloc, p.as_slice())?;
    Ok(r.as_slice() == want)
}

// The products were multiplied out by another program.
#[test]
fn finds_roots_far_from_zero(rt: HostRuntime) {
    let cases: [(&[i128], &[i128]); 7] = [
        (&[5], &[]),
        (
            &[-1267650600228229401496703205376, 1],
            &[1267650600228229401496703205376],
        ),
        (
            &[
                1000000000000000000,
                -1000000000000,
                999999999999000000,
                -999999999999,
                -1000000,
                1,
            ],
            &[-1000000, 1000000],
        ),
        (
            &[35000000000, -65000000007, -9999999987, 2],
            &[-7, 5000000000],
        ),
        (
            &[0, 0, -2199023255554, 1099511627777, 1099511627775, 1, 1],
            &[-2, 0, 1],
        ),
        (
            &[
                2999999999997000000000000,
                -3000007999996999998000000,
                8000005999998000001,
                -6000000000001,
                -1,
                1,
            ],
            &[-3000000, 1, 999999, 1000000, 1000001],
        ),
        (
            &[
                -3000000000000,
                -3000000000000,
                -3999999999997,
                -999999999997,
                -999999999996,
                1,
                1,
            ],
            &[-1000000, 1000000],
        ),
    ];
    for (list, want) in cases {
        assert!(rt;
            matches!(has_roots(rt.alloc(), list, want), Ok(true)),
            "{list:?}"
        );
    }
}
