use crate::made::whole;
use sg_num::{Field, Rat, Row, Stop};
use sg_poly::Poly;
use sg_ratfun::RatFun;
use sg_spread::spread;
use std::alloc::Global;

// The shifts; none where one of the two is 0.
fn shifts<F: Field>(alloc: Global, a: &Poly<F>, b: &Poly<F>) -> Result<Row<i128>, Stop> {
    if a.is_zero() || b.is_zero() {
        return Ok(Row::new(alloc));
    }
    spread(alloc, a, b)
}

fn are(alloc: Global, a: &[i128], b: &[i128], want: &[i128]) -> Result<bool, Stop> {
    let a = whole(alloc, a)?;
    let b = whole(alloc, b)?;
    let r = shifts(alloc, &a, &b)?;
    Ok(r.as_slice() == want)
}

// The shifts were found by hand, from the roots.
#[test]
fn finds_known_shifts(rt: HostRuntime) {
    let cases: [(&[i128], &[i128], &[i128]); 21] = [
        (&[0, 1], &[3, 1], &[-3]),
        (&[0, -1, 1], &[0, 1], &[-1, 0]),
        (&[0, 1], &[0, -1, 1], &[0, 1]),
        (&[1, 0, 1], &[1, 0, 1], &[0]),
        (&[1, 0, 1], &[2, 2, 1], &[-1]),
        (&[1, 0, 1], &[2, 0, 1], &[]),
        (&[0, 1], &[5], &[]),
        (&[1, 2], &[6, 2], &[]),
        (&[0, 0, 4, 1], &[1000, 300, 30, 1], &[-10, -6]),
        (&[-5, 8, 4], &[9, 2], &[-5, -2]),
        (
            &[
                81648000, -77727600, -5767380, 1769256, 89495, -11278, -516, 22, 1,
            ],
            &[1976, 503, 40, 1],
            &[
                -34, -33, -28, -27, -23, -22, -20, -17, -14, -11, -9, -5, -4, -1, 0, 1, 2, 5, 7,
                10, 12,
            ],
        ),
        (
            &[2160, -6372, 5682, -1464, -42, 36],
            &[238336, 6608, -38400, 7820, -536, 12],
            &[-6, -5, -3, 3, 4, 6, 12, 13, 15, 16, 18],
        ),
        (
            &[
                -13294508737345332120,
                21495500492740806,
                16892074122373,
                -20074470576,
                -11526446,
                1578,
                1,
            ],
            &[
                6901287997817828160,
                -112919881686357816,
                -39617129808462,
                77082380729,
                -9183691,
                -5465,
                1,
            ],
            &[
                -6760, -4365, -4241, -4119, -3179, -2098, -1846, -1600, -1466, -1076, -784, -740,
                -538, 421, 609, 678, 1053, 1319, 1483, 1565, 1779, 2115, 2841, 3004, 3073, 3250,
                3319, 3586, 4218, 4944, 5271, 5340, 5903, 5972, 6629, 6698,
            ],
        ),
        (
            &[
                28955762771933991810663000,
                29247582995223769140930,
                -184282384874032162053,
                39604660344904662,
                107631077366787,
                -14044081394,
                -20232535,
                602,
                1,
            ],
            &[-4284341116, 8435903, -5180, 1],
            &[
                -2747, -2076, -1322, -923, -252, -157, 419, 502, 514, 1090, 1268, 1352, 1844, 2023,
                2777, 3219, 3401, 3890, 4072, 4262, 4644, 4826, 4933, 5687,
            ],
        ),
        (&[0, 0, 0, 4, 4, 1], &[-25, 15, 9, 1], &[-5, -3, 1, 3]),
        (&[0, 1, 0, 2, 0, 1], &[4, 4, 5, 2, 1], &[]),
        (&[-3000000, 1], &[5000000000, 1], &[-5003000000]),
        (
            &[
                2999999999997000000000000,
                -3000007999996999998000000,
                8000005999998000001,
                -6000000000001,
                -1,
                1,
            ],
            &[0, 1],
            &[-1000001, -1000000, -999999, -1, 3000000],
        ),
        (&[1, 0, 1], &[1000000000001, -2000000, 1], &[1000000]),
        // two factors of degree 2 on each side
        (&[323, -62, 15, -4, 1], &[741, 283, 96, 15, 1], &[-5]),
        (&[77, -2, 3, -2, 1], &[55, -14, 11, -4, 1], &[-3, 0, 1, 4]),
    ];
    for (a, b, want) in cases {
        assert!(rt;
            matches!(are(rt.alloc(), a, b, want), Ok(true)),
            "{a:?} {b:?}"
        );
    }
}

// A factor q k - e n - c, by q, e and c.
type Factor = (i128, i128, i128);

// The product of these factors at n = 0.
fn product(alloc: Global, factors: &[Factor]) -> Result<Poly<Rat>, Stop> {
    let mut p = Poly::one(alloc)?;
    for (q, _, c) in factors {
        let factor = whole(alloc, &[c.wrapping_neg(), *q])?;
        p = p.mul(alloc, &factor)?;
    }
    Ok(p)
}

// The product of these factors, over the fractions of polynomials in n.
fn product_in_n(alloc: Global, factors: &[Factor]) -> Result<Poly<RatFun<Rat>>, Stop> {
    let mut p = Poly::one(alloc)?;
    for factor in factors {
        let line = line_in_n(alloc, *factor)?;
        p = p.mul(alloc, &line)?;
    }
    Ok(p)
}

fn line_in_n(alloc: Global, factor: Factor) -> Result<Poly<RatFun<Rat>>, Stop> {
    let (q, e, c) = factor;
    let low = whole(alloc, &[c.wrapping_neg(), e.wrapping_neg()])?;
    let high = whole(alloc, &[q])?;
    let mut row = Row::new(alloc);
    row.push(RatFun::from_poly(alloc, low)?)?;
    row.push(RatFun::from_poly(alloc, high)?)?;
    Poly::from_coeffs(alloc, row)
}

// The root of the second less that of the first, over a number, and that number; it is 0 where n is in the difference.
fn difference(left: Factor, right: Factor) -> (i128, i128) {
    let (q, e, c) = left;
    let (p, f, d) = right;
    if e.wrapping_mul(p) != f.wrapping_mul(q) {
        return (1, 0);
    }
    let above = d.wrapping_mul(q).wrapping_sub(c.wrapping_mul(p));
    (above, p.wrapping_mul(q))
}

// Whether the root of one of these is that of the factor and m.
fn is_difference_to(left: Factor, right: &[Factor], m: i128) -> bool {
    for factor in right {
        let (above, below) = difference(left, *factor);
        if above == below.wrapping_mul(m) {
            return true;
        }
    }
    false
}

// Whether a root on the right is one on the left and m.
fn is_difference(left: &[Factor], right: &[Factor], m: i128) -> bool {
    for factor in left {
        if is_difference_to(*factor, right, m) {
            return true;
        }
    }
    false
}

// Whether all whole differences to the root of the factor are listed.
fn has_differences_to(list: &[i128], left: Factor, right: &[Factor]) -> bool {
    for factor in right {
        let (above, below) = difference(left, *factor);
        if let Some(m) = above.checked_div(below) {
            if above == below.wrapping_mul(m) && !list.contains(&m) {
                return false;
            }
        }
    }
    true
}

// Whether these are exactly the whole differences of roots.
fn are_differences(list: &[i128], left: &[Factor], right: &[Factor]) -> bool {
    for m in list {
        if !is_difference(left, right, *m) {
            return false;
        }
    }
    for factor in left {
        if !has_differences_to(list, *factor, right) {
            return false;
        }
    }
    true
}

fn finds(alloc: Global, left: &[Factor], right: &[Factor]) -> Result<bool, Stop> {
    let a = product(alloc, left)?;
    let b = product(alloc, right)?;
    let r = shifts(alloc, &a, &b)?;
    Ok(are_differences(r.as_slice(), left, right))
}

fn finds_in_n(alloc: Global, left: &[Factor], right: &[Factor]) -> Result<bool, Stop> {
    let a = product_in_n(alloc, left)?;
    let b = product_in_n(alloc, right)?;
    let r = shifts(alloc, &a, &b)?;
    Ok(are_differences(r.as_slice(), left, right))
}

// Eight factors, with q from 1 to `most`, e below `kinds` and c from -200 to 200.
fn drawn(state: &mut u32, most: u32, kinds: u32) -> [Factor; 8] {
    let mut list = [(1i128, 0i128, 0i128); 8];
    for factor in list.iter_mut() {
        *state = state.wrapping_mul(1664525).wrapping_add(1013904223);
        let c = (*state >> 16) as i128 % 401 - 200;
        let q = (*state >> 8).checked_rem(most).unwrap_or(0) as i128 + 1;
        let e = (*state >> 12).checked_rem(kinds).unwrap_or(0) as i128;
        *factor = (q, e, c);
    }
    list
}

#[test]
fn finds_shifts_of_drawn_products(rt: HostRuntime) {
    let mut state = 5u32;
    for (count, most) in [(2, 1), (4, 3), (6, 1), (8, 1), (8, 3), (8, 3)] {
        let left = drawn(&mut state, most, 1);
        let right = drawn(&mut state, most, 1);
        if count <= left.len() && count <= right.len() {
            assert!(rt;
                matches!(finds(rt.alloc(), &left[..count], &right[..count]), Ok(true)),
                "{count}"
            );
        }
    }
}

// Factors k - c and k - n - c.
#[test]
fn finds_shifts_of_drawn_products_in_n(rt: HostRuntime) {
    let mut state = 7u32;
    for count in [2, 3, 4, 5, 6, 8] {
        let left = drawn(&mut state, 1, 2);
        let right = drawn(&mut state, 1, 2);
        if count <= left.len() && count <= right.len() {
            assert!(rt;
                matches!(
                    finds_in_n(rt.alloc(), &left[..count], &right[..count]),
                    Ok(true)
                ),
                "{count}"
            );
        }
    }
}
