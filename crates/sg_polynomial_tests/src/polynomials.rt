use crate::made::whole;
use sg_num::{Rat, Row, Stop};
use sg_poly::{Poly, Poly2};
use std::alloc::Global;

// Whether p is the polynomial of these coefficients.
fn is(p: &Poly<Rat>, list: &[i128]) -> bool {
    let coeffs = p.coeffs();
    if coeffs.len() != list.len() {
        return false;
    }
    for i in 0..list.len() {
        if i >= coeffs.len() || coeffs[i] != Rat::whole(list[i]) {
            return false;
        }
    }
    true
}

// The greatest common divisor; 0 where p is.
fn common(alloc: Global, p: &Poly<Rat>, q: &Poly<Rat>) -> Result<Poly<Rat>, Stop> {
    if p.is_zero() {
        return p.copy(alloc);
    }
    p.gcd(alloc, q)
}

// p over its last coefficient; 0 where it is.
fn monic(alloc: Global, p: &Poly<Rat>) -> Result<Poly<Rat>, Stop> {
    if p.is_zero() {
        return p.copy(alloc);
    }
    p.monic(alloc)
}

// The quotient; 0 where q is.
fn quotient(alloc: Global, p: &Poly<Rat>, q: &Poly<Rat>) -> Result<Poly<Rat>, Stop> {
    if q.is_zero() {
        return q.copy(alloc);
    }
    let (r, _) = p.div_rem(alloc, q)?;
    Ok(r)
}

// The answers of the calls of two polynomials.
fn joined(alloc: Global, p: &Poly<Rat>, q: &Poly<Rat>, call: u8) -> Result<Poly<Rat>, Stop> {
    match call {
        0 => p.add(alloc, q),
        1 => p.sub(alloc, q),
        2 => p.mul(alloc, q),
        3 => common(alloc, p, q),
        _ => quotient(alloc, p, q),
    }
}

// The answers of the calls of one.
fn changed(alloc: Global, p: &Poly<Rat>, call: u8) -> Result<Poly<Rat>, Stop> {
    match call {
        0 => p.scale(alloc, &Rat::whole(3)),
        1 => monic(alloc, p),
        2 => p.shift_by(alloc, 1),
        3 => p.derivative(alloc),
        _ => p.copy(alloc),
    }
}

fn joins(alloc: Global, p: &[i128], q: &[i128], call: u8, want: &[i128]) -> Result<bool, Stop> {
    let p = whole(alloc, p)?;
    let q = whole(alloc, q)?;
    let r = joined(alloc, &p, &q, call)?;
    Ok(is(&r, want))
}

fn changes(alloc: Global, p: &[i128], call: u8, want: &[i128]) -> Result<bool, Stop> {
    let p = whole(alloc, p)?;
    let r = changed(alloc, &p, call)?;
    Ok(is(&r, want))
}

#[test]
fn computes_of_two(rt: HostRuntime) {
    let cases: [([i128; 3], [i128; 3], u8, &[i128]); 5] = [
        ([1, 2, 0], [0, 1, 0], 0, &[1, 3]),
        ([1, 2, 0], [0, 1, 0], 1, &[1, 1]),
        ([1, 2, 0], [0, 1, 0], 2, &[0, 1, 2]),
        ([-1, 0, 1], [1, 2, 1], 3, &[1, 1]),
        ([0, 0, 1], [1, 1, 0], 4, &[-1, 1]),
    ];
    for (p, q, call, want) in cases {
        assert!(rt;
            matches!(joins(rt.alloc(), &p, &q, call, want), Ok(true)),
            "{call}"
        );
    }
}

#[test]
fn computes_of_one(rt: HostRuntime) {
    let cases: [([i128; 3], u8, &[i128]); 5] = [
        ([1, 2, 0], 0, &[3, 6]),
        ([4, 2, 0], 1, &[2, 1]),
        ([0, 0, 1], 2, &[1, 2, 1]),
        ([7, 0, 5], 3, &[0, 10]),
        ([1, 2, 0], 4, &[1, 2]),
    ];
    for (p, call, want) in cases {
        assert!(rt;
            matches!(changes(rt.alloc(), &p, call, want), Ok(true)),
            "{call}"
        );
    }
}

// Whether the value of k^2 + 1 at 2 is 5.
fn has_value(alloc: Global) -> Result<bool, Stop> {
    let p = whole(alloc, &[1, 0, 1])?;
    let v = p.eval(alloc, &Rat::whole(2))?;
    Ok(v == Rat::whole(5))
}

// The roots of (k - 3) (k + 1) (k^2 + 1) that are found.
fn roots(alloc: Global) -> Result<Row<Rat>, Stop> {
    let p = whole(alloc, &[-3, -2, -2, -2, 1])?;
    p.rational_roots(alloc)
}

#[test]
fn has_values_and_roots(rt: HostRuntime) {
    assert!(rt; matches!(has_value(rt.alloc()), Ok(true)));
    let found = match roots(rt.alloc()) {
        Ok(r) => r.as_slice() == [Rat::whole(-1), Rat::whole(3)].as_slice(),
        Err(_) => false,
    };
    assert!(rt; found);
}

// The polynomials that are made without coefficients: 1, 4, k - 3, 5 k^2.
fn made(alloc: Global, call: u8) -> Result<Poly<Rat>, Stop> {
    match call {
        0 => Poly::one(alloc),
        1 => Poly::constant(alloc, Rat::whole(4)),
        2 => Poly::linear(alloc, &Rat::whole(3)),
        _ => Poly::monomial(alloc, Rat::whole(5), 2),
    }
}

fn makes(alloc: Global, call: u8, want: &[i128]) -> Result<bool, Stop> {
    let p = made(alloc, call)?;
    Ok(is(&p, want))
}

#[test]
fn makes_simple_polynomials(rt: HostRuntime) {
    let cases: [(u8, &[i128]); 4] = [(0, &[1]), (1, &[4]), (2, &[-3, 1]), (3, &[0, 0, 5])];
    for (call, want) in cases {
        assert!(rt; matches!(makes(rt.alloc(), call, want), Ok(true)), "{call}");
    }
}

// The list as a row.
fn row_of(alloc: Global, list: &[i128]) -> Result<Row<i128>, Stop> {
    let mut row = Row::new(alloc);
    for n in list {
        row.push(*n)?;
    }
    Ok(row)
}

// The polynomial of these lists.
fn plane(alloc: Global, lists: &[[i128; 3]]) -> Result<Poly2, Stop> {
    let mut rows = Row::new(alloc);
    for list in lists {
        rows.push(row_of(alloc, list)?)?;
    }
    Poly2::from_rows(alloc, rows)
}

fn rows_are(p: &Poly2, want: &[&[i128]]) -> bool {
    let rows = p.rows();
    if rows.len() != want.len() {
        return false;
    }
    for i in 0..want.len() {
        if i >= rows.len() || rows.get(i).as_slice() != want[i] {
            return false;
        }
    }
    true
}

// k - n - 1, with zeros at the ends: its lists, and its value at n = 2 and k = 1
fn has_rows_and_value(alloc: Global) -> Result<bool, Stop> {
    let p = plane(alloc, &[[-1, -1, 0], [1, 0, 0], [0, 0, 0]])?;
    let v = p.value(2, 1)?;
    Ok(rows_are(&p, &[&[-1, -1], &[1]]) && v == Rat::whole(-2))
}

#[test]
fn has_values_in_two_variables(rt: HostRuntime) {
    assert!(rt; matches!(has_rows_and_value(rt.alloc()), Ok(true)));
}

// The product of q k + c over these pairs.
fn product_of(alloc: Global, factors: &[(i128, i128)]) -> Result<Poly<Rat>, Stop> {
    let mut p = Poly::one(alloc)?;
    for (q, c) in factors {
        let factor = whole(alloc, &[*c, *q])?;
        p = p.mul(alloc, &factor)?;
    }
    Ok(p)
}

// The greatest common divisor of these products.
fn common_of(alloc: Global, p: &[(i128, i128)], q: &[(i128, i128)]) -> Result<Poly<Rat>, Stop> {
    let p = product_of(alloc, p)?;
    let q = product_of(alloc, q)?;
    common(alloc, &p, &q)
}

// Whether the greatest common divisor of the first two products is the third.
fn has_common(alloc: Global, r: [&[(i128, i128)]; 3]) -> Result<bool, Stop> {
    let g = common_of(alloc, r[0], r[1])?;
    let w = product_of(alloc, r[2])?;
    g.same(alloc, &w)
}

// Eight linear factors with multiplicities, and with other first coefficients: at both Euclid's divisions alone stop at a wide step.
#[test]
fn finds_common_factors_of_long_products(rt: HostRuntime) {
    let cases: [[&[(i128, i128)]; 3]; 2] = [
        [
            &[
                (1, 187),
                (1, 187),
                (1, 187),
                (1, -151),
                (1, 99),
                (1, 3),
                (1, 0),
                (1, 0),
            ],
            &[
                (1, 187),
                (1, 187),
                (1, 63),
                (1, -152),
                (1, 98),
                (1, 0),
                (1, 0),
                (1, 0),
            ],
            &[(1, 187), (1, 187), (1, 0), (1, 0)],
        ],
        [
            &[
                (2, 187),
                (3, -23),
                (1, 64),
                (2, -151),
                (1, 99),
                (3, 2),
                (1, -70),
                (1, 142),
            ],
            &[
                (2, 185),
                (3, -25),
                (1, 64),
                (2, -153),
                (1, 98),
                (3, 1),
                (1, -71),
                (1, 142),
            ],
            &[(1, 64), (1, 142)],
        ],
    ];
    for r in cases {
        assert!(rt; matches!(has_common(rt.alloc(), r), Ok(true)), "{:?}", r[0]);
    }
}

// The next of a list of numbers from -200 to 200 that the first state fixes: one that leaves `class` when 200 is added and it is
// divided by 3.
fn drawn(state: &mut u32, class: u32) -> i128 {
    *state = state.wrapping_mul(1664525).wrapping_add(1013904223);
    let c = (((*state >> 16) % 133) * 3).wrapping_add(class);
    200 - c as i128
}

// p times k + c over `count` drawn numbers.
fn times_drawn(
    alloc: Global,
    p: &Poly<Rat>,
    state: &mut u32,
    count: u32,
    class: u32,
) -> Result<Poly<Rat>, Stop> {
    let mut product = p.copy(alloc)?;
    for _ in 0..count {
        let factor = Poly::linear(alloc, &Rat::whole(drawn(state, class)))?;
        product = product.mul(alloc, &factor)?;
    }
    Ok(product)
}

// Whether the greatest common divisor of x z and y z is z, where x, y and z have no factor in common.
fn keeps_common(alloc: Global, z: &Poly<Rat>, state: &mut u32, count: u32) -> Result<bool, Stop> {
    let x = times_drawn(alloc, z, state, count, 1)?;
    let y = times_drawn(alloc, z, state, count, 2)?;
    let g = common(alloc, &x, &y)?;
    g.same(alloc, z)
}

fn finds_drawn(alloc: Global, state: &mut u32, count: u32, shared: u32) -> Result<bool, Stop> {
    let one = Poly::one(alloc)?;
    let z = times_drawn(alloc, &one, state, shared, 0)?;
    keeps_common(alloc, &z, state, count)
}

#[test]
fn finds_common_factors_of_drawn_products(rt: HostRuntime) {
    let mut state = 3u32;
    for (count, shared) in [(2, 2), (4, 0), (4, 4), (8, 0), (5, 3), (7, 1), (8, 0)] {
        assert!(rt;
            matches!(finds_drawn(rt.alloc(), &mut state, count, shared), Ok(true)),
            "{count} and {shared}"
        );
    }
}
