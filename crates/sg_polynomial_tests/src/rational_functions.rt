use crate::made::{fraction, over, whole};
use sg_num::{Field, Probe, Rat, Row, Stop};
use sg_poly::Poly;
use sg_ratfun::RatFun;
use std::alloc::Global;

fn has_num(alloc: Global, r: &RatFun<Rat>, want: &[i128]) -> Result<bool, Stop> {
    let p = whole(alloc, want)?;
    r.num(alloc)?.same(alloc, &p)
}

fn has_den(alloc: Global, r: &RatFun<Rat>, want: &[i128]) -> Result<bool, Stop> {
    let p = whole(alloc, want)?;
    r.den(alloc)?.same(alloc, &p)
}

// Whether the reduced parts of r are these.
fn has_parts(alloc: Global, r: &RatFun<Rat>, num: &[i128], den: &[i128]) -> Result<bool, Stop> {
    if has_num(alloc, r, num)? {
        return has_den(alloc, r, den);
    }
    Ok(false)
}

// The quotient; a where b is 0.
fn quotient<F: Field>(alloc: Global, a: &F, b: &F) -> Result<F, Stop> {
    if b.is_zero() {
        return a.copy(alloc);
    }
    a.div(alloc, b)
}

// The sum, difference, product and quotient.
fn joined<F: Field>(alloc: Global, a: &F, b: &F, call: u8) -> Result<F, Stop> {
    match call {
        0 => a.add(alloc, b),
        1 => a.sub(alloc, b),
        2 => a.mul(alloc, b),
        _ => quotient(alloc, a, b),
    }
}

// A copy, 0, 1 and 7.
fn made<F: Field>(alloc: Global, a: &F, call: u8) -> Result<F, Stop> {
    match call {
        0 => a.copy(alloc),
        1 => F::zero(alloc),
        2 => F::one(alloc),
        _ => F::from_rat(alloc, Rat::whole(7)),
    }
}

// The answers of the calls on 1/k and 1/(k+1).
fn answer(alloc: Global, call: u8) -> Result<RatFun<Rat>, Stop> {
    let a = fraction(alloc, &[1], &[0, 1])?;
    if call > 3 {
        return made(alloc, &a, call - 4);
    }
    let b = fraction(alloc, &[1], &[1, 1])?;
    joined(alloc, &a, &b, call)
}

fn answers(alloc: Global, call: u8, num: &[i128], den: &[i128]) -> Result<bool, Stop> {
    let r = answer(alloc, call)?;
    has_parts(alloc, &r, num, den)
}

#[test]
fn computes_known_answers(rt: HostRuntime) {
    let cases: [(u8, &[i128], &[i128]); 8] = [
        (0, &[1, 2], &[0, 1, 1]),
        (1, &[1], &[0, 1, 1]),
        (2, &[1], &[0, 1, 1]),
        (3, &[1, 1], &[0, 1]),
        (4, &[1], &[0, 1]),
        (5, &[], &[1]),
        (6, &[1], &[1]),
        (7, &[7], &[1]),
    ];
    for (call, num, den) in cases {
        assert!(rt;
            matches!(answers(rt.alloc(), call, num, den), Ok(true)),
            "{call}"
        );
    }
}

// Whether the fraction of the first two lists, moved, has the others as its parts.
fn moves(alloc: Global, r: [&[i128]; 4], by: i128) -> Result<bool, Stop> {
    let f = fraction(alloc, r[0], r[1])?;
    let g = f.shift_by(alloc, by)?;
    has_parts(alloc, &g, r[2], r[3])
}

// A common factor goes, the denominator is made monic, and 0 is 0 over 1.
#[test]
fn reduces_and_shifts(rt: HostRuntime) {
    let cases: [([&[i128]; 4], i128); 5] = [
        ([&[-1, 0, 1], &[1, 1], &[-1, 1], &[1]], 0),
        ([&[2, 4], &[0, -2], &[-1, -2], &[0, 1]], 0),
        ([&[], &[5, 7], &[], &[1]], 0),
        ([&[-1, 0, 1], &[1, 1], &[0, 1], &[1]], 1),
        ([&[0, 1], &[-1, 1], &[-5, 1], &[-6, 1]], -5),
    ];
    for (r, by) in cases {
        assert!(rt; matches!(moves(rt.alloc(), r, by), Ok(true)), "{by}");
    }
}

// Whether the fraction has this value at a whole number.
fn has_value(
    alloc: Global,
    p: &[i128],
    q: &[i128],
    at: i128,
    want: Option<Rat>,
) -> Result<bool, Stop> {
    let f = fraction(alloc, p, q)?;
    let v = f.value(alloc, &Rat::whole(at))?;
    Ok(v == want)
}

#[test]
fn has_values(rt: HostRuntime) {
    let cases: [(&[i128], &[i128], i128, Option<Rat>); 3] = [
        (&[-1, 0, 1], &[1, 1], 3, Rat::new(2, 1)),
        (&[1], &[-1, 1], 1, None),
        (&[1], &[-1, 1], 6, Rat::new(1, 5)),
    ];
    for (p, q, at, want) in cases {
        assert!(rt;
            matches!(has_value(rt.alloc(), p, q, at, want), Ok(true)),
            "{p:?}/{q:?} at {at}"
        );
    }
}

fn probe_of<F: Field>(alloc: Global, a: F, b: F) -> Result<Probe, Stop> {
    let mut list = Row::new(alloc);
    list.push(a)?;
    list.push(b)?;
    F::probe(alloc, &list)
}

// k and 1/(k-1) are tried at 0, where the first is 0, at 1, where the second has no value, and then at 2.
fn probed(alloc: Global) -> Result<bool, Stop> {
    let k = fraction(alloc, &[0, 1], &[1])?;
    let r = fraction(alloc, &[1], &[-1, 1])?;
    let p = probe_of(alloc, k, r)?;
    Ok(
        p.args.as_slice() == [2].as_slice()
            && p.values.as_slice() == [Rat::whole(2), Rat::whole(1)].as_slice(),
    )
}

#[test]
fn probes(rt: HostRuntime) {
    assert!(rt; matches!(probed(rt.alloc()), Ok(true)));
}

// Whether 7 is the constant 7.
fn is_seven(alloc: Global) -> Result<bool, Stop> {
    let c = RatFun::from_constant(alloc, Rat::whole(7))?;
    let r = c.constant(alloc)?;
    Ok(r == Some(Rat::whole(7)))
}

// Whether k is no constant.
fn is_none(alloc: Global) -> Result<bool, Stop> {
    let k = RatFun::from_poly(alloc, whole(alloc, &[0, 1])?)?;
    let r = k.constant(alloc)?;
    Ok(r.is_none())
}

#[test]
fn tells_constants(rt: HostRuntime) {
    assert!(rt; matches!(is_seven(rt.alloc()), Ok(true)));
    assert!(rt; matches!(is_none(rt.alloc()), Ok(true)));
}

// 1/k + .. + 1/(k + 9)
fn ten_fractions(alloc: Global) -> Result<RatFun<Rat>, Stop> {
    let mut sum = RatFun::zero(alloc)?;
    for i in 0..10u8 {
        let r = fraction(alloc, &[1], &[i as i128, 1])?;
        sum = sum.add(alloc, &r)?;
    }
    Ok(sum)
}

// The denominator k (k+1) .. (k+9), and its derivative above it.
fn sums(alloc: Global) -> Result<bool, Stop> {
    let sum = ten_fractions(alloc)?;
    has_parts(
        alloc,
        &sum,
        &[
            362880, 2053152, 3518100, 2894720, 1346625, 379638, 66150, 6960, 405, 10,
        ],
        &[
            0, 362880, 1026576, 1172700, 723680, 269325, 63273, 9450, 870, 45, 1,
        ],
    )
}

#[test]
fn adds_ten_fractions(rt: HostRuntime) {
    assert!(rt; matches!(sums(rt.alloc()), Ok(true)));
}

// (a + b) c
fn sum_first<F: Field>(alloc: Global, a: &F, b: &F, c: &F) -> Result<F, Stop> {
    let sum = a.add(alloc, b)?;
    sum.mul(alloc, c)
}

// a c + b c
fn products_first<F: Field>(alloc: Global, a: &F, b: &F, c: &F) -> Result<F, Stop> {
    let left = a.mul(alloc, c)?;
    let right = b.mul(alloc, c)?;
    left.add(alloc, &right)
}

fn distributes<F: Field>(alloc: Global, a: &F, b: &F, c: &F) -> Result<bool, Stop> {
    let x = sum_first(alloc, a, b, c)?;
    let y = products_first(alloc, a, b, c)?;
    x.same(alloc, &y)
}

// Three numbers from -3 to 3.
fn drawn_list(state: &mut u32) -> [i128; 3] {
    let mut list = [0i128; 3];
    for n in list.iter_mut() {
        *state = state.wrapping_mul(1664525).wrapping_add(1013904223);
        *n = (*state >> 16) as i128 % 7 - 3;
    }
    list
}

fn drawn_fraction(alloc: Global, state: &mut u32) -> Result<RatFun<Rat>, Stop> {
    let num = drawn_list(state);
    let den = drawn_list(state);
    fraction(alloc, &num, &den)
}

fn distributes_drawn(alloc: Global, state: &mut u32) -> Result<bool, Stop> {
    let a = drawn_fraction(alloc, state)?;
    let b = drawn_fraction(alloc, state)?;
    let c = drawn_fraction(alloc, state)?;
    distributes(alloc, &a, &b, &c)
}

#[test]
fn distributes_products_of_drawn_fractions(rt: HostRuntime) {
    let mut state = 1u32;
    for i in 0..12u8 {
        assert!(rt;
            matches!(distributes_drawn(rt.alloc(), &mut state), Ok(true)),
            "{i}"
        );
    }
}

// t
fn variable(alloc: Global) -> Result<Poly<RatFun<Rat>>, Stop> {
    let zero = RatFun::zero(alloc)?;
    Poly::linear(alloc, &zero)
}

// t / (t - p / q)
fn tower_part(alloc: Global, p: &[i128], q: &[i128]) -> Result<RatFun<RatFun<Rat>>, Stop> {
    let root = fraction(alloc, p, q)?;
    let d = Poly::linear(alloc, &root)?;
    let t = variable(alloc)?;
    over(alloc, t, d)
}

// t/(t + 1/k), t/(t + k) and t/(t + 1 - k), over the rational functions of k.
fn tower_law(alloc: Global) -> Result<bool, Stop> {
    let a = tower_part(alloc, &[-1], &[0, 1])?;
    let b = tower_part(alloc, &[0, -1], &[1])?;
    let c = tower_part(alloc, &[-1, 1], &[1])?;
    distributes(alloc, &a, &b, &c)
}

fn is_probed(p: &Probe) -> bool {
    let half = Rat::new(1, 2);
    let values = p.values.as_slice();
    p.args.as_slice() == [1, 1].as_slice() && values.iter().all(|v| Some(*v) == half)
}

// t/(t + 1/k) and t/(t + k) have at k = 1 and t = 1 the value 1/2.
fn tower_probe(alloc: Global) -> Result<bool, Stop> {
    let a = tower_part(alloc, &[-1], &[0, 1])?;
    let b = tower_part(alloc, &[0, -1], &[1])?;
    let p = probe_of(alloc, a, b)?;
    Ok(is_probed(&p))
}

#[test]
fn computes_in_a_tower(rt: HostRuntime) {
    assert!(rt; matches!(tower_law(rt.alloc()), Ok(true)));
    assert!(rt; matches!(tower_probe(rt.alloc()), Ok(true)));
}

// p times k + e n + c, over the fractions of polynomials in n.
fn times_line(
    alloc: Global,
    p: &Poly<RatFun<Rat>>,
    e: i128,
    c: i128,
) -> Result<Poly<RatFun<Rat>>, Stop> {
    let root = fraction(alloc, &[c, e], &[-1])?;
    let factor = Poly::linear(alloc, &root)?;
    p.mul(alloc, &factor)
}

// The product of k + e n + c over these pairs.
fn product_of(alloc: Global, factors: &[(i128, i128)]) -> Result<Poly<RatFun<Rat>>, Stop> {
    let mut p = Poly::one(alloc)?;
    for (e, c) in factors {
        p = times_line(alloc, &p, *e, *c)?;
    }
    Ok(p)
}

// Whether the greatest common divisor of the first two is the third.
fn is_common(
    alloc: Global,
    p: &Poly<RatFun<Rat>>,
    q: &Poly<RatFun<Rat>>,
    w: &Poly<RatFun<Rat>>,
) -> Result<bool, Stop> {
    if p.is_zero() {
        return Ok(false);
    }
    let g = p.gcd(alloc, q)?;
    g.same(alloc, w)
}

fn has_common(alloc: Global, r: [&[(i128, i128)]; 3]) -> Result<bool, Stop> {
    let p = product_of(alloc, r[0])?;
    let q = product_of(alloc, r[1])?;
    let w = product_of(alloc, r[2])?;
    is_common(alloc, &p, &q, &w)
}

// Products of linear factors in k and n: at the second Euclid's divisions alone stop at a wide step.
#[test]
fn finds_common_factors_of_long_products(rt: HostRuntime) {
    let cases: [[&[(i128, i128)]; 3]; 2] = [
        [
            &[(-1, 170), (0, -130), (-1, -50), (-1, -50), (1, 110)],
            &[(-1, 160), (0, -120), (-1, -50), (-1, -50), (1, 190)],
            &[(-1, -50), (-1, -50)],
        ],
        [
            &[
                (-1, 170),
                (0, -130),
                (-1, -50),
                (-2, -51),
                (1, 110),
                (-1, 4),
                (0, 7),
                (-1, 60),
            ],
            &[
                (-1, 160),
                (0, -120),
                (-1, -51),
                (-2, -50),
                (1, 190),
                (-1, 5),
                (0, 8),
                (-1, 60),
            ],
            &[(-1, 60)],
        ],
    ];
    for r in cases {
        assert!(rt; matches!(has_common(rt.alloc(), r), Ok(true)), "{:?}", r[0]);
    }
}

// p times k + e n + c over `count` draws of e from -1 to 1 and c from -200 to 200, where c leaves `class` when 200 is added and it is
// divided by 3.
fn times_drawn(
    alloc: Global,
    p: &Poly<RatFun<Rat>>,
    state: &mut u32,
    count: u32,
    class: u32,
) -> Result<Poly<RatFun<Rat>>, Stop> {
    let mut product = p.copy(alloc)?;
    for _ in 0..count {
        *state = state.wrapping_mul(1664525).wrapping_add(1013904223);
        let c = (((*state >> 16) % 133) * 3).wrapping_add(class);
        let e = (*state >> 8) % 3;
        product = times_line(alloc, &product, 1 - e as i128, 200 - c as i128)?;
    }
    Ok(product)
}

// Whether the greatest common divisor of x z and y z is z, where x, y and z have no factor in common.
fn keeps_common(
    alloc: Global,
    z: &Poly<RatFun<Rat>>,
    state: &mut u32,
    count: u32,
) -> Result<bool, Stop> {
    let x = times_drawn(alloc, z, state, count, 1)?;
    let y = times_drawn(alloc, z, state, count, 2)?;
    is_common(alloc, &x, &y, z)
}

fn finds_drawn(alloc: Global, state: &mut u32, count: u32, shared: u32) -> Result<bool, Stop> {
    let one = Poly::one(alloc)?;
    let z = times_drawn(alloc, &one, state, shared, 0)?;
    keeps_common(alloc, &z, state, count)
}

#[test]
fn finds_common_factors_of_drawn_products(rt: HostRuntime) {
    let mut state = 3u32;
    for (count, shared) in [(2, 1), (4, 0), (2, 2), (4, 2), (6, 0)] {
        assert!(rt;
            matches!(finds_drawn(rt.alloc(), &mut state, count, shared), Ok(true)),
            "{count} and {shared}"
        );
    }
}

// (k + 5) over the product of k + c over these numbers.
fn over_product(alloc: Global, factors: &[i128]) -> Result<RatFun<Rat>, Stop> {
    let mut p = Poly::one(alloc)?;
    for c in factors {
        let factor = Poly::linear(alloc, &Rat::whole(*c))?;
        p = p.mul(alloc, &factor)?;
    }
    over(alloc, whole(alloc, &[5, 1])?, p)
}

// x + y - y
fn back(alloc: Global, x: &RatFun<Rat>, y: &RatFun<Rat>) -> Result<RatFun<Rat>, Stop> {
    let sum = x.add(alloc, y)?;
    sum.sub(alloc, y)
}

// Whether this is x, where Euclid's divisions alone stop at a wide step.
fn adds_and_takes(alloc: Global) -> Result<bool, Stop> {
    let x = over_product(alloc, &[-187, 23, -64, 151, -99, -3])?;
    let y = over_product(alloc, &[-186, 23, -63, 152, -99, -2])?;
    back(alloc, &x, &y)?.same(alloc, &x)
}

#[test]
fn adds_fractions_of_long_products(rt: HostRuntime) {
    assert!(rt; matches!(adds_and_takes(rt.alloc()), Ok(true)));
}
