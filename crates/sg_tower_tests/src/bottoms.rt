use crate::made::polynomial;
use sg_bottom::Bottom;
use sg_matrix::Solution;
use sg_num::{Field, Rat, Row, Stop};
use sg_poly::Poly;
use sg_ratfun::RatFun;
use sg_rational::solve_first;
use sg_tower::Tower;
use std::alloc::Global;

// The coefficients of a numerator and a denominator, the lowest first.
type Parts<'a> = (&'a [i128], &'a [i128]);

// A basis of the solutions.
type Basis<F> = Row<Solution<F, RatFun<F>>>;

// The fraction of these; 0 where the lower one is 0.
fn over<F: Field>(alloc: Global, p: Poly<F>, q: Poly<F>) -> Result<RatFun<F>, Stop> {
    if q.is_zero() {
        return RatFun::zero(alloc);
    }
    RatFun::new(alloc, p, q)
}

fn fraction(alloc: Global, parts: Parts) -> Result<RatFun<Rat>, Stop> {
    let upper = polynomial(alloc, parts.0)?;
    let lower = polynomial(alloc, parts.1)?;
    over(alloc, upper, lower)
}

// The basis; none where a is 0.
fn solved<F: Field>(
    alloc: Global,
    a: &RatFun<F>,
    fs: &Row<RatFun<F>>,
) -> Result<Option<Basis<F>>, Stop> {
    if a.is_zero() {
        return Ok(None);
    }
    let basis = solve_first(alloc, a, fs)?;
    Ok(Some(basis))
}

fn known(alloc: Global, a: Parts, list: &[Parts]) -> Result<Option<Basis<Rat>>, Stop> {
    let mut fs = Row::new(alloc);
    for f in list {
        fs.push(fraction(alloc, *f)?)?;
    }
    let a = fraction(alloc, a)?;
    solved(alloc, &a, &fs)
}

// Whether one of the pairs has constants that aren't all 0.
fn is_closed<F: Field, E: Drop>(basis: &Row<Solution<F, E>>) -> bool {
    let mut some = false;
    for s in basis.as_slice() {
        for c in s.coeffs.as_slice() {
            some = some || !c.is_zero();
        }
    }
    some
}

fn has<F: Field>(basis: &Basis<F>, pairs: usize, closed: bool) -> bool {
    basis.len() == pairs && is_closed(basis) == closed
}

#[test]
fn answers_known_spaces(rt: HostRuntime) {
    let cases: [(Parts, &[Parts], usize, bool); 10] = [
        ((&[1], &[1]), &[(&[1], &[0, 1, 1])], 2, true),
        ((&[1], &[1]), &[(&[1], &[0, 1])], 1, false),
        ((&[1], &[1]), &[(&[1], &[0, 3, 1])], 2, true),
        ((&[1], &[1]), &[(&[0, 1], &[1]), (&[1], &[0, 1])], 2, true),
        ((&[2], &[1]), &[(&[1], &[1])], 1, true),
        ((&[2], &[1]), &[], 0, false),
        ((&[1], &[1]), &[], 1, false),
        ((&[0, 1], &[3, 1]), &[(&[], &[1])], 2, true),
        ((&[0, 1], &[3, 1]), &[], 1, false),
        ((&[1, 1], &[1]), &[(&[0, 1], &[1])], 1, true),
    ];
    for (a, fs, pairs, closed) in cases {
        let basis = known(rt.alloc(), a, fs);
        assert!(rt;
            matches!(&basis, Ok(Some(b)) if has(b, pairs, closed)),
            "{a:?}"
        );
    }
}

// The space of (1, -1/k) and (0, 1): a pair of c and g is in it exactly where g + c/k is constant.
fn is_known(alloc: Global, s: &Solution<Rat, RatFun<Rat>>) -> Result<bool, Stop> {
    if s.coeffs.is_empty() {
        return Ok(false);
    }
    let c = RatFun::from_rat(alloc, *s.coeffs.get(0))?;
    let part = fraction(alloc, (&[1], &[0, 1]))?.mul(alloc, &c)?;
    let rest = s.value.add(alloc, &part)?;
    let constant = rest.constant(alloc)?;
    Ok(constant.is_some())
}

#[test]
fn telescopes_one_over_a_product(rt: HostRuntime) {
    let basis = known(rt.alloc(), (&[1], &[1]), &[(&[1], &[0, 1, 1])]);
    assert!(rt; matches!(&basis, Ok(Some(_))));
    if let Ok(Some(basis)) = basis {
        for s in basis.as_slice() {
            assert!(rt; matches!(is_known(rt.alloc(), s), Ok(true)));
        }
    }
}

// u + w n, as a rational function of n.
fn line(alloc: Global, u: i128, w: i128) -> Result<RatFun<Rat>, Stop> {
    fraction(alloc, (&[u, w], &[1]))
}

// The polynomial over the rational functions of n with these coefficients.
fn lines(alloc: Global, list: &[(i128, i128)]) -> Result<Poly<RatFun<Rat>>, Stop> {
    let mut row = Row::new(alloc);
    for (u, w) in list {
        row.push(line(alloc, *u, *w)?)?;
    }
    let p = Poly::from_coeffs(alloc, row)?;
    Ok(p)
}

type Lines<'a> = &'a [(i128, i128)];

fn over_lines(alloc: Global, p: Lines, q: Lines) -> Result<RatFun<RatFun<Rat>>, Stop> {
    let upper = lines(alloc, p)?;
    let lower = lines(alloc, q)?;
    over(alloc, upper, lower)
}

// t(k) = binomial(n, k), t(k+1)/t(k) = (n - k)/(k + 1), and binomial(n+1, k) = t(k) (n+1)/(n+1-k): the sum over k of
// binomial(n+1, k) - 2 binomial(n, k) telescopes, and nothing else does.
fn binomial(alloc: Global) -> Result<Option<Basis<RatFun<Rat>>>, Stop> {
    let mut fs = Row::new(alloc);
    fs.push(RatFun::one(alloc)?)?;
    fs.push(over_lines(alloc, &[(1, 1)], &[(1, 1), (-1, 0)])?)?;
    let a = over_lines(alloc, &[(0, 1), (-1, 0)], &[(1, 0), (1, 0)])?;
    solved(alloc, &a, &fs)
}

#[test]
fn finds_the_step_of_binomials(rt: HostRuntime) {
    let basis = binomial(rt.alloc());
    assert!(rt; matches!(&basis, Ok(Some(b)) if has(b, 1, true)));
}

// 1/((k+n) (k+u+w n)): its residues are 1/(u+(w-1) n) and the opposite, and its roots differ by a whole number where w is 1.
fn paired(alloc: Global, u: i128, w: i128) -> Result<Option<Basis<RatFun<Rat>>>, Stop> {
    let lower = lines(alloc, &[(0, 1), (1, 0)])?;
    let lower = lower.mul(alloc, &lines(alloc, &[(u, w), (1, 0)])?)?;
    let upper = lines(alloc, &[(1, 0)])?;
    let mut fs = Row::new(alloc);
    fs.push(over(alloc, upper, lower)?)?;
    let one = RatFun::one(alloc)?;
    solved(alloc, &one, &fs)
}

#[test]
fn telescopes_with_a_parameter(rt: HostRuntime) {
    let closed = paired(rt.alloc(), 3, 1);
    assert!(rt; matches!(&closed, Ok(Some(b)) if has(b, 2, true)));
    let none = paired(rt.alloc(), 3, 2);
    assert!(rt; matches!(&none, Ok(Some(b)) if has(b, 1, false)));
}

// 1/((q k + c) ..)
fn one_over(alloc: Global, factors: &[(i128, i128)]) -> Result<RatFun<Rat>, Stop> {
    let mut lower = polynomial(alloc, &[1])?;
    for (q, c) in factors {
        let factor = polynomial(alloc, &[*c, *q])?;
        lower = lower.mul(alloc, &factor)?;
    }
    let upper = polynomial(alloc, &[1])?;
    over(alloc, upper, lower)
}

fn telescoped(alloc: Global, factors: &[(i128, i128)]) -> Result<Option<Basis<Rat>>, Stop> {
    let mut fs = Row::new(alloc);
    fs.push(one_over(alloc, factors)?)?;
    let one: RatFun<Rat> = RatFun::one(alloc)?;
    solved(alloc, &one, &fs)
}

// Products of factors q k + c with seeded q and c, and whether 1 over them telescopes: by partial fractions it does exactly where
// the residues at the roots of each class modulo 1 sum to 0.
#[test]
fn telescopes_as_partial_fractions_say(rt: HostRuntime) {
    let cases: [(&[(i128, i128)], bool); 16] = [
        (&[(2, 4), (1, 0)], true),
        (&[(2, 2), (2, 6)], true),
        (&[(2, 0), (2, 4)], true),
        (&[(2, 1), (1, 0)], false),
        (&[(2, 5), (1, 4)], false),
        (&[(2, 1), (1, 5)], false),
        (&[(1, 4), (1, 2), (1, 1)], true),
        (&[(1, 3), (2, 2), (1, 6)], true),
        (&[(1, 4), (2, 5), (1, 2)], false),
        (&[(1, 4), (1, 2), (2, 3)], false),
        (&[(1, 3), (2, 0), (1, 6), (1, 4)], true),
        (&[(2, 0), (1, 4), (1, 1), (1, 3)], true),
        (&[(1, 5), (1, 4), (1, 0), (1, 2)], true),
        (&[(2, 4), (1, 1), (2, 6), (2, 5)], false),
        (&[(1, 0), (2, 3), (1, 6), (1, 5), (2, 4)], false),
        (&[(1, 3), (2, 3), (1, 2), (1, 6), (1, 5)], false),
    ];
    for (factors, closed) in cases {
        let basis = telescoped(rt.alloc(), factors);
        let pairs = if closed { 2 } else { 1 };
        assert!(rt;
            matches!(&basis, Ok(Some(b)) if has(b, pairs, closed)),
            "{factors:?}"
        );
    }
}

// The tower with 2^k.
fn powers_of_two(alloc: Global) -> Result<Bottom<Rat>, Stop> {
    let two = RatFun::from_constant(alloc, Rat::whole(2))?;
    let mut alphas = Row::new(alloc);
    alphas.push(two)?;
    Ok(Bottom::new(alphas))
}

// The first product; 1 where there is none.
fn first<T: Tower>(alloc: Global, tower: &T) -> Result<T::Elem, Stop> {
    if tower.products() == 0 {
        tower.one(alloc)
    } else {
        tower.generator(alloc, 0)
    }
}

// How many pairs a basis of the solutions for f times the first product has, and whether one has a constant other than 0.
fn found<T: Tower>(alloc: Global, tower: &T, f: &RatFun<T::K>) -> Result<(usize, bool), Stop> {
    let f = tower.lift(alloc, f)?;
    let mut fs = Row::new(alloc);
    fs.push(tower.mul(alloc, &f, &first(alloc, tower)?)?)?;
    let basis = tower.solve(alloc, &fs)?;
    Ok((basis.len(), is_closed(&basis)))
}

fn with_powers(alloc: Global, parts: Parts) -> Result<(usize, bool), Stop> {
    let f = fraction(alloc, parts)?;
    let tower = powers_of_two(alloc)?;
    found(alloc, &tower, &f)
}

// 2^k and k 2^k are the differences of 2^k and (k - 2) 2^k, and 2^k/k is none.
#[test]
fn telescopes_with_powers_of_two(rt: HostRuntime) {
    let cases: [(Parts, (usize, bool)); 3] = [
        ((&[1], &[1]), (2, true)),
        ((&[0, 1], &[1]), (2, true)),
        ((&[1], &[0, 1]), (1, false)),
    ];
    for (parts, answer) in cases {
        assert!(rt;
            matches!(with_powers(rt.alloc(), parts), Ok(a) if a == answer),
            "{parts:?}"
        );
    }
}

// Whether the first product has an inverse, whose shift times the shift of the product is 1, and each is one term.
fn inverts<T: Tower>(alloc: Global, tower: &T) -> Result<bool, Stop> {
    let x = first(alloc, tower)?;
    match tower.invert(alloc, &x)? {
        None => Ok(false),
        Some(y) => {
            let one = tower.mul(alloc, &tower.shift(alloc, &x)?, &tower.shift(alloc, &y)?)?;
            let same = tower.same(alloc, &one, &tower.one(alloc)?)?;
            Ok(same && tower.flat(alloc, &y)?.len() == 1)
        }
    }
}

// Whether x + x is 2 x, and the difference the constant 0.
fn adds<T: Tower<K = Rat>>(alloc: Global, tower: &T) -> Result<bool, Stop> {
    let x = tower.copy(alloc, &first(alloc, tower)?)?;
    let sum = tower.add(alloc, &x, &x)?;
    let double = tower.scale(alloc, &Rat::whole(2), &x)?;
    let rest = tower.sub(alloc, &sum, &double)?;
    let zero = tower.zero(alloc)?;
    let same = tower.same(alloc, &rest, &zero)?;
    Ok(same && tower.constant_of(alloc, &rest)?.is_some())
}

#[test]
fn computes_with_powers_of_two(rt: HostRuntime) {
    let tower = powers_of_two(rt.alloc());
    assert!(rt; tower.is_ok());
    if let Ok(tower) = tower {
        assert!(rt; matches!(inverts(rt.alloc(), &tower), Ok(true)));
        assert!(rt; matches!(adds(rt.alloc(), &tower), Ok(true)));
    }
}

// 1/(k (k + 1)) has an antidifference, 1/k none.
#[test]
fn telescopes_without_products(rt: HostRuntime) {
    let tower: Bottom<Rat> = Bottom::none(rt.alloc());
    let f = fraction(rt.alloc(), (&[1], &[0, 1, 1]));
    let g = fraction(rt.alloc(), (&[1], &[0, 1]));
    assert!(rt; matches!(&f, Ok(f) if matches!(found(rt.alloc(), &tower, f), Ok((2, true)))));
    assert!(rt; matches!(&g, Ok(g) if matches!(found(rt.alloc(), &tower, g), Ok((1, false)))));
}
