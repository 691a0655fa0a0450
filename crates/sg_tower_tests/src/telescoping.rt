use sg_bottom::Bottom;
use sg_matrix::Solution;
use sg_num::{Field, Rat, Row, Stop};
use sg_poly::Poly;
use sg_ratfun::RatFun;
use sg_sums::SumExt;
use sg_tele::telescope;
use sg_tower::Tower;
use std::alloc::Global;
use std::test::Fail;

// A whole number, and the exponents of k and of the sums t and u.
type Monomial = (i128, u32, u32, u32);

// The tower with the sums t of 1/j and u of t(j)/j.
type Nested = SumExt<SumExt<Bottom<Rat>>>;

// k + n.
fn line(alloc: Global, n: i128) -> Result<RatFun<Rat>, Stop> {
    let mut row = Row::new(alloc);
    row.push(Rat::whole(n))?;
    row.push(Rat::whole(1))?;
    RatFun::from_poly(alloc, Poly::from_coeffs(alloc, row)?)
}

// 1/(k + n).
fn inverse(alloc: Global, n: i128) -> Result<RatFun<Rat>, Stop> {
    let below = line(alloc, n)?;
    if below.is_zero() {
        return Ok(below);
    }
    let one: RatFun<Rat> = Field::one(alloc)?;
    one.div(alloc, &below)
}

// The sum `i`; 1 where there are fewer.
fn own<T: Tower>(alloc: Global, tower: &T, i: u32) -> Result<T::Elem, Stop> {
    if i < tower.products() + tower.sums() {
        tower.generator(alloc, i)
    } else {
        tower.one(alloc)
    }
}

// x times a power of y.
fn times<T: Tower>(
    alloc: Global,
    tower: &T,
    x: T::Elem,
    y: &T::Elem,
    n: u32,
) -> Result<T::Elem, Stop> {
    let mut r = x;
    for _ in 0..n {
        r = tower.mul(alloc, &r, y)?;
    }
    Ok(r)
}

// A monomial in k, t and u.
fn monomial<T: Tower<K = Rat>>(alloc: Global, tower: &T, m: Monomial) -> Result<T::Elem, Stop> {
    let (c, i, j, l) = m;
    let x = tower.scale(alloc, &Rat::whole(c), &tower.one(alloc)?)?;
    let k = tower.lift(alloc, &line(alloc, 0)?)?;
    let x = times(alloc, tower, x, &k, i)?;
    let x = times(alloc, tower, x, &own(alloc, tower, 0)?, j)?;
    times(alloc, tower, x, &own(alloc, tower, 1)?, l)
}

// The sum of the monomials.
fn element<T: Tower<K = Rat>>(
    alloc: Global,
    tower: &T,
    list: &[Monomial],
) -> Result<T::Elem, Stop> {
    let mut sum = tower.zero(alloc)?;
    for m in list {
        let x = monomial(alloc, tower, *m)?;
        sum = tower.add(alloc, &sum, &x)?;
    }
    Ok(sum)
}

// Whether σ(g) - g = f is solved by this g, up to a constant.
fn telescopes<T: Tower<K = Rat>>(
    alloc: Global,
    tower: &T,
    f: &[Monomial],
    g: &[Monomial],
) -> Result<bool, Stop> {
    let f = element(alloc, tower, f)?;
    match telescope(alloc, tower, &f)? {
        None => Ok(false),
        Some(h) => {
            let rest = tower.sub(alloc, &h, &element(alloc, tower, g)?)?;
            Ok(tower.constant_of(alloc, &rest)?.is_some())
        }
    }
}

// Whether f over k has no antidifference.
fn fails_over_k<T: Tower<K = Rat>>(alloc: Global, tower: &T, f: &[Monomial]) -> Result<bool, Stop> {
    let r = tower.lift(alloc, &inverse(alloc, 0)?)?;
    let quotient = tower.mul(alloc, &r, &element(alloc, tower, f)?)?;
    Ok(telescope(alloc, tower, &quotient)?.is_none())
}

// The tower with one more sum that grows by beta; None where that is no new sum.
fn grown<T: Tower>(alloc: Global, below: T, beta: T::Elem) -> Result<Option<SumExt<T>>, Stop> {
    if below.sums() == 64 {
        return Ok(None);
    }
    match telescope(alloc, &below, &beta)? {
        None => Ok(Some(SumExt::new(below, beta))),
        Some(_) => Ok(None),
    }
}

// What t grows by, 1/(k + 1), in the tower without sums; what u grows by, (t + 1/(k + 1))/(k + 1), in the tower with t.
fn growth<T: Tower<K = Rat>>(alloc: Global, tower: &T) -> Result<T::Elem, Stop> {
    let r = tower.lift(alloc, &inverse(alloc, 1)?)?;
    if tower.sums() == 0 {
        return Ok(r);
    }
    let next = tower.add(alloc, &own(alloc, tower, 0)?, &r)?;
    tower.mul(alloc, &r, &next)
}

// The tower with its next sum.
fn raised<T: Tower<K = Rat>>(alloc: Global, below: T) -> Result<Option<SumExt<T>>, Stop> {
    let beta = growth(alloc, &below)?;
    grown(alloc, below, beta)
}

// The tower with t and u.
fn nested(alloc: Global) -> Result<Option<Nested>, Stop> {
    match raised(alloc, Bottom::none(alloc))? {
        None => Ok(None),
        Some(below) => raised(alloc, below),
    }
}

#[test]
fn telescopes_with_nested_sums(rt: HostRuntime) {
    // 2 k, H, 4 k H, H^2, u, t u and t^3
    let cases: [(&[Monomial], &[Monomial]); 7] = [
        (&[(2, 1, 0, 0)], &[(-1, 1, 0, 0), (1, 2, 0, 0)]),
        (&[(1, 0, 1, 0)], &[(-1, 1, 0, 0), (1, 1, 1, 0)]),
        (
            &[(4, 1, 1, 0)],
            &[(1, 1, 0, 0), (-1, 2, 0, 0), (-2, 1, 1, 0), (2, 2, 1, 0)],
        ),
        (
            &[(1, 0, 2, 0)],
            &[(2, 1, 0, 0), (-1, 0, 1, 0), (-2, 1, 1, 0), (1, 1, 2, 0)],
        ),
        (
            &[(1, 0, 0, 1)],
            &[(1, 1, 0, 0), (-1, 0, 1, 0), (-1, 1, 1, 0), (1, 1, 0, 1)],
        ),
        (
            &[(1, 0, 1, 1)],
            &[
                (-3, 1, 0, 0),
                (2, 0, 1, 0),
                (3, 1, 1, 0),
                (-1, 0, 2, 0),
                (-1, 1, 2, 0),
                (-1, 1, 0, 1),
                (1, 1, 1, 1),
            ],
        ),
        (
            &[(1, 0, 3, 0)],
            &[
                (-6, 1, 0, 0),
                (3, 0, 1, 0),
                (6, 1, 1, 0),
                (-2, 0, 2, 0),
                (-3, 1, 2, 0),
                (1, 1, 3, 0),
                (1, 0, 0, 1),
            ],
        ),
    ];
    let tower = nested(rt.alloc());
    assert!(rt; matches!(&tower, Ok(Some(_))));
    if let Ok(Some(tower)) = tower {
        for (f, g) in cases {
            assert!(rt;
                matches!(telescopes(rt.alloc(), &tower, f, g), Ok(true)),
                "{f:?}"
            );
        }
    }
}

// The tower with t.
fn harmonic(alloc: Global) -> Result<Option<SumExt<Bottom<Rat>>>, Stop> {
    raised(alloc, Bottom::none(alloc))
}

#[test]
fn telescopes_with_few_sums(rt: HostRuntime) {
    let bottom: Bottom<Rat> = Bottom::none(rt.alloc());
    let double: &[Monomial] = &[(2, 1, 0, 0)];
    let square: &[Monomial] = &[(-1, 1, 0, 0), (1, 2, 0, 0)];
    assert!(rt; matches!(telescopes(rt.alloc(), &bottom, double, square), Ok(true)));
    let tower = harmonic(rt.alloc());
    assert!(rt; matches!(&tower, Ok(Some(_))));
    if let Ok(Some(tower)) = tower {
        assert!(rt; matches!(telescopes(rt.alloc(), &tower, double, square), Ok(true)));
        assert!(rt; matches!(computes(rt.alloc(), &tower), Ok(true)));
        assert!(rt; matches!(raises(rt.alloc(), &tower), Ok(true)));
    }
}

// Whether a copy of t is t, which is one term and has no inverse.
fn computes<T: Tower>(alloc: Global, tower: &T) -> Result<bool, Stop> {
    let t = own(alloc, tower, 0)?;
    let copy = tower.copy(alloc, &t)?;
    if tower.invert(alloc, &t)?.is_some() || tower.flat(alloc, &t)?.len() != 1 {
        return Ok(false);
    }
    tower.same(alloc, &t, &copy)
}

// Whether 1 of the tower without sums is 1 of the tower with t.
fn raises(alloc: Global, tower: &SumExt<Bottom<Rat>>) -> Result<bool, Stop> {
    let bottom: Bottom<Rat> = Bottom::none(alloc);
    let one = SumExt::<Bottom<Rat>>::raise(alloc, bottom.one(alloc)?)?;
    tower.same(alloc, &one, &tower.one(alloc)?)
}

// Whether t^2/k has no antidifference with t and u.
fn fails(alloc: Global) -> Result<bool, Stop> {
    match nested(alloc)? {
        None => Ok(false),
        Some(tower) => fails_over_k(alloc, &tower, &[(1, 0, 2, 0)]),
    }
}

#[test]
fn finds_that_a_sum_is_new(rt: HostRuntime) {
    assert!(rt; matches!(fails(rt.alloc()), Ok(true)));
}

// Whether (c, g) solves σ(g) - g = c f.
fn is_solution<T: Tower<K = Rat>>(
    alloc: Global,
    tower: &T,
    f: &T::Elem,
    s: &Solution<Rat, T::Elem>,
) -> Result<bool, Stop> {
    // constants past the end are 0
    let c = if s.coeffs.is_empty() {
        Rat::whole(0)
    } else {
        *s.coeffs.get(0)
    };
    let moved = tower.shift(alloc, &s.value)?;
    let left = tower.sub(alloc, &moved, &s.value)?;
    let right = tower.scale(alloc, &c, f)?;
    tower.same(alloc, &left, &right)
}

// How many solutions are answered for one right side; None where one is none.
fn solutions<T: Tower<K = Rat>>(
    alloc: Global,
    tower: &T,
    f: &[Monomial],
) -> Result<Option<usize>, Stop> {
    let mut fs = Row::new(alloc);
    fs.push(element(alloc, tower, f)?)?;
    let rows = tower.solve(alloc, &fs)?;
    for s in rows.as_slice() {
        if !is_solution(alloc, tower, fs.get(0), s)? {
            return Ok(None);
        }
    }
    Ok(Some(rows.len()))
}

#[test]
fn solves_for_a_basis(rt: HostRuntime) {
    let tower = harmonic(rt.alloc());
    assert!(rt; matches!(&tower, Ok(Some(_))));
    if let Ok(Some(tower)) = tower {
        let t: &[Monomial] = &[(1, 0, 1, 0)];
        assert!(rt; matches!(solutions(rt.alloc(), &tower, t), Ok(Some(2))));
        assert!(rt; matches!(solutions(rt.alloc(), &tower, &[]), Ok(Some(2))));
    }
}

// Whether σ(t) is t + 1/(k + 1).
fn moves<T: Tower<K = Rat>>(alloc: Global, tower: &T) -> Result<bool, Stop> {
    let t = own(alloc, tower, 0)?;
    let r = tower.lift(alloc, &inverse(alloc, 1)?)?;
    let next = tower.add(alloc, &t, &r)?;
    let moved = tower.shift(alloc, &t)?;
    tower.same(alloc, &moved, &next)
}

// The constant that an element is, and whether it has an inverse.
fn kind<T: Tower<K = Rat>>(
    alloc: Global,
    tower: &T,
    list: &[Monomial],
) -> Result<(Option<Rat>, bool), Stop> {
    let e = element(alloc, tower, list)?;
    let c = tower.constant_of(alloc, &e)?;
    let inverse = tower.invert(alloc, &e)?;
    Ok((c, inverse.is_some()))
}

#[test]
fn tells_constants_and_units(rt: HostRuntime) -> Result<(), Fail> {
    let tower = harmonic(rt.alloc())?;
    assert!(rt; tower.is_some());
    if let Some(tower) = tower {
        // 3, k, t, t - t, k t
        let cases: [(&[Monomial], Option<Rat>, bool); 5] = [
            (&[(3, 0, 0, 0)], Some(Rat::whole(3)), true),
            (&[(1, 1, 0, 0)], None, true),
            (&[(1, 0, 1, 0)], None, false),
            (&[(1, 0, 1, 0), (-1, 0, 1, 0)], Some(Rat::whole(0)), false),
            (&[(1, 1, 1, 0)], None, false),
        ];
        for (list, constant, unit) in cases {
            assert_eq!(rt; kind(rt.alloc(), &tower, list)?, (constant, unit));
        }
        assert!(rt; moves(rt.alloc(), &tower)?);
    }
    Ok(())
}
