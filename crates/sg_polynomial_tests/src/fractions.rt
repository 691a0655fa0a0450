use sg_num::{Op, Rat, Wide};

const MIN: i128 = -170141183460469231731687303715884105728;

const MAX: i128 = 170141183460469231731687303715884105727;

const QUARTER: i128 = 85070591730234615865843651857942052864;

#[test]
fn makes_lowest_terms(rt: HostRuntime) {
    for (num, den, want) in [
        (6, -4, Some((-3, 2))),
        (1, 0, None),
        (0, -5, Some((0, 1))),
        (MIN, -1, None),
        (MIN, 2, Some((-QUARTER, 1))),
        (MIN, MIN, Some((1, 1))),
        (1, MIN, None),
        (2, MIN, Some((-1, QUARTER))),
    ] {
        let got = Rat::new(num, den).map(|r| (r.num(), r.den()));
        assert_eq!(rt; got, want, "{num} / {den}");
    }
    assert!(rt; Rat::whole(0).is_zero() && !Rat::whole(MIN).is_zero());
}

#[test]
fn rounds_up(rt: HostRuntime) {
    for (num, den, want) in [
        (7, 2, 4),
        (-7, 2, -3),
        (4, 1, 4),
        (MIN, 1, MIN),
        (MAX, 1, MAX),
    ] {
        assert_eq!(rt;
            Rat::new(num, den).map(Rat::ceil),
            Some(want),
            "{num} / {den}"
        );
    }
}

fn step(op: Op, left: Rat, right: Rat) -> Result<Rat, Wide> {
    match op {
        Op::Add => left.plus(right),
        Op::Sub => left.minus(right),
        Op::Mul => left.times(right),
        Op::Div => {
            if right.is_zero() {
                Ok(right)
            } else {
                left.over(right)
            }
        }
    }
}

#[test]
fn steps_at_the_ends_of_the_range(rt: HostRuntime) {
    for (op, a, b, want) in [
        (Op::Add, (1, 2), (1, 3), Some((5, 6))),
        (Op::Add, (1, 3), (2, 3), Some((1, 1))),
        (Op::Add, (MIN, 1), (MAX, 1), Some((-1, 1))),
        (Op::Add, (MAX, 1), (1, 1), None),
        (Op::Add, (MAX, 2), (MAX, 2), None),
        (Op::Sub, (0, 1), (MAX, 1), Some((-MAX, 1))),
        (Op::Sub, (0, 1), (MIN, 1), None),
        (Op::Sub, (1, 2), (1, 3), Some((1, 6))),
        (Op::Mul, (2, 3), (3, 2), Some((1, 1))),
        (Op::Mul, (QUARTER, 1), (-2, 1), Some((MIN, 1))),
        (Op::Mul, (QUARTER, 1), (2, 1), None),
        (Op::Mul, (MIN, 1), (1, 2), Some((-QUARTER, 1))),
        (Op::Mul, (MIN, 1), (-1, 1), None),
        (Op::Div, (QUARTER, 1), (-1, 2), Some((MIN, 1))),
        (Op::Div, (MIN, 1), (-1, 1), None),
        (Op::Div, (MIN, 1), (MIN, 1), Some((1, 1))),
        (Op::Div, (1, 1), (MIN, 1), None),
        (Op::Div, (1, 2), (-3, 4), Some((-2, 3))),
    ] {
        let (Some(left), Some(right)) = (Rat::new(a.0, a.1), Rat::new(b.0, b.1)) else {
            assert!(rt; false, "no operands");
            return;
        };
        let got = step(op, left, right);
        let want = want.and_then(|(num, den)| Rat::new(num, den));
        assert_eq!(rt;
            got,
            want.ok_or(Wide { op, left, right }),
            "{a:?} {op:?} {b:?}"
        );
    }
}
