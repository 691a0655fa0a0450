ghost use Rattle.std.specs.Prelude.{◌≡◌, ℕ, ◌<◌, [], length, get_or, IsTrue};

use sg_matrix::{Echelon, Solution, null_basis};
use sg_num::{Rat, Row, Stop};
use std::alloc::Global;

// Whether all rows have this width.
fn all_of_width(rows: &Row<Row<Rat>>, width: usize) -> bool
    ensures { IsTrue result → (i : ℕ) → i < length rows.now → length (get_or rows.now i []) ≡ width }
{
    for i in 0..rows.len() {
        if rows.get(i).len() != width {
            return false;
        }
    }
    true
}

fn row(alloc: Global, list: &[i128]) -> Result<Row<Rat>, Stop> {
    let mut row = Row::new(alloc);
    for n in list {
        row.push(Rat::whole(*n))?;
    }
    Ok(row)
}

fn table(alloc: Global, lists: &[&[i128]]) -> Result<Row<Row<Rat>>, Stop> {
    let mut rows = Row::new(alloc);
    for list in lists {
        rows.push(row(alloc, list)?)?;
    }
    Ok(rows)
}

// The basis; None where a row has another width.
fn basis_of(
    alloc: Global,
    rows: &Row<Row<Rat>>,
    width: usize,
) -> Result<Option<Row<Row<Rat>>>, Stop> {
    if !all_of_width(rows, width) {
        return Ok(None);
    }
    let basis = null_basis(alloc, rows, width)?;
    Ok(Some(basis))
}

fn same(a: &Row<Row<Rat>>, b: &Row<Row<Rat>>) -> bool {
    if a.len() != b.len() {
        return false;
    }
    for (r, s) in a.as_slice().iter().zip(b.as_slice().iter()) {
        if r.as_slice() != s.as_slice() {
            return false;
        }
    }
    true
}

fn has_basis(
    alloc: Global,
    lists: &[&[i128]],
    width: usize,
    want: &[&[i128]],
) -> Result<bool, Stop> {
    let rows = table(alloc, lists)?;
    let want = table(alloc, want)?;
    match basis_of(alloc, &rows, width)? {
        Some(basis) => Ok(same(&basis, &want)),
        None => Ok(false),
    }
}

#[test]
fn answers_known_bases(rt: HostRuntime) {
    let cases: [(&[&[i128]], usize, &[&[i128]]); 9] = [
        (&[&[1, 2]], 2, &[&[-2, 1]]),
        (&[&[1, 2], &[2, 4]], 2, &[&[-2, 1]]),
        (&[&[1, 2], &[0, 1]], 2, &[]),
        (&[], 2, &[&[1, 0], &[0, 1]]),
        (&[&[0, 0]], 2, &[&[1, 0], &[0, 1]]),
        (&[], 0, &[]),
        (&[&[]], 0, &[]),
        (
            &[&[0, 0, 2, 6], &[3, 6, 0, 0]],
            4,
            &[&[-2, 1, 0, 0], &[0, 0, -3, 1]],
        ),
        (
            &[&[1, 1, 1, 0], &[0, 1, 1, 0]],
            4,
            &[&[0, -1, 1, 0], &[0, 0, 0, 1]],
        ),
    ];
    for (rows, width, want) in cases {
        assert!(rt;
            matches!(has_basis(rt.alloc(), rows, width, want), Ok(true)),
            "{rows:?}"
        );
    }
}

// The product of a row and a vector, where every step fits.
fn product(r: &[Rat], v: &[Rat]) -> Option<Rat> {
    let mut sum = Rat::whole(0);
    for (a, b) in r.iter().zip(v.iter()) {
        let p = a.times(*b).ok()?;
        sum = sum.plus(p).ok()?;
    }
    Some(sum)
}

// Three rows of four numbers from -3 to 3.
fn seeded(seed: u32) -> [[i128; 4]; 3] {
    let mut rows = [[0i128; 4]; 3];
    let mut state = seed;
    for list in rows.iter_mut() {
        for n in list.iter_mut() {
            state = state.wrapping_mul(1664525).wrapping_add(1013904223);
            *n = (state >> 16) as i128 % 7 - 3;
        }
    }
    rows
}

// Whether each row sends each vector of the basis to 0, and there is a vector.
fn is_sent(alloc: Global, lists: &[[i128; 4]; 3]) -> Result<bool, Stop> {
    let rows = table(alloc, &[&lists[0], &lists[1], &lists[2]])?;
    let basis = match basis_of(alloc, &rows, 4)? {
        Some(basis) => basis,
        None => return Ok(false),
    };
    let mut sent = !basis.is_empty();
    for r in rows.as_slice() {
        for v in basis.as_slice() {
            match product(r.as_slice(), v.as_slice()) {
                Some(p) => sent = sent && p.is_zero(),
                None => return Ok(false),
            }
        }
    }
    Ok(sent)
}

#[test]
fn seeded_rows_send_their_bases_to_zero(rt: HostRuntime) {
    for seed in 1..30u32 {
        let rows = seeded(seed);
        assert!(rt; matches!(is_sent(rt.alloc(), &rows), Ok(true)), "{rows:?}");
    }
}

// Whether a row of width 2 is new to the system.
fn added(alloc: Global, system: &mut Echelon<Rat>, list: &[i128]) -> Result<bool, Stop>
    requires { system.old.width ≡ 2 }
    ensures { system.new.width ≡ 2 }
{
    let r = row(alloc, list)?;
    if r.len() != 2 {
        return Ok(false);
    }
    let fresh = system.add_row(r)?;
    Ok(fresh)
}

fn adds_rows(alloc: Global) -> Result<bool, Stop> {
    let mut system: Echelon<Rat> = Echelon::new(alloc, 2);
    let first = added(alloc, &mut system, &[1, 2])?;
    let second = added(alloc, &mut system, &[2, 4])?;
    let rank = system.rank();
    let line = table(alloc, &[&[-2, 1]])?;
    let known = same(&system.basis(alloc)?, &line);
    let third = added(alloc, &mut system, &[0, 1])?;
    let none = system.basis(alloc)?.is_empty();
    Ok(first && !second && rank == 1 && known && third && system.rank() == 2 && none)
}

#[test]
fn adds_rows_one_at_a_time(rt: HostRuntime) {
    assert!(rt; matches!(adds_rows(rt.alloc()), Ok(true)));
}

fn solved(alloc: Global) -> Result<bool, Stop> {
    let coeffs = row(alloc, &[2, 3])?;
    let solution = Solution {
        coeffs,
        value: Rat::whole(5),
    };
    Ok(solution.coeffs.len() == 2 && solution.value == Rat::whole(5))
}

#[test]
fn keeps_a_solution(rt: HostRuntime) {
    assert!(rt; matches!(solved(rt.alloc()), Ok(true)));
}
