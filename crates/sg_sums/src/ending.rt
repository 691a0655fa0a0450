ghost use Rattle.std.specs.Prelude.{IfOk, IfErr};
ghost use Rattle.sg_algebra.proofs.Place.{Pairwise};
ghost use Rattle.sg_num.specs.Stopped.{KeepsWideStep};
ghost use Rattle.sg_sums.specs.Polynomials.{State, IsBare, IsNextRow};

use crate::constants::all_solutions;
use crate::partial::Partial;
use crate::poly1::Poly1;
use crate::polys::{joined, monomial};
use crate::powers::{combined, sides};
use sg_matrix::Solution;
use sg_num::{Row, Stop};
use sg_tower::Tower;
use std::alloc::Global;

// The rows without any power, from those without t and above. What these leave is 0, so it isn't computed.
pub(crate) fn ended<T: Tower>(
    alloc: Global,
    below: &T,
    beta: &T::Elem,
    fs: &Row<Poly1<T::Elem>>,
    rows: Row<Partial<T::K, T::Elem>>,
) -> Result<Row<Partial<T::K, T::Elem>>, Stop>
    requires { State (T.reading T.K.vars T.K.val below.now) T.K.val beta.now fs.now 1 rows }
    ensures value { IfOk result (State (T.reading T.K.vars T.K.val below.now) T.K.val beta.now fs.now 0) }
    ensures wide { IfErr result KeepsWideStep }
{
    let ls = sides(alloc, below, beta, fs, 0, &rows)?;
    let inner = all_solutions(alloc, below, &ls)?;
    let bare = without_lefts(alloc, rows)?;
    let new = all_last(alloc, below, beta, &bare, &inner)?;
    Ok(new)
}

// The rows, without what they leave.
fn without_lefts<K: Drop, E: Drop>(
    alloc: Global,
    rows: Row<Partial<K, E>>,
) -> Result<Row<Partial<K, E>>, Stop>
    ensures value { IfOk result (Pairwise IsBare rows) }
    ensures wide { IfErr result KeepsWideStep }
{
    let mut bare = Row::new(alloc);
    for row in rows.into_vec() {
        bare.push(Partial {
            coeffs: row.coeffs,
            value: row.value,
            left: Row::new(alloc),
        })?;
    }
    Ok(bare)
}

// The rows that go on by the solutions below.
fn all_last<T: Tower>(
    alloc: Global,
    below: &T,
    beta: &T::Elem,
    rows: &Row<Partial<T::K, T::Elem>>,
    inner: &Row<Solution<T::K, T::Elem>>,
) -> Result<Row<Partial<T::K, T::Elem>>, Stop>
    ensures value { IfOk result (λ new. Pairwise (IsNextRow (T.reading T.K.vars T.K.val below.now) T.K.val beta.now 0 rows.now) inner.now new) }
    ensures wide { IfErr result KeepsWideStep }
{
    let mut new = Row::new(alloc);
    for i in 0..inner.len() {
        new.push(last(alloc, below, beta, rows, inner.get(i))?)?;
    }
    Ok(new)
}

// The row that goes on by v, with nothing left.
fn last<T: Tower>(
    alloc: Global,
    below: &T,
    beta: &T::Elem,
    rows: &Row<Partial<T::K, T::Elem>>,
    v: &Solution<T::K, T::Elem>,
) -> Result<Partial<T::K, T::Elem>, Stop>
    ensures value { IfOk result (IsNextRow (T.reading T.K.vars T.K.val below.now) T.K.val beta.now 0 rows.now v.now) }
    ensures wide { IfErr result KeepsWideStep }
{
    let sum = combined(alloc, below, beta, &v.coeffs, rows)?;
    let constant = monomial(alloc, below, 0, &v.value)?;
    let value = joined(alloc, below, sum.value, constant)?;
    Ok(Partial {
        coeffs: sum.coeffs,
        value,
        left: Row::new(alloc),
    })
}
