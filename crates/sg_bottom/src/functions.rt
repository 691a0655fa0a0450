ghost use Rattle.std.specs.Prelude.{[], IfOk, IfErr};
ghost use Rattle.sg_num.specs.Stopped.{KeepsWideStep};
ghost use Rattle.sg_tower.specs.Elements.{AllSolve, IsComplete};
ghost use Rattle.sg_products.specs.Readings.{laurents};
ghost use Rattle.sg_bottom.specs.Functions.{AreFunctions, AreRaised};

use sg_laurent::Laurent;
use sg_matrix::Solution;
use sg_num::{Field, Row, Stop};
use sg_ratfun::RatFun;
use sg_rational::solve_first;
use std::alloc::Global;

/// All solutions without products: those of the first-order equation with the factor 1 (Abramov 1989).
pub(crate) fn antidifferences<F: Field>(
    alloc: Global,
    fs: &Row<Laurent<RatFun<F>>>,
) -> Result<Row<Solution<F, Laurent<RatFun<F>>>>, Stop>
    ensures sound { IfOk result (AllSolve (laurents F.val []) F.val fs.now) }
    ensures complete { IfOk result (IsComplete (laurents F.val []) F.val fs.now) }
    ensures wide { IfErr result KeepsWideStep }
{
    let functions = functions_of(alloc, fs)?;
    let one: RatFun<F> = Field::one(alloc)?;
    let rows = solve_first(alloc, &one, &functions)?;
    let elements = raised(alloc, rows)?;
    Ok(elements)
}

// The elements without products as rational functions.
fn functions_of<F: Field>(
    alloc: Global,
    fs: &Row<Laurent<RatFun<F>>>,
) -> Result<Row<RatFun<F>>, Stop>
    ensures value { IfOk result (AreFunctions F.val fs.now) }
    ensures wide { IfErr result KeepsWideStep }
{
    let mut functions = Row::new(alloc);
    for i in 0..fs.len() {
        let f = fs.get(i).coefficient(alloc, 0, &[])?;
        functions.push(f)?;
    }
    Ok(functions)
}

// The solutions with their rational functions as elements without products.
fn raised<F: Field>(
    alloc: Global,
    rows: Row<Solution<F, RatFun<F>>>,
) -> Result<Row<Solution<F, Laurent<RatFun<F>>>>, Stop>
    ensures value { IfOk result (AreRaised F.val rows) }
    ensures wide { IfErr result KeepsWideStep }
{
    let mut elements = Row::new(alloc);
    for row in rows.into_vec() {
        let value = Laurent::constant(alloc, 0, row.value)?;
        elements.push(Solution {
            coeffs: row.coeffs,
            value,
        })?;
    }
    Ok(elements)
}
