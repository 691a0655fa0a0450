ghost use Rattle.std.specs.Prelude.{◌≡◌, ℕ, ◌+◌, ◌++◌, length, map, IfOk, IfErr, OnOk};
ghost use Rattle.sg_algebra.proofs.Polynomial.{neg_polynomial, ◌-ᵖ◌, ◌*ᵖ◌};
ghost use Rattle.sg_num.specs.Stopped.{KeepsWideStep};
ghost use Rattle.sg_matrix.specs.Systems.{IsSystem};
ghost use Rattle.sg_poly.specs.Polynomials.{polynomial};
ghost use Rattle.sg_first_order_theory.proofs.FirstOrder.{left};
ghost use Rattle.sg_first_order_theory.proofs.Under.{powers, variable as the_variable};
ghost use Rattle.sg_first_order_theory.proofs.System.{columns as the_columns, row_of};
ghost use Rattle.sg_first_order_theory.proofs.Basis.{IsSpace};
ghost use Rattle.sg_rational.specs.Systems.{IsFilled};

use crate::degree::{coefficient_at, longest};
use sg_matrix::Echelon;
use sg_num::{Field, Row, Stop};
use sg_poly::Poly;
use std::alloc::Global;

// A basis of the constants and coefficients of all polynomial solutions below a degree.
pub(crate) fn vectors<F: Field>(
    alloc: Global,
    a: &Poly<F>,
    b: &Poly<F>,
    sides: &[Poly<F>],
    n: usize,
) -> Result<Row<Row<F>>, Stop>
    ensures value { IfOk result (λ r. IsSpace F.val (polynomial F.val a.now) (polynomial F.val b.now) (map (polynomial F.val) sides.now) n r) }
    ensures wide { IfErr result KeepsWideStep }
{
    let list = columns(alloc, a, b, sides, n)?;
    let size = longest(list.as_slice());
    let system = filled(alloc, list.as_slice(), size)?;
    let basis = system.basis(alloc)?;
    Ok(basis)
}

// The system of the coefficients of the columns, one row for each power of k below `size`.
fn filled<F: Field>(alloc: Global, columns: &[Poly<F>], size: usize) -> Result<Echelon<F>, Stop>
    ensures width { IfOk result (λ e. e.width ≡ length columns.now) }
    ensures form { IfOk result (λ e. IsSystem F.val e.width e.rows) }
    ensures value { IfOk result (λ e. IsFilled F.val (map (map F.val) columns.now) (length columns.now) size e.rows) }
    ensures wide { IfErr result KeepsWideStep }
{
    let mut system = Echelon::new(alloc, columns.len());
    for t in 0..size {
        add_at(alloc, &mut system, columns, t)?;
    }
    Ok(system)
}

// Adds the row of the power t, unless there are as many rows as columns: then all vectors but 0 are excluded already.
fn add_at<F: Field>(
    alloc: Global,
    system: &mut Echelon<F>,
    columns: &[Poly<F>],
    t: usize,
) -> Result<(), Stop>
    requires width { system.old.width ≡ length columns.now }
    requires form { IsSystem F.val system.old.width system.old.rows }
    requires value { IsFilled F.val (map (map F.val) columns.now) (length columns.now) t system.old.rows }
    ensures width { system.new.width ≡ system.old.width }
    ensures form { OnOk result (IsSystem F.val system.new.width system.new.rows) }
    ensures value { OnOk result (IsFilled F.val (map (map F.val) columns.now) (length columns.now) (t + 1) system.new.rows) }
    ensures wide { IfErr result KeepsWideStep }
{
    if system.rank() == columns.len() {
        return Ok(());
    }
    let row = row_at(alloc, columns, t)?;
    let _fresh = system.add_row(row)?;
    Ok(())
}

// The coefficients at `t`.
fn row_at<F: Field>(alloc: Global, columns: &[Poly<F>], t: usize) -> Result<Row<F>, Stop>
    ensures size { IfOk result (λ r. length r ≡ length columns.now) }
    ensures value { IfOk result (λ r. map F.val r ≡ row_of (map (map F.val) columns.now) t) }
    ensures wide { IfErr result KeepsWideStep }
{
    let mut row = Row::new(alloc);
    for i in 0..columns.len() {
        row.push(coefficient_at(alloc, &columns[i], t)?)?;
    }
    Ok(row)
}

// What multiplies the unknowns: the constants, then the coefficients of y.
fn columns<F: Field>(
    alloc: Global,
    a: &Poly<F>,
    b: &Poly<F>,
    sides: &[Poly<F>],
    n: usize,
) -> Result<Row<Poly<F>>, Stop>
    ensures value { IfOk result (λ r. map (polynomial F.val) r ≡
        the_columns (polynomial F.val a.now) (polynomial F.val b.now) (map (polynomial F.val) sides.now) n) }
    ensures wide { IfErr result KeepsWideStep }
{
    let mut columns = Row::new(alloc);
    push_negatives(alloc, &mut columns, sides)?;
    push_images(alloc, &mut columns, a, b, n)?;
    Ok(columns)
}

// Adds the negatives of these.
fn push_negatives<F: Field>(
    alloc: Global,
    columns: &mut Row<Poly<F>>,
    sides: &[Poly<F>],
) -> Result<(), Stop>
    ensures value { OnOk result (map (polynomial F.val) columns.new ≡
        map (polynomial F.val) columns.old ++ map neg_polynomial (map (polynomial F.val) sides.now)) }
    ensures wide { IfErr result KeepsWideStep }
{
    for i in 0..sides.len() {
        columns.push(negative(alloc, &sides[i])?)?;
    }
    Ok(())
}

// The negative.
fn negative<F: Field>(alloc: Global, p: &Poly<F>) -> Result<Poly<F>, Stop>
    ensures value { IfOk result (λ r. polynomial F.val r ≡ neg_polynomial (polynomial F.val p.now)) }
    ensures wide { IfErr result KeepsWideStep }
{
    let zero = Poly::from_coeffs(alloc, Row::new(alloc))?;
    let r = zero.sub(alloc, p)?;
    Ok(r)
}

// Adds the images of the first n powers of k.
fn push_images<F: Field>(
    alloc: Global,
    columns: &mut Row<Poly<F>>,
    a: &Poly<F>,
    b: &Poly<F>,
    n: usize,
) -> Result<(), Stop>
    ensures value { OnOk result (map (polynomial F.val) columns.new ≡
        map (polynomial F.val) columns.old ++ map (left (polynomial F.val a.now) (polynomial F.val b.now)) (powers n)) }
    ensures wide { IfErr result KeepsWideStep }
{
    let x = variable(alloc)?;
    let y = x.shift_by(alloc, 1)?;
    let mut power = Poly::one(alloc)?;
    let mut next = Poly::one(alloc)?;
    for _degree in 0..n {
        columns.push(image(alloc, a, b, &power, &next)?)?;
        power = x.mul(alloc, &power)?;
        next = y.mul(alloc, &next)?;
    }
    Ok(())
}

// The polynomial k.
fn variable<F: Field>(alloc: Global) -> Result<Poly<F>, Stop>
    ensures value { IfOk result (λ r. polynomial F.val r ≡ the_variable) }
    ensures wide { IfErr result KeepsWideStep }
{
    let one = F::one(alloc)?;
    let k = Poly::monomial(alloc, one, 1)?;
    Ok(k)
}

// a (k+1)^j - b k^j, where `power` is k^j and `next` (k+1)^j.
fn image<F: Field>(
    alloc: Global,
    a: &Poly<F>,
    b: &Poly<F>,
    power: &Poly<F>,
    next: &Poly<F>,
) -> Result<Poly<F>, Stop>
    ensures value { IfOk result (λ r. polynomial F.val r ≡
        polynomial F.val a.now *ᵖ polynomial F.val next.now -ᵖ polynomial F.val b.now *ᵖ polynomial F.val power.now) }
    ensures wide { IfErr result KeepsWideStep }
{
    let left = a.mul(alloc, next)?;
    let right = b.mul(alloc, power)?;
    let r = left.sub(alloc, &right)?;
    Ok(r)
}
