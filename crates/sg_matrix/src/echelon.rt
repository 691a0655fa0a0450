ghost use Rattle.std.specs.Prelude.{◌≡◌, ℕ, ◌<◌, ◌≤◌, ◌+◌, [], ◌∷◌, ◌++◌, length, map, get_or, IfOk, IfErr, OnOk, OnErr, IsTrue, IsFalse};
ghost use Rattle.sg_algebra.proofs.Value.{Value, ◌-ᵛ◌, ◌*ᵛ◌, zero_value};
ghost use Rattle.sg_algebra.proofs.Polynomial.{coefficient};
ghost use Rattle.sg_algebra.proofs.Tables.{Each, skip};
ghost use Rattle.sg_algebra.proofs.Linear.{row_times, row, Span, table, Form};
ghost use Rattle.sg_num.specs.Stopped.{KeepsWideStep};
ghost use Rattle.sg_matrix.specs.NullBasis.{AreNull, SpanNull};
ghost use Rattle.sg_matrix.specs.Systems.{LeadsAt, IsEchelon, System, system, IsSystem, SameSpan};
ghost use Rattle.sg_matrix.specs.Steps.{IsRest, IsAfter, IsCleared};

use crate::rows::{cleared, divided, lead, leads_before};
use crate::vectors::vectors;
use sg_num::{Field, Row, Stop};
use std::alloc::Global;
use std::marker::Model;

/// A system of rows of one width over a field. It holds the rows of the reduced echelon form of those that were added, so
/// equal systems of conditions hold equal rows. Contracts see the width and the rows held.
#[derive(Drop)]
pub struct Echelon<F: Field> {
    alloc: Global,
    width: usize,
    rows: Row<Row<F>>,
}

impl<F: Field> Model for Echelon<F> {
    ghost use Rattle.sg_matrix.specs.Systems.{System, system, IsSystem};

    ghost Value = { System F };

    ghost view = { λ e. system e.width e.rows };

    ghost invariant = { λ e. IsSystem F.val e.width e.rows };
}

impl<F: Field> Echelon<F> {
    /// The system without rows. It keeps `alloc`, so `add_row` takes none.
    pub fn new(alloc: Global, width: usize) -> Echelon<F>
        ensures value { result ≡ system width [] }
        ensures form { IsSystem F.val result.width result.rows }
    {
        Echelon {
            alloc,
            width,
            rows: Row::new(alloc),
        }
    }

    /// Adds a row of the width. It answers true exactly where the row is no combination of the rows added before, and then
    /// holds one row more. After an error the system is as it was.
    pub fn add_row(&mut self, row: Row<F>) -> Result<bool, Stop>
        requires { length row ≡ self.old.width }
        ensures width { self.new.width ≡ self.old.width }
        ensures form { IsSystem F.val self.new.width self.new.rows }
        ensures span { OnOk result (SameSpan F.val self.new.rows (self.old.rows ++ row ∷ [])) }
        ensures fresh { IfOk result (λ b. IsTrue b → ¬ Span (table F.val self.old.rows) (coefficient (map F.val row))) }
        ensures spanned { IfOk result (λ b. IsFalse b → Span (table F.val self.old.rows) (coefficient (map F.val row))) }
        ensures added { IfOk result (λ b. IsTrue b → length self.new.rows ≡ length self.old.rows + 1) }
        ensures kept { IfOk result (λ b. IsFalse b → self.new ≡ self.old) }
        ensures err { OnErr result (self.new ≡ self.old) }
        ensures wide { IfErr result KeepsWideStep }
    {
        let rest = reduced(self.alloc, &self.rows, row)?;
        match lead(rest.as_slice()) {
            None => Ok(false),
            Some(j) => {
                let place = place_of(&self.rows, j);
                let new = with_row(self.alloc, &self.rows, rest.as_slice(), j, place)?;
                self.rows = new;
                Ok(true)
            }
        }
    }

    /// The number of rows that were added with true. It takes no memory.
    pub fn rank(&self) -> usize
        ensures { result ≡ length self.now.rows }
    {
        self.rows.len()
    }

    /// The basis of all vectors of the width that each row sends to 0: one vector for each free column, in ascending order of
    /// these columns, with 1 in its own free column and 0 in the others. There is none where the rank is the width.
    pub fn basis(&self, alloc: Global) -> Result<Row<Row<F>>, Stop>
        ensures sized { IfOk result (λ basis. (i : ℕ) → i < length basis → length (get_or basis i []) ≡ self.now.width) }
        ensures sound { IfOk result (AreNull F.val self.now.rows) }
        ensures form { IfOk result (λ basis. Form F.val basis) }
        ensures complete { IfOk result (SpanNull F.val self.now.width self.now.rows) }
        ensures full { IfOk result (λ basis. length self.now.rows ≡ self.now.width → basis ≡ []) }
        ensures wide { IfErr result KeepsWideStep }
    {
        let basis = vectors(alloc, &self.rows, self.width)?;
        Ok(basis)
    }
}

// What is left of a row when each row of a system clears the column in which it leads.
fn reduced<F: Field>(alloc: Global, rows: &Row<Row<F>>, given: Row<F>) -> Result<Row<F>, Stop>
    requires sized { (i : ℕ) → i < length rows.now → length (get_or rows.now i []) ≡ length given }
    requires echelon { IsEchelon F.val rows.now }
    ensures value { IfOk result (λ rest. IsRest F.val rows.now (length rows.now) given rest) }
    ensures wide { IfErr result KeepsWideStep }
{
    let mut rest = given;
    for i in 0..rows.len() {
        rest = less_lead(alloc, rest, rows.get(i).as_slice())?;
    }
    Ok(rest)
}

// The rest, with the column in which `b` leads cleared by `b`, whose entry there is 1.
fn less_lead<F: Field>(alloc: Global, rest: Row<F>, b: &[F]) -> Result<Row<F>, Stop>
    requires { length b.now ≡ length rest }
    ensures size { IfOk result (λ r. length r ≡ length rest) }
    ensures value { IfOk result (IsCleared F.val b.now rest) }
    ensures wide { IfErr result KeepsWideStep }
{
    match lead(b) {
        None => Ok(rest),
        Some(p) => {
            let r = cleared(alloc, rest.as_slice(), rest.get(p), b)?;
            Ok(r)
        }
    }
}

// How many rows of a system lead before `j`; they are the first ones.
fn place_of<F: Field>(rows: &Row<Row<F>>, j: usize) -> usize
    requires { IsEchelon F.val rows.now }
    ensures within { result ≤ length rows.now }
    ensures before { (i p : ℕ) → i < result → LeadsAt (row F.val rows.now i) p → p < j }
    ensures after { (i p : ℕ) → result ≤ i → i < length rows.now → LeadsAt (row F.val rows.now i) p → j ≤ p }
{
    for i in 0..rows.len() {
        if !leads_before(rows.get(i).as_slice(), j) {
            return i;
        }
    }
    rows.len()
}

// The system with a row more at `place`: the rest, made 1 at `j`, where the other rows are made 0.
fn with_row<F: Field>(
    alloc: Global,
    rows: &Row<Row<F>>,
    rest: &[F],
    j: usize,
    place: usize,
) -> Result<Row<Row<F>>, Stop>
    requires sized { (i : ℕ) → i < length rows.now → length (get_or rows.now i []) ≡ length rest.now }
    requires some { ¬ (coefficient (map F.val rest.now) j ≡ zero_value) }
    requires inside { j < length rest.now }
    requires within { place ≤ length rows.now }
    ensures value { IfOk result (λ new. Each (IsAfter F.val rows.now rest.now j place) (length rows.now + 1) new) }
    ensures wide { IfErr result KeepsWideStep }
{
    let mut new = Row::new(alloc);
    for i in 0..rows.len() {
        new.push(row_after(alloc, rows, rest, j, place, i)?)?;
    }
    new.push(row_after(alloc, rows, rest, j, place, rows.len())?)?;
    Ok(new)
}

// The row `i` of that system.
fn row_after<F: Field>(
    alloc: Global,
    rows: &Row<Row<F>>,
    rest: &[F],
    j: usize,
    place: usize,
    i: usize,
) -> Result<Row<F>, Stop>
    requires sized { (i : ℕ) → i < length rows.now → length (get_or rows.now i []) ≡ length rest.now }
    requires some { ¬ (coefficient (map F.val rest.now) j ≡ zero_value) }
    requires inside { j < length rest.now }
    requires within { place ≤ length rows.now }
    requires below { i ≤ length rows.now }
    ensures value { IfOk result (λ new. IsAfter F.val rows.now rest.now j place i new) }
    ensures wide { IfErr result KeepsWideStep }
{
    let own = &rest[j];
    if i == place {
        let new = divided(alloc, rest, own)?;
        return Ok(new);
    }
    let b = rows.get(stood(place, i)).as_slice();
    let t = b[j].div(alloc, own)?;
    let new = cleared(alloc, b, &t, rest)?;
    Ok(new)
}

// Where the row `i` stood before a row came to `place`.
fn stood(place: usize, i: usize) -> usize
    requires { ¬ (i ≡ place) }
    ensures old { i ≡ skip place result }
    ensures low { result ≤ i }
    ensures high { place < i → result < i }
{
    if i < place { i } else { i - 1 }
}
