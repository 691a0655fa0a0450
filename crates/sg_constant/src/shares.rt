ghost use Rattle.std.specs.Prelude.{◌≡◌, map, IfOk, IfErr};
ghost use Rattle.sg_algebra.proofs.Polynomial.{constant, ◌*ᵖ◌};
ghost use Rattle.sg_num.specs.Stopped.{KeepsWideStep};
ghost use Rattle.sg_poly.specs.Polynomials.{polynomial};
ghost use Rattle.sg_first_order_theory.proofs.Next.{moved_polynomial};
ghost use Rattle.sg_constant.specs.Shares.{polys, share, image_of, scaled_by};

use sg_num::{Field, Row, Stop};
use sg_poly::Poly;
use std::alloc::Global;

// Numerators over one denominator, one for each of several functions.
#[derive(Drop)]
pub(crate) struct Share<F: Field> {
    pub(crate) uppers: Row<Poly<F>>,
    pub(crate) lower: Poly<F>,
}

// The shares no images of whose denominators have common divisors, and those whose sum was taken to the other side.
#[derive(Drop)]
pub(crate) struct State<F: Field> {
    pub(crate) settled: Row<Share<F>>,
    pub(crate) moved: Row<Share<F>>,
}

// c times the share at k + m.
pub(crate) fn image<F: Field>(alloc: Global, s: &Share<F>, m: i128, c: &F) -> Result<Share<F>, Stop>
    ensures value { IfOk result (λ r. share F.val r ≡ image_of m (F.val c.now) (share F.val s.now)) }
    ensures wide { IfErr result KeepsWideStep }
{
    let uppers = images(alloc, s.uppers.as_slice(), m, c)?;
    let lower = s.lower.shift_by(alloc, m)?;
    Ok(Share { uppers, lower })
}

// c times the share.
pub(crate) fn multiple<F: Field>(alloc: Global, s: &Share<F>, c: &F) -> Result<Share<F>, Stop>
    ensures value { IfOk result (λ r. share F.val r ≡ scaled_by (F.val c.now) (share F.val s.now)) }
    ensures wide { IfErr result KeepsWideStep }
{
    let uppers = multiples(alloc, s.uppers.as_slice(), c)?;
    let lower = s.lower.copy(alloc)?;
    Ok(Share { uppers, lower })
}

// An equal share.
pub(crate) fn copy<F: Field>(alloc: Global, s: &Share<F>) -> Result<Share<F>, Stop>
    ensures value { IfOk result (λ r. share F.val r ≡ share F.val s.now) }
    ensures wide { IfErr result KeepsWideStep }
{
    let uppers = copies(alloc, s.uppers.as_slice())?;
    let lower = s.lower.copy(alloc)?;
    Ok(Share { uppers, lower })
}

// c times the polynomials at k + m.
fn images<F: Field>(alloc: Global, list: &[Poly<F>], m: i128, c: &F) -> Result<Row<Poly<F>>, Stop>
    ensures value { IfOk result (λ r. polys F.val r ≡ map (λ x. constant (F.val c.now) *ᵖ moved_polynomial m x) (polys F.val list.now)) }
    ensures wide { IfErr result KeepsWideStep }
{
    let mut images = Row::new(alloc);
    for i in 0..list.len() {
        images.push(shifted(alloc, &list[i], m, c)?)?;
    }
    Ok(images)
}

// The polynomial c p(k + m).
fn shifted<F: Field>(alloc: Global, p: &Poly<F>, m: i128, c: &F) -> Result<Poly<F>, Stop>
    ensures value { IfOk result (λ r. polynomial F.val r ≡ constant (F.val c.now) *ᵖ moved_polynomial m (polynomial F.val p.now)) }
    ensures wide { IfErr result KeepsWideStep }
{
    let q = p.shift_by(alloc, m)?;
    let r = q.scale(alloc, c)?;
    Ok(r)
}

// c times the polynomials.
fn multiples<F: Field>(alloc: Global, list: &[Poly<F>], c: &F) -> Result<Row<Poly<F>>, Stop>
    ensures value { IfOk result (λ r. polys F.val r ≡ map (λ x. constant (F.val c.now) *ᵖ x) (polys F.val list.now)) }
    ensures wide { IfErr result KeepsWideStep }
{
    let mut multiples = Row::new(alloc);
    for i in 0..list.len() {
        multiples.push(list[i].scale(alloc, c)?)?;
    }
    Ok(multiples)
}

// Copies of the polynomials.
fn copies<F: Field>(alloc: Global, list: &[Poly<F>]) -> Result<Row<Poly<F>>, Stop>
    ensures value { IfOk result (λ r. polys F.val r ≡ polys F.val list.now) }
    ensures wide { IfErr result KeepsWideStep }
{
    let mut copies = Row::new(alloc);
    for i in 0..list.len() {
        copies.push(list[i].copy(alloc)?)?;
    }
    Ok(copies)
}
