ghost use Rattle.std.specs.Prelude.{◌≡◌, ◌≤◌, length, map, reverse, unsigned_abs, All, IfOk, IfErr, OnOk};
ghost use Rattle.sg_num.specs.Stopped.{KeepsWideStep};
ghost use Rattle.sg_canonical.specs.Parts.{part_at};
ghost use Rattle.sg_tower.specs.Terms.{term_of};
ghost use Rattle.sg_build.specs.Expressions.{IsWrittenTerm, AreParts};

use crate::letters::Letters;
use sg_canonical::Part;
use sg_num::{Row, Stop};
use sg_tower::FlatTerm;
use std::alloc::{AllocError, Global};

/// Adds the terms over so many products as they are written.
pub fn push_parts<K: Letters>(
    alloc: Global,
    products: usize,
    terms: &[FlatTerm<K>],
    out: &mut Row<Part>,
) -> Result<(), Stop>
    requires { All (λ t. products ≤ length t.exps) terms.now }
    ensures parts { OnOk result (AreParts (K.form K.vars) K.val products terms.now out.old out.new) }
    ensures wide { IfErr result KeepsWideStep }
{
    match terms.split_first() {
        None => Ok(()),
        Some((t, rest)) => {
            let p = part(alloc, products, t)?;
            out.push(p)?;
            push_parts(alloc, products, rest, out)
        }
    }
}

// The term as it is written.
fn part<K: Letters>(alloc: Global, products: usize, t: &FlatTerm<K>) -> Result<Part, Stop>
    requires { products ≤ length t.now.exps }
    ensures part { IfOk result (λ p. IsWrittenTerm (K.form K.vars) products (term_of K.val t.now) (part_at 0 p)) }
    ensures wide { IfErr result KeepsWideStep }
{
    let quotient = K::whole_form(alloc, &t.coeff)?;
    let (first, last) = t.exps.as_slice().split_at(products);
    let exponents = Row::from_slice(alloc, first)?;
    let powers = powers(alloc, last)?;
    Ok(Part {
        powers,
        exponents,
        quotient,
    })
}

// The powers, the last first.
fn powers(alloc: Global, exps: &[i128]) -> Result<Row<u128>, AllocError>
    ensures { IfOk result (λ r. r ≡ reverse (map unsigned_abs exps.now)) }
{
    let mut row = Row::new(alloc);
    for e in exps {
        row.push(e.unsigned_abs())?;
    }
    row.reverse();
    Ok(row)
}
