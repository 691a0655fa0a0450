ghost use Rattle.std.specs.Prelude.{◌≡◌, ℕ, ◌+◌, ◌<◌, [], ◌∷◌, ◌++◌, length, map, IfOk, IfErr, OnOk};
ghost use Rattle.sg_num.specs.Stopped.{KeepsWideStep};
ghost use Rattle.sg_tower.specs.Elements.{raised};
ghost use Rattle.sg_tower.specs.Terms.{HasTerms};
ghost use Rattle.sg_sums.specs.Flattened.{with_power, HasTermsFrom};

use sg_num::{Field, Row, Stop};
use sg_tower::{FlatTerm, Tower};
use std::alloc::{AllocError, Global};

/// The terms of a polynomial in t: power by power from the highest, those of the coefficient below.
pub(crate) fn descending_terms<T: Tower>(
    alloc: Global,
    below: &T,
    beta: &T::Elem,
    p: &Row<T::Elem>,
) -> Result<Row<FlatTerm<T::K>>, Stop>
    ensures value { IfOk result (HasTerms (raised (T.reading T.K.vars T.K.val below.now) beta.now) T.K.val p.now) }
    ensures wide { IfErr result KeepsWideStep }
{
    let mut terms = Row::new(alloc);
    for i in 0..p.len() {
        push_terms(alloc, below, beta, p, p.len() - 1 - i, &mut terms)?;
    }
    Ok(terms)
}

// The terms of the coefficient at `n` times t^n, behind those of the higher powers.
fn push_terms<T: Tower>(
    alloc: Global,
    below: &T,
    beta: &T::Elem,
    p: &Row<T::Elem>,
    n: usize,
    terms: &mut Row<FlatTerm<T::K>>,
) -> Result<(), Stop>
    requires inside { n < length p.now }
    requires higher { HasTermsFrom (T.reading T.K.vars T.K.val below.now) T.K.val beta.now p.now (n + 1) terms.old }
    ensures ok { OnOk result (HasTermsFrom (T.reading T.K.vars T.K.val below.now) T.K.val beta.now p.now n terms.new) }
    ensures wide { IfErr result KeepsWideStep }
{
    let _ = beta;
    let inner = below.flat(alloc, p.get(n))?;
    append_raised(inner, n, terms)?;
    Ok(())
}

// The terms times t^n, moved behind the others.
fn append_raised<K: Field>(
    inner: Row<FlatTerm<K>>,
    n: usize,
    terms: &mut Row<FlatTerm<K>>,
) -> Result<(), AllocError>
    ensures ok { OnOk result (terms.new ≡ terms.old ++ map (with_power n) inner) }
{
    for item in inner.into_vec() {
        let mut term = item;
        term.exps.push(n as i128)?;
        terms.push(term)?;
    }
    Ok(())
}
