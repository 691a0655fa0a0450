ghost use Rattle.std.specs.Prelude.{◌≡◌, ℕ, suc, ◌<◌, ◌≤◌, [], ◌∷◌, length, map, IfOk, IfErr};
ghost use Rattle.sg_num.specs.Stopped.{KeepsWideStep};
ghost use Rattle.sg_tower.specs.Elements.{IsNewSum};
ghost use Rattle.sg_depth.specs.Building.{IsBuilt, IsGrown};
ghost use Rattle.sg_depth.specs.Fates.{IsFate};
ghost use Rattle.sg_depth.specs.declared.fate.Fate.TheVariants.{New, Known};

use crate::towers::Built;
use sg_build::Letters;
use sg_num::{Field, Row, Stop};
use sg_sums::{Poly1, SumExt};
use sg_tower::Tower;
use std::alloc::{AllocError, Global};

/// The tower after a sum that this element expresses.
pub fn expressed<'a, F: Letters, T: Tower<K = F>>(
    built: Built<'a, T>,
    element: T::Elem,
) -> Result<Built<'a, T>, AllocError>
    requires fate { IsFate built.facts.now (T.reading F.vars F.val built.tower) built.free_gens built.known (Known element) }
    ensures facts { IfOk result (λ b. b.facts.now ≡ built.entry.facts.now) }
    ensures state { IfOk result (λ b. (r : ℕ) → IsBuilt built.entry.facts.now (suc r) (T.reading F.vars F.val built.entry.tower) built.entry.free_gens built.entry.known
        → IsBuilt b.facts.now r (T.reading F.vars F.val b.tower) b.free_gens b.known) }
{
    let Built {
        facts,
        tower,
        mut known,
        free_gens,
    } = built;
    known.push(element)?;
    Ok(Built {
        facts,
        tower,
        known,
        free_gens,
    })
}

/// The tower after a new sum, which grows by `beta`: it has one level more.
pub fn grow<'a, F: Letters, T: Tower<K = F>>(
    alloc: Global,
    built: Built<'a, T>,
    beta: T::Elem,
) -> Result<Built<'a, SumExt<T>>, Stop>
    requires before { (r : ℕ) × IsBuilt built.facts.now (suc r) (T.reading F.vars F.val built.tower) built.free_gens built.known }
    requires fate { IsFate built.facts.now (T.reading F.vars F.val built.tower) built.free_gens built.known (New beta) }
    ensures facts { IfOk result (λ b. b.facts.now ≡ built.entry.facts.now) }
    ensures state { IfOk result (λ b. (r : ℕ) → IsBuilt built.entry.facts.now (suc r) (T.reading F.vars F.val built.entry.tower) built.entry.free_gens built.entry.known
        → IsBuilt b.facts.now r (⟦<SumExt<T> as Tower>⟧.reading F.vars F.val b.tower) b.free_gens b.known) }
    ensures wide { IfErr result KeepsWideStep }
{
    let Built {
        facts,
        tower,
        known,
        free_gens,
    } = built;
    let grown = grown_by(alloc, tower, known, free_gens, beta)?;
    Ok(Built {
        facts,
        tower: grown.tower,
        known: grown.known,
        free_gens: grown.free_gens,
    })
}

// A tower with one more sum, the places of its own sums, and the elements of all sums so far.
#[derive(Drop)]
struct Grown<T: Tower> {
    tower: SumExt<T>,
    known: Row<Poly1<T::Elem>>,
    free_gens: Row<u32>,
}

// The tower with one more sum, which grows by `beta`. The known elements are raised, and the new sum comes last.
fn grown_by<F: Field, T: Tower<K = F>>(
    alloc: Global,
    tower: T,
    known: Row<T::Elem>,
    free_gens: Row<u32>,
    beta: T::Elem,
) -> Result<Grown<T>, Stop>
    requires new { IsNewSum (T.reading F.vars F.val tower) beta }
    requires few { length known ≤ 8 }
    requires room { (T.reading F.vars F.val tower).formal.sums < 64 }
    ensures grown { IfOk result (λ g. IsGrown (T.reading F.vars F.val tower) beta free_gens known (⟦<SumExt<T> as Tower>⟧.reading F.vars F.val g.tower) g.free_gens g.known) }
    ensures wide { IfErr result KeepsWideStep }
{
    let mut free_gens = free_gens;
    free_gens.push(known.len() as u32)?;
    let mut raised = raised_all::<T>(alloc, known)?;
    let last = tower.products() + tower.sums();
    let tower = SumExt::new(tower, beta);
    let own = tower.generator(alloc, last)?;
    raised.push(own)?;
    Ok(Grown {
        tower,
        known: raised,
        free_gens,
    })
}

// The elements as elements of the tower with one more sum.
fn raised_all<T: Tower>(alloc: Global, known: Row<T::Elem>) -> Result<Row<Poly1<T::Elem>>, Stop>
    ensures value { IfOk result (λ r. r ≡ map (λ e. e ∷ []) known) }
    ensures wide { IfErr result KeepsWideStep }
{
    let mut raised = Row::new(alloc);
    for e in known.into_vec() {
        let r = SumExt::<T>::raise(alloc, e)?;
        raised.push(r)?;
    }
    Ok(raised)
}
