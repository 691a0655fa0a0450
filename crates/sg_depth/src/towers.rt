use sg_limits::Facts;
use sg_num::Row;
use sg_tower::Tower;

/// The tower over the first sums of a command, or over all. It stands over those of them that are new, at the places `free_gens` of
/// the list, in their order. Item i of `known` is the element of sum i.
#[derive(Drop)]
pub struct Built<'a, T: Tower> {
    pub facts: &'a Facts,
    pub tower: T,
    pub known: Row<T::Elem>,
    pub free_gens: Row<u32>,
}
