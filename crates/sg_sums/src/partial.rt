use sg_num::Row;

/// What is known so far of a solution: its constants, the powers of t from some on, and what these leave of the right side.
#[derive(Drop)]
pub struct Partial<K, E> {
    pub coeffs: Row<K>,
    pub value: Row<E>,
    pub left: Row<E>,
}
