use sg_num::Row;

/// Constants, and the element that they go with.
#[derive(Drop)]
pub struct Solution<K, E> {
    pub coeffs: Row<K>,
    pub value: E,
}
