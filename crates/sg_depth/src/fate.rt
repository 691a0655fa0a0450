/// What a sum is over those before it.
#[derive(Drop)]
pub enum Fate<E> {
    /// New: no element has its difference, which is this one.
    New(E),
    /// Expressed by this element.
    Known(E),
}
