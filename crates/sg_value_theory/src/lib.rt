//! The theory of the values of elements of towers. It has no code.
//!
//! Entry points, in `proofs/`: `Elements` (points, values of elements), `TreePoints` and `TowerOf` (elements of expressions, the tower of a text),
//! `NoneMeansNone` (`none_means_none`, `none_with_products`, equations that fail, expressions that agree), `RationalTexts` (texts without sums),
//! `Closing` (a closed form), `OneMore` and `Along` (one more sum), `FormalLaws` (the first and the second law), `FlatTerms` and `Inverses` (the
//! values of lists of terms and of inverses). `specs/Telescoping` has the words for values. `docs/methods/none.md` has the argument.
#![tactic(auto)]
