//! What answers about products, and about a summand with a parameter, say of values. It has no code.
//!
//! Entry points, in `specs/`: `Answers` ("none", "free"), `Matches` (products that agree), `Recurrences` (no recurrence up to an order).
//! In `proofs/`: `Answers` (what elements of a tower say of expressions: none, free), `ElementsOver` (each expression over products and
//! sums is an element, wherever the products are placed) and `OwnProducts` (they are), `AtParameters` (values as functions of the
//! parameter, and at numbers), `Relating` and `Matching` (a product agrees with a rational function exactly where its factor is
//! r(k + 1)/r(k)), `NoneToOrder` (no formal recurrence, none in values). `docs/methods/products_in_values.md` has the argument.
#![tactic(auto)]
