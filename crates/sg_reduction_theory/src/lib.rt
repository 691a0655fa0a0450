//! The theory of first-order equations with a constant coefficient: fractions moved along the shifts until no factor comes again. It has no code.
#![tactic(auto)]
