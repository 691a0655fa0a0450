//! Trees as they are written, with the places of their parts.

/// A place in the text, with the letter or the sign that stands there; a sign is 1 for a minus and 0 elsewhere.
#[derive(Clone, Copy)]
pub struct Mark {
    pub at: u32,
    pub value: u8,
}

/// A number at its first digit; no value where it is 2^128 or more.
#[derive(Clone, Copy)]
pub struct Numeral {
    pub at: u32,
    pub value: Option<u128>,
}

/// What stands before the body of a sum or product: the word, the bound name, the lower limit with its sign, its digits, the upper name.
#[derive(Clone, Copy)]
pub struct Head {
    pub call: Mark,
    pub bound: Mark,
    pub sign: Mark,
    pub lower: Numeral,
    pub upper: Mark,
}

/// A tree as it is written. A call begins with the mark of its word. A text has up to one node a byte: so large numbers,
/// exponents and heads stand in boxes of their own, and a node is small.
#[derive(Drop)]
pub enum Node {
    /// A number below 2^64, at its first digit.
    Number(u32, u64),
    LargeNumber(Box<Numeral>),
    Named(Mark),
    Negated(Box<Node>),
    Added(Box<Node>, Box<Node>),
    Subtracted(Box<Node>, Box<Node>),
    Multiplied(Box<Node>, Box<Node>),
    /// With the place of the factor after the `/`.
    Divided(Box<Node>, Mark, Box<Node>),
    Raised(Box<Node>, Box<Numeral>),
    SumCall(Box<Head>, Box<Node>),
    ProductCall(Box<Head>, Box<Node>),
    Harmonic(Mark, Mark),
    HarmonicOfOrder(Mark, Mark, Box<Numeral>),
    Factorial(Mark, Mark),
    /// With the place of the first argument.
    Binomial(Mark, Mark, Box<Node>, Mark),
    ConstantPower(Mark, Box<Node>, Mark),
}
