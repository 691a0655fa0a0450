/// What is asked of the texts of a command.
#[derive(Clone, Copy, Debug, PartialEq, Eq)]
pub enum Command {
    /// The sum of the first text from a lower limit on.
    Sum { lower: i64 },
    /// Which of the sums of the text are new over those before them.
    Tower,
    /// The simplest form of the text, from a lower limit on.
    Simplify { lower: i64 },
    /// Whether the second text telescopes the first, from a lower limit on.
    Check { lower: i64 },
    /// The value of the text at a point.
    Value { point: i64 },
    /// The value of the text for a parameter, at a point.
    ValueAtParameter { parameter: i64, point: i64 },
}
