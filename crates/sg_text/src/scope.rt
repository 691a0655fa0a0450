//! The names of a scope.
ghost use Rattle.std.specs.Prelude.{◌≡◌};
ghost use Rattle.sg_spec.specs.Reading.{is_variable, is_parameter, is_known, inside};
ghost use Rattle.sg_text.specs.Scopes.{names_of};

/// The letter of the variable, and that of the parameter, if there is one.
#[derive(Clone, Copy)]
pub struct Scope {
    pub variable: u8,
    pub parameter: Option<u8>,
}

impl Scope {
    pub fn is_variable(self, letter: u8) -> bool
        ensures { result ≡ is_variable (names_of self) letter }
    {
        self.variable == letter
    }

    pub fn is_parameter(self, letter: u8) -> bool
        ensures { result ≡ is_parameter (names_of self) letter }
    {
        match self.parameter {
            Some(p) => p == letter,
            None => false,
        }
    }

    pub fn is_known(self, letter: u8) -> bool
        ensures { result ≡ is_known (names_of self) letter }
    {
        self.is_variable(letter) || self.is_parameter(letter)
    }

    /// The scope of a body with this bound name.
    pub fn inside(self, bound: u8) -> Scope
        ensures { names_of result ≡ inside bound (names_of self) }
    {
        Scope {
            variable: bound,
            parameter: self.parameter,
        }
    }
}
