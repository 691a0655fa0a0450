//! Faults of a text that has the right form, the first of several.
ghost use Rattle.std.specs.Prelude.{◌≡◌};
ghost use Rattle.sg_spec.specs.Reading.{fault_unless};
ghost use Rattle.sg_text.specs.Firsts.{key, earlier as earlier_of, first_of};
ghost use Rattle.sg_text.specs.Scopes.{kind_of, fault_of, found_of};

#[derive(Clone, Copy)]
pub enum Kind {
    Numeral,
    Exponent,
    Unbound,
    Form,
}

/// A fault at a place.
#[derive(Clone, Copy)]
pub struct Found {
    pub kind: Kind,
    pub at: u32,
}

impl Found {
    fn key(self) -> u64
        ensures { result ≡ key (fault_of self) }
    {
        let rank = match self.kind {
            Kind::Numeral => 0,
            Kind::Exponent => 1,
            Kind::Unbound => 2,
            Kind::Form => 3,
        };
        self.at as u64 * 4 + rank
    }
}

/// The one at the least place; at one place the one of the first kind.
pub fn earlier(left: Option<Found>, right: Option<Found>) -> Option<Found>
    ensures { found_of result ≡ earlier_of (found_of left) (found_of right) }
{
    match (left, right) {
        (None, _) => right,
        (Some(_), None) => left,
        (Some(f), Some(g)) => if f.key() <= g.key() { left } else { right },
    }
}

/// A fault, unless the test holds.
pub fn unless(test: bool, kind: Kind, at: u32) -> Option<Found>
    ensures { found_of result ≡ first_of (fault_unless test (kind_of kind) at) }
{
    if test { None } else { Some(Found { kind, at }) }
}
