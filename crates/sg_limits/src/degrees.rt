ghost use Rattle.std.specs.Prelude.{◌≡◌, ◌+◌, ◌*◌, ◌≤◌, min, max};
ghost use Rattle.sg_spec.specs.Limits.{degrees, bodies, is_flat, keeps_degrees, all_keep};
ghost use Rattle.sg_expr.specs.Tree.{tree_of};
ghost use Rattle.sg_limits.specs.Counts.{AreDegrees};

use sg_expr::Expr;

/// A degree that is as good as any higher one: it passes every limit.
const CAP: u32 = 65;

const MOST: u32 = 64;

const MOST_GENERATORS: u32 = 8;

/// The written degrees of one scope, each at most the cap.
#[derive(Clone, Copy)]
pub struct Degrees {
    pub variable: u32,
    pub parameter: u32,
    pub generators: u32,
}

const NONE: Degrees = Degrees {
    variable: 0,
    parameter: 0,
    generators: 0,
};

/// Whether each of its scopes keeps the limits of degrees: at most 64 in the variable and in the parameter, and at most 8 in
/// sums and products.
pub fn keeps_degrees(e: &Expr) -> bool
    ensures { result ≡ keeps_degrees (tree_of e.now) }
{
    is_flat(e) && has_flat_bodies(e)
}

/// Whether the bodies of its sums and products keep the limits of degrees, at any depth.
#[tactic(auto, using(crate::proofs::Stepping::keep_append))]
fn has_flat_bodies(e: &Expr) -> bool
    ensures { result ≡ all_keep is_flat (bodies (tree_of e.now)) }
{
    match e {
        Expr::Num(_) | Expr::Here | Expr::Param => true,
        Expr::Neg(a) | Expr::Pow(a, _) => has_flat_bodies(a),
        Expr::Add(a, b) | Expr::Mul(a, b) | Expr::Div(a, b) => has_flat_bodies(a)
            && has_flat_bodies(b),
        Expr::Sum { from: _, body } | Expr::Prod { from: _, body } => is_flat(body)
            && has_flat_bodies(body),
    }
}

/// Whether its own scope, without the bodies of its sums and products, keeps the limits of degrees.
fn is_flat(e: &Expr) -> bool
    ensures { result ≡ is_flat (tree_of e.now) }
{
    let d = degrees_of(e);
    d.variable <= MOST && d.parameter <= MOST && d.generators <= MOST_GENERATORS
}

/// The degrees of its own scope. A sum or product counts as one, whatever its body.
fn degrees_of(e: &Expr) -> Degrees
    ensures { AreDegrees result (degrees (tree_of e.now)) }
{
    match e {
        Expr::Num(_) => NONE,
        Expr::Here => Degrees {
            variable: 1,
            ..NONE
        },
        Expr::Param => Degrees {
            parameter: 1,
            ..NONE
        },
        Expr::Neg(a) => degrees_of(a),
        Expr::Add(a, b) => greater(degrees_of(a), degrees_of(b)),
        Expr::Mul(a, b) | Expr::Div(a, b) => added(degrees_of(a), degrees_of(b)),
        Expr::Pow(a, e) => times(degrees_of(a), *e),
        Expr::Sum { from: _, body: _ } | Expr::Prod { from: _, body: _ } => Degrees {
            generators: 1,
            ..NONE
        },
    }
}

/// Of each degree the greater one.
fn greater(d: Degrees, e: Degrees) -> Degrees
    ensures variable { result.variable ≡ max d.variable e.variable }
    ensures parameter { result.parameter ≡ max d.parameter e.parameter }
    ensures generators { result.generators ≡ max d.generators e.generators }
{
    Degrees {
        variable: d.variable.max(e.variable),
        parameter: d.parameter.max(e.parameter),
        generators: d.generators.max(e.generators),
    }
}

/// The degrees of a product or quotient.
fn added(d: Degrees, e: Degrees) -> Degrees
    ensures variable { result.variable ≡ min (d.variable + e.variable) 65 }
    ensures parameter { result.parameter ≡ min (d.parameter + e.parameter) 65 }
    ensures generators { result.generators ≡ min (d.generators + e.generators) 65 }
{
    Degrees {
        variable: d.variable.saturating_add(e.variable).min(CAP),
        parameter: d.parameter.saturating_add(e.parameter).min(CAP),
        generators: d.generators.saturating_add(e.generators).min(CAP),
    }
}

/// The degrees of a power.
fn times(d: Degrees, exponent: u128) -> Degrees
    ensures variable { result.variable ≡ min (d.variable * exponent) 65 }
    ensures parameter { result.parameter ≡ min (d.parameter * exponent) 65 }
    ensures generators { result.generators ≡ min (d.generators * exponent) 65 }
{
    Degrees {
        variable: multiplied(d.variable, exponent),
        parameter: multiplied(d.parameter, exponent),
        generators: multiplied(d.generators, exponent),
    }
}

/// The product, at most the cap. An exponent past the cap multiplies as the cap does.
fn multiplied(degree: u32, exponent: u128) -> u32
    ensures { result ≡ min (degree * exponent) 65 }
{
    let exponent = exponent.min(u128::from(CAP)) as u32;
    degree.saturating_mul(exponent).min(CAP)
}
