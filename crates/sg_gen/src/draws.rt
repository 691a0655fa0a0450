ghost use Rattle.std.specs.Prelude.{◌≡◌, ◌<◌};
ghost use Rattle.sg_gen.specs.Sample.{first_state, next_state, drawn, shape, after_shape};
ghost use Rattle.sg_gen.specs.Drawing.{shape_of};

/// Numbers that are drawn one after another: a linear congruential generator of 64 bits, of which the high bits are taken.
#[derive(Drop)]
pub struct Draws {
    state: u64,
}

/// What a term is made of.
#[derive(Clone, Copy)]
pub struct Shape {
    pub coefficient: u32,
    pub exponent: u32,
    pub sum: u32,
    pub divisor: u32,
}

impl Draws {
    /// The draws for one sample.
    pub fn new(seed: u64, i: u32) -> Draws
        ensures { result.state ≡ first_state seed i }
    {
        let state = seed.wrapping_mul(1_000_003).wrapping_add(u64::from(i));
        Draws { state }
    }

    /// A number below the bound.
    pub fn below(&mut self, bound: u32) -> u32
        requires { 0 < bound }
        ensures state { self.new.state ≡ next_state self.old.state }
        ensures drawn { result ≡ drawn bound self.new.state }
        ensures below { result < bound }
    {
        self.step();
        let drawn = (self.state >> 33) % u64::from(bound);
        drawn as u32
    }

    // The next state.
    #[tactic(auto, unfolding(crate::specs::Sample::next_state))]
    fn step(&mut self)
        ensures { self.new.state ≡ next_state self.old.state }
    {
        self.state = self
            .state
            .wrapping_mul(6_364_136_223_846_793_005)
            .wrapping_add(1_442_695_040_888_963_407);
    }

    /// What the next term is made of.
    #[tactic(auto, unfolding(crate::specs::Sample::shape))]
    pub fn shape(&mut self) -> Shape
        ensures state { self.new.state ≡ after_shape self.old.state }
        ensures shape { shape_of result ≡ shape self.old.state }
    {
        let coefficient = 1 + self.below(9);
        let exponent = self.below(3);
        let sum = self.below(4);
        let divisor = self.below(3);
        Shape {
            coefficient,
            exponent,
            sum,
            divisor,
        }
    }
}
