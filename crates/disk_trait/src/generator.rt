//! Numbers drawn from a state of 64 bits.

ghost use Rattle.std.specs.Prelude.{◌≡◌};
ghost use Rattle.disk_trait.specs.Generator.{state_after, draw_of};

/// A linear congruential generator. Equal states draw equal numbers.
#[derive(Clone, Copy)]
pub struct Generator {
    /// The state, which a draw replaces.
    pub state: u64,
}

impl Generator {
    /// The upper half of the next state.
    #[tactic(auto, unfolding(crate::specs::Generator::state_after, crate::specs::Generator::draw_of))]
    pub fn draw(&mut self) -> u32
        ensures value { result ≡ draw_of self.old.state }
        ensures after { self.new.state ≡ state_after self.old.state }
    {
        self.state = self
            .state
            .wrapping_mul(6_364_136_223_846_793_005)
            .wrapping_add(1_442_695_040_888_963_407);
        (self.state >> 32) as u32
    }
}
