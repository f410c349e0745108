//! The generator of states.

ghost use Rattle.std.specs.Prelude.{◌≡◌};
ghost use Rattle.made_schedule.specs.Generator.{next_state};

/// A linear congruential generator, by its state.
#[derive(Clone, Copy)]
pub(crate) struct Generator {
    pub(crate) state: u64,
}

impl Generator {
    /// Makes one step, and answers the state after it.
    pub(crate) fn step(&mut self) -> u64
        ensures answer { result ≡ next_state self.old.state }
        ensures state { self.new.state ≡ next_state self.old.state }
    {
        self.state = self
            .state
            .wrapping_mul(6_364_136_223_846_793_005)
            .wrapping_add(1_442_695_040_888_963_407);
        self.state
    }
}
