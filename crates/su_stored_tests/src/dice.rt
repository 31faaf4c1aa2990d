// Numbers at chance, the same in each run.
ghost use Rattle.std.specs.Prelude.{◌<◌};

/// Gives numbers one after another that seem to have no order.
#[derive(Clone, Copy, Debug)]
pub(crate) struct Dice {
    state: u64,
}

impl Dice {
    /// Makes dice that give what they give for this seed.
    pub(crate) fn new(seed: u64) -> Dice {
        let mut dice = Dice { state: seed };
        dice.throw();
        dice
    }

    fn throw(&mut self) -> u64 {
        let next = self.state.wrapping_mul(6_364_136_223_846_793_005);
        self.state = next.wrapping_add(1_442_695_040_888_963_407);
        self.state >> 33
    }

    /// Gives a number below this one.
    pub(crate) fn below(&mut self, count: u64) -> u64
        requires { 0 < count }
        ensures { result < count }
    {
        self.throw() % count
    }

    /// Tells whether one of so many cases is met that are as likely.
    pub(crate) fn one_of(&mut self, count: u64) -> bool
        requires { 0 < count }
    {
        self.below(count) == 0
    }
}
