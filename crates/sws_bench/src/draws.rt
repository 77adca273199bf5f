//! The draws of the generator.
ghost use Rattle.std.specs.Prelude.{◌≡◌};
ghost use Rattle.sws_bench.specs.Draws.{next_state, draw};

/// Numbers below 65,536, one after another, as the number that they begin with says.
#[derive(Drop)]
pub(crate) struct Draws {
    state: u32,
}

impl Draws {
    /// Draws that begin with this number.
    pub(crate) fn new(number: u32) -> Draws
        ensures { result.state ≡ number }
    {
        Draws { state: number }
    }

    /// The next draw.
    pub(crate) fn next(&mut self) -> u32
        ensures value { result ≡ draw self.old.state 0 }
        ensures state { self.new.state ≡ next_state self.old.state }
    {
        let sum = 1_664_525 * u64::from(self.state) + 1_013_904_223;
        self.state = (sum % (1 << 32)) as u32;
        self.state / 65_536
    }
}
