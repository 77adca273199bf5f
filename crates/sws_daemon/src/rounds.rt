//! When the folder is looked at.
ghost use Rattle.std.specs.Prelude.{◌≡◌, ◌-◌, option_map};
ghost use Rattle.sws_daemon.specs.Rounds.{is_due, next_of};

/// After how many ticks a folder is looked at again, of which something is still to be done.
const SOON: u32 = 4;

/// Counts ticks until the folder is to be looked at.
#[derive(Clone, Copy, Debug, PartialEq, Eq)]
pub struct Rounds {
    /// From a look to the next; nothing where only somebody who asks lets it be looked at.
    usual: Option<u32>,

    /// How many ticks are left until the next look, if there is to be one.
    left: Option<u32>,
}

impl Rounds {
    /// A look each time that so many ticks have gone by, or none where nobody asks.
    pub fn new(usual: Option<u32>) -> Rounds
        ensures { result ≡ record { usual = usual; left = usual } }
    {
        Rounds { usual, left: usual }
    }

    /// The folder is to be looked at with the next tick.
    pub fn hurry(&mut self)
        ensures { self.new ≡ record { usual = self.old.usual; left = Some 0 } }
    {
        self.left = Some(0);
    }

    /// A tick has gone by. True where the folder is to be looked at now.
    pub fn tick(&mut self) -> bool
        ensures due { result ≡ is_due self.old.left }
        ensures left { self.new.left ≡ option_map (λ left. left - 1) self.old.left }
        ensures usual { self.new.usual ≡ self.old.usual }
    {
        let Some(left) = self.left else {
            return false;
        };
        self.left = Some(left.saturating_sub(1));
        left <= 1
    }

    /// The folder was looked at; of it something is still to be done, or nothing is.
    pub fn begin(&mut self, is_open: bool)
        ensures next { self.new.left ≡ next_of self.old.usual is_open }
        ensures usual { self.new.usual ≡ self.old.usual }
    {
        self.left = match self.usual {
            Some(usual) if is_open => Some(usual.min(SOON)),
            None if is_open => Some(SOON),
            usual => usual,
        };
    }
}
