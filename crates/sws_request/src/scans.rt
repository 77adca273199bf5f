//! How far a search for the end of a head has come.
ghost use Rattle.std.specs.Prelude.{◌≡◌, [], false};
ghost use Rattle.sws_request.specs.Scans.{StandsFor};

/// The lines that were searched, without a head's end, so that the search can go on behind them.
#[derive(Clone, Copy, Debug, PartialEq, Eq)]
pub struct Scan {
    /// How many bytes these lines have.
    pub at: usize,
    /// Whether one of them isn't empty.
    pub begun: bool,
}

impl Scan {
    /// Nothing was searched yet.
    pub fn start() -> Scan
        ensures start { result ≡ record { at = 0; begun = false } }
        ensures stands { StandsFor result [] }
    {
        Scan {
            at: 0,
            begun: false,
        }
    }
}
