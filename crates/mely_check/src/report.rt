//! What a checked journal says.

/// What a core ran and stole.
#[derive(Clone, Copy, Debug, PartialEq, Eq)]
pub struct CoreReport {
    /// How many events it finished.
    pub ran: u64,

    /// How many colours it stole.
    pub stolen_in: u64,

    /// How many colours were stolen from it.
    pub stolen_out: u64,
}

/// What a journal says that was accepted.
#[derive(Debug, Drop)]
pub struct Report {
    /// How many entries it has.
    pub entries: u64,

    /// What each core ran and stole, from core 0 on.
    pub cores: Vec<CoreReport>,
}
