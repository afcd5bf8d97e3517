use px_base::{Numbers, Schedule, Sequence};

/// A chunk that a member of a team took, and how many of its iterations ran, from its first one on.
#[derive(Clone, Copy, PartialEq, Eq)]
pub struct Ran {
    pub chunk: u64,
    pub member: u32,
    pub ran: u64,
}

/// The chunks that were taken, by rising number.
pub type RanList = Sequence<Ran>;

/// What a team did in one parallel loop, as far as the loop's meaning hangs on it (Cython user guide, Using Parallelism, leaves it
/// open).
#[derive(Drop)]
pub struct Journal {
    /// The size of the team, 1 to 64.
    pub members: u32,
    pub schedule: Schedule,
    /// The chunksize, where it is given.
    pub size: Option<u64>,
    /// How many iterations the loop has.
    pub count: u64,
    pub ran: RanList,
    /// The iterations whose lock sections ran, by their places in the loop, in the order of the sections.
    pub sections: Numbers,
    /// The place of the iteration that ended the loop before its end.
    pub stopped: Option<u64>,
}

/// The journals of the loops of a run, in the order in which these were entered.
pub type Journals = Sequence<Journal>;
