//! `Status`: how a run or a part of it ended; it gives the exit status.

/// How a run ended, or a part of it; each is worse than those before it.
#[derive(Clone, Copy, PartialEq, Eq)]
pub enum Status {
    /// All input is CBOR, and was written.
    Fine,
    /// Some input is not CBOR, or the path leads nowhere.
    Bad,
    /// The arguments are wrong, memory ran out, or a file cannot be read or written.
    Trouble,
}

impl Status {
    /// The exit status of a run that ended so.
    pub fn number(self) -> u8 {
        match self {
            Status::Fine => 0,
            Status::Bad => 1,
            Status::Trouble => 2,
        }
    }

    /// The worse of the two.
    pub fn or(self, other: Status) -> Status {
        if self.number() < other.number() {
            other
        } else {
            self
        }
    }
}
