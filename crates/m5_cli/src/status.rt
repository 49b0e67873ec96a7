//! How a call of the program ends.

ghost use Rattle.std.specs.Prelude.{◌≡◌};
ghost use Rattle.m5_cli.specs.Status.{number_of};

/// How a call ended. Each status writes its own line or the job's output, and has a number for the process.
#[derive(Clone, Copy, Debug, PartialEq, Eq)]
pub enum Status {
    /// The job's output is written, and no site stopped.
    Rest,
    /// The words are no listed spelling.
    Usage,
    /// The source failed.
    ReadFault,
    /// The sink failed.
    WriteFault,
    /// The text has no tokens or no tree, or is nested too deeply.
    BadText,
    /// The names or the types of the program are refused.
    BadTypes,
    /// A line of the script is bad.
    BadScript,
    /// Memory ran out.
    NoMemory,
    /// The input has more than 262,144 bytes.
    TooLong,
    /// The trace is written, and it has a stop line.
    Stopped,
    /// The program or the script is not of the form that `run` takes today.
    Unbuilt,
    /// The trace is refuted: a line of it does not fit.
    Refuted,
    /// The trace is left unsettled: a line needs more than the budget.
    Unsettled,
}

impl Status {
    /// The number that the process ends with.
    pub fn number(self) -> u8
        ensures { result ≡ number_of self }
    {
        match self {
            Status::Rest => 0,
            Status::Usage => 1,
            Status::ReadFault => 2,
            Status::WriteFault => 3,
            Status::BadText => 4,
            Status::BadTypes => 5,
            Status::BadScript => 6,
            Status::NoMemory => 7,
            Status::TooLong => 8,
            Status::Stopped => 10,
            Status::Unbuilt => 11,
            Status::Refuted => 12,
            Status::Unsettled => 13,
        }
    }
}
