ghost use Rattle.std.specs.Prelude.{◌≡◌};
ghost use Rattle.command_line.specs.Status.{exit_status};

/// How the program ends: each end has its own exit status.
#[derive(Clone, Copy, Debug, PartialEq, Eq)]
pub enum Status {
    Success,
    /// A file has a fault, or can't be opened, made, read or written; a move is impossible; a thread could not be
    /// started; something had not come back when the executors had ended; or the tables were asked for while a
    /// transaction was active or a move outstanding.
    Failed,
    /// The words of the command line are not understood or out of their limits, `--help` asks for help, or the dataset
    /// does not have the warehouse that they name.
    Usage,
    /// The tables of the dataset break a condition of consistency, or a replayed log differs from the machine's.
    NotConsistent,
    NoMemory,
}

impl Status {
    /// The exit status of the process, 0 to 4.
    pub fn code(self) -> u8
        ensures { result ≡ exit_status self }
    {
        match self {
            Status::Success => 0,
            Status::Failed => 1,
            Status::Usage => 2,
            Status::NotConsistent => 3,
            Status::NoMemory => 4,
        }
    }
}
