use std::alloc::AllocError;

/// A read failed, so there are no more bytes of a file.
#[derive(Clone, Copy, Debug, PartialEq, Eq)]
pub struct Unreadable;

/// Why the next record was not read.
#[derive(Clone, Copy, Debug)]
pub enum Stop {
    NoMemory,
    Unreadable,
    TooLong,
}

impl From<AllocError> for Stop {
    ghost use Rattle.files.specs.declared.stop.Stop.TheVariants.{NoMemory};
    ghost use Rattle.std.specs.Prelude.{◌≡◌};

    ghost from_gives = { λ _ stop. stop ≡ NoMemory };

    fn from(_error: AllocError) -> Stop {
        Stop::NoMemory
    }
}

impl From<Unreadable> for Stop {
    ghost use Rattle.files.specs.declared.stop.Stop.TheVariants as stop;
    ghost use Rattle.std.specs.Prelude.{◌≡◌};

    ghost from_gives = { λ _ why. why ≡ stop.Unreadable };

    fn from(_error: Unreadable) -> Stop {
        Stop::Unreadable
    }
}
