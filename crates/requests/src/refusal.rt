ghost use Rattle.std.specs.Prelude.{◌≡◌};

use crate::Group;
use rows::{FEWEST_LINES, MOST_ENTRIES, MOST_LINES};
use thiserror::Error;

/// The reason why a request was not carried out. It was not logged, and no table has changed.
#[derive(Clone, Copy, Debug, Drop, Error, PartialEq, Eq)]
pub enum Refusal {
    #[error("the home warehouse or the customer's is not in the scale")]
    BadWarehouse,
    #[error("the home district or the customer's is not 1 to 10")]
    BadDistrict,
    #[error("there are not {fewest} to {most} lines", fewest = FEWEST_LINES, most = MOST_LINES)]
    BadLines,
    #[error("the quantity of a line is not 1 to 10")]
    BadQuantity,
    #[error("the supply warehouse of a line is not in the scale")]
    BadSupply,
    #[error("the amount is not 100 to 500,000 cents")]
    BadAmount,
    #[error("the threshold is not 10 to 20")]
    BadThreshold,
    #[error("the carrier is not 1 to 10")]
    BadCarrier,
    #[error("the maximum number of transactions is active")]
    Busy,
    #[error("the session's last request has no answer yet")]
    SessionBusy,
    /// An older transaction, or one as old, holds the group. `holder` is its age: the number of
    /// transactions admitted before it.
    #[error("an older transaction, or one as old, of age {holder}, holds {group}")]
    Died { group: Group, holder: u64 },
    #[error("no memory")]
    NoMemory,
    #[error("the engine was closed")]
    Closed,
    #[error("the log is full, with {most} entries", most = MOST_ENTRIES)]
    LogFull,
}

impl Refusal {
    ghost use Rattle.requests.specs.Refusal.{refusal_number};

    /// Returns the refusal's number at terminals, 1 to 14.
    pub fn number(self) -> u8
        ensures { result ≡ refusal_number self }
    {
        match self {
            Refusal::BadWarehouse => 1,
            Refusal::BadDistrict => 2,
            Refusal::BadLines => 3,
            Refusal::BadQuantity => 4,
            Refusal::BadSupply => 5,
            Refusal::BadAmount => 6,
            Refusal::BadThreshold => 7,
            Refusal::BadCarrier => 8,
            Refusal::Busy => 9,
            Refusal::SessionBusy => 10,
            Refusal::Died { .. } => 11,
            Refusal::NoMemory => 12,
            Refusal::Closed => 13,
            Refusal::LogFull => 14,
        }
    }
}
