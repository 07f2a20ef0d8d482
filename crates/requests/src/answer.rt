use crate::{Refusal, Reply};

/// The answer to a request.
#[derive(Clone, Debug, PartialEq, Eq, Drop)]
pub enum Answer {
    /// It was carried out. `place` is the place of its log entry, from 0 to 16,777,215.
    Done { place: u32, reply: Reply },
    /// It was not logged, and no table has changed.
    Refused(Refusal),
}
