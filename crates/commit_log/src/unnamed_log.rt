ghost use Rattle.std.specs.Prelude.{◌≡◌, length, IfOk};
ghost use Rattle.commit_log.specs.Kept.{IsPair};

use crate::{Asking, LogLimit, Mine};
use agreement::{Seat, Value};
use length_word::{Length, Mark};
use rows::SESSIONS;
use schema::NoMemory;
use std::alloc::Global;
use std::collections::VecDeque;
use std::marker::Model;

/// The parts of a session's pass and seat.
#[derive(Drop)]
pub(crate) struct Lane {
    pub(crate) mark: Mark,
    pub(crate) mine: Seat<Mine>,
    /// The pass's seat of the agreement on the session's request, and the session's own seat.
    pub(crate) asks: Seat<Asking>,
    pub(crate) asked: Seat<Asking>,
}

/// The limit, the length and the agreements of a new log, before its names are chosen. Contracts see the limit and the
/// tables of the others, from which the names are chosen.
#[derive(Drop)]
pub struct UnnamedLog {
    pub(crate) most: LogLimit,
    pub(crate) length: Length,
    /// The log's seats of the agreements on what each session has logged.
    pub(crate) mine: Vec<Seat<Mine>>,
    /// One for each session.
    pub(crate) lanes: VecDeque<Lane>,
}

impl Model for UnnamedLog {
    ghost use Rattle.commit_log.specs.LogTables.{LogTables};

    ghost Value = { LogTables };

    ghost use Rattle.rows.specs.declared.limits.TheConstants.{SESSIONS};
    ghost use Rattle.commit_log.specs.Lanes.{tables_of, AreLanes};

    ghost view = { λ s. tables_of s.most s.length s.lanes.items };

    ghost invariant = { λ s. AreLanes SESSIONS s.length s.mine.items s.lanes.items };
}

impl UnnamedLog {
    /// Returns the length and the agreements of the sessions, which have asked and logged nothing, of a log with at most
    /// `most` entries. Returns NoMemory if an allocation fails; nothing is left then.
    pub fn with_limit(alloc: Global, most: LogLimit) -> Result<UnnamedLog, NoMemory>
        ensures most { IfOk result (λ seats. seats.most ≡ most) }
        ensures mine { IfOk result (λ seats. length seats.mine ≡ SESSIONS) }
        ensures asks { IfOk result (λ seats. length seats.asks ≡ SESSIONS) }
    {
        let mut length = Length::open(alloc)?;
        let mut mine = Vec::new(alloc);
        let mut lanes = VecDeque::new(alloc);
        for _session in 0..SESSIONS {
            let (logged, log_logged) = two_seats(alloc)?;
            let (asks, asked) = two_seats(alloc)?;
            let mark = length.mark()?;
            mine.push(log_logged)?;
            lanes.push_back(Lane {
                mark,
                mine: logged,
                asks,
                asked,
            })?;
        }
        Ok(UnnamedLog {
            most,
            length,
            mine,
            lanes,
        })
    }
}

// Returns the two seats of a new agreement.
fn two_seats<V: Value>(alloc: Global) -> Result<(Seat<V>, Seat<V>), NoMemory>
    ensures { IfOk result (λ seats. IsPair V.initial seats.0 seats.1) }
{
    let mut one = Seat::open(alloc, 2)?;
    let mut other = one.another()?;
    one.give::<1>(&mut other);
    Ok((one, other))
}
