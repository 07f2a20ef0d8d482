//! The verdicts on the twelve conditions of consistency.
ghost use Rattle.std.specs.Prelude.{◌≡◌, IfOk};
ghost use Rattle.std.specs.List.{list_any};
ghost use Rattle.tpcc.specs.Verdicts.{is_broken, found_of, verdicts_of};

use schema::NoMemory;
use std::alloc::Global;
use std::fmt;

// The condition that is checked on fresh datasets only.
const FRESH: usize = 11;

/// The verdict on a condition.
#[derive(Clone, Copy, Debug, PartialEq, Eq)]
pub enum Found {
    Met,
    Broken,
    Skipped,
}

/// A condition's number and its verdict.
#[derive(Clone, Copy, Debug, PartialEq, Eq)]
pub struct Verdict {
    pub condition: usize,
    pub found: Found,
}

impl fmt::Display for Verdict {
    ghost use Rattle.std.specs.Prelude.{Some};
    ghost use Rattle.tpcc.specs.Verdicts.{verdict_text};

    ghost output = { λ verdict. Some (verdict_text verdict) };

    fn fmt<W: fmt::Write>(&self, f: &mut fmt::Formatter<W>) -> fmt::Result {
        let condition = self.condition;
        match self.found {
            Found::Met => write!(f, "{condition} ok"),
            Found::Broken => write!(f, "{condition} broken"),
            Found::Skipped => write!(f, "{condition} skipped"),
        }
    }
}

/// The verdicts on the conditions from number 1 on; `answers` contains for each whether it holds. Returns NoMemory if
/// an allocation fails.
pub fn verdicts(alloc: Global, fresh: bool, answers: &[bool]) -> Result<Vec<Verdict>, NoMemory>
    ensures { IfOk result (λ verdicts. verdicts.items ≡ verdicts_of fresh 1 answers.now) }
{
    let mut verdicts = Vec::with_capacity(alloc, answers.len())?;
    for (place, holds) in answers.iter().enumerate() {
        let condition = place + 1;
        verdicts.push(Verdict {
            condition,
            found: found_of(fresh, condition, *holds),
        })?;
    }
    Ok(verdicts)
}

// The verdict on the condition of that number.
fn found_of(fresh: bool, condition: usize, holds: bool) -> Found
    ensures { result ≡ found_of fresh condition holds }
{
    if condition == FRESH && !fresh {
        Found::Skipped
    } else if holds {
        Found::Met
    } else {
        Found::Broken
    }
}

/// Whether one of the conditions is broken.
pub fn any_broken(verdicts: &[Verdict]) -> bool
    ensures { result ≡ list_any (λ verdict. is_broken verdict.found) verdicts.now }
{
    verdicts.iter().any(|verdict| is_broken(verdict.found))
}

fn is_broken(found: Found) -> bool
    ensures { result ≡ is_broken found }
{
    match found {
        Found::Broken => true,
        Found::Met | Found::Skipped => false,
    }
}
