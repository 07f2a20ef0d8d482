ghost use Rattle.std.specs.Prelude.{◌≡◌, true, false, IfOk};
ghost use Rattle.machine.specs.Machine.{transaction};
ghost use Rattle.commit_log.specs.Replay.{IsReplayOf, IsReplied};

use crate::{Entry, Replay};
use machine::Plain;
use requests::check;
use schema::{NoMemory, Tables};
use std::alloc::Global;

/// Carries out the entries' requests one at a time, in log order, from the opening tables, and compares the replies.
/// Returns NoMemory if an allocation fails.
pub fn replay(alloc: Global, opening: Tables, entries: &[Entry]) -> Result<Replay, NoMemory>
    ensures { IfOk result (IsReplayOf opening entries.now) }
{
    let mut plain = Plain::open(alloc, opening)?;
    for (place, entry) in entries.iter().enumerate() {
        if !repeats(&mut plain, entry)? {
            return Ok(Replay::Differs(place));
        }
    }
    Ok(Replay::Equal(plain.into_tables()))
}

// Returns whether the check accepts the entry's request and the engine gives the entry's reply. If so, the engine has
// carried out the request.
fn repeats(plain: &mut Plain, entry: &Entry) -> Result<bool, NoMemory>
    ensures does { IfOk result (λ same. same ≡ true → IsReplied plain.old entry.now) }
    ensures done { IfOk result (λ same. same ≡ true
        → plain.new ≡ (transaction plain.old entry.now.request).tables) }
    ensures differs { IfOk result (λ same. same ≡ false → IsReplied plain.old entry.now → ⊥) }
{
    if check(&plain.tables().scale(), &entry.request).is_err() {
        return Ok(false);
    }
    let reply = plain.step(&entry.request)?;
    Ok(reply.is(&entry.reply))
}
