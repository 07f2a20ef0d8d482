ghost use Rattle.std.specs.Prelude.{◌≡◌, ◌<◌, length, map, IfOk, All};
ghost use Rattle.workload.specs.Decks.{AreDealt, cards_of};
ghost use Rattle.workload.specs.Kinds.{kind_of};
ghost use Rattle.workload.specs.Sessions.{terminal_of, script_drawn};
ghost use Rattle.workload.specs.Within.{AreAccepted, IsWithin};

use crate::Workload;
use crate::decks::draw_kinds;
use crate::request_draws::draw_requests;
use number_draws::NumberDraws;
use requests::TerminalRequest;
use rows::SESSIONS;
use schema::NoMemory;
use std::alloc::Global;

// The distance between the seeds of two generators: one more than the greatest seed of a workload.
const STRIDE: u64 = 4_294_967_296;

/// Returns the requests of a session's script, for a session from 0 to 63: as many as the workload has for each session.
///
/// Two generators (`number_draws`) draw them: one the decks, the other the requests. So a script of fewer requests is the
/// beginning of a longer one of the same seed.
///
/// Returns NoMemory if an allocation fails.
pub fn draw_script(
    alloc: Global,
    workload: &Workload,
    session: u32,
) -> Result<Vec<TerminalRequest>, NoMemory>
    requires { session < SESSIONS }
    ensures drawn { IfOk result (λ asked. asked.items ≡ script_drawn workload.now session) }
    ensures count { IfOk result (λ asked. length asked.items ≡ workload.now.requests) }
    ensures accepted { IfOk result (λ asked. All (AreAccepted workload.now.scale) asked.items) }
    ensures within { IfOk result
        (λ asked. All (IsWithin (terminal_of workload.now session)) asked.items) }
    ensures mix { IfOk result
        (λ asked. AreDealt (cards_of workload.now.mix) (map kind_of asked.items)) }
{
    let terminal = workload.terminal(session);
    let seed = u64::from(workload.seed);
    let place = u64::from(session);
    let mut deck_draws = NumberDraws::new(seed + STRIDE * (2 * place + 1));
    let kinds = draw_kinds(alloc, &mut deck_draws, workload.mix, workload.requests)?;
    let mut draws = NumberDraws::new(seed + STRIDE * (2 * place + 2));
    draw_requests(
        alloc,
        &mut draws,
        &terminal,
        workload.start,
        kinds.as_slice(),
    )
}
