//! Threads that each do a part of a work.
ghost use Rattle.std.specs.Prelude.{IfErr, IfOk};
ghost use Rattle.engine.specs.Faults.{IsOfServing};

use crate::ServeFault;
use std::alloc::Global;
use std::sync::Wait;
use std::thread::{self, JoinHandle, Scope, Threads};

/// The work of threads, in numbered parts.
pub(crate) trait Work {
    /// Does the part of this number.
    fn work(&self, number: usize);

    /// Makes all parts end soon.
    fn stop(&self);
}

/// What the starting thread does while the others work.
pub(crate) trait Meanwhile<B> {
    /// What it requires.
    ghost may_run: { Self → Type 0 };

    /// What it ensures.
    ghost gives: { Self → B → Type 0 };

    /// Runs it.
    fn run(self) -> B
        requires { may_run self }
        ensures { gives self result };
}

/// Does each of this many parts of a work in a thread of its own, and runs `meanwhile`. Returns the result of `meanwhile` once all
/// threads have ended. If a thread can't be started, the started ones are stopped.
pub(crate) fn work_on_each<
    W: Work + Sync,
    B: Drop,
    M: Meanwhile<B> + Drop,
    R: Threads + Wait + Sync,
>(rt: &R, alloc: Global, work: &W, parts: usize, meanwhile: M) -> Result<B, ServeFault>
    requires { M.may_run meanwhile }
    ensures done { IfOk result (λ r. M.gives meanwhile r) }
    ensures fault { IfErr result (λ fault. IsOfServing fault) }
{
    thread::scope(
        thread::scope_env(),
        rt,
        |scope| -> Result<B, ServeFault>
            requires { M.may_run meanwhile }
            ensures done { IfOk result (λ r. M.gives meanwhile r) }
            ensures fault { IfErr result (λ fault. IsOfServing fault) }
        {
            match start_all(scope, alloc, work, parts) {
                Ok(threads) => {
                    let done = meanwhile.run();
                    for thread in threads {
                        thread.join(rt);
                    }
                    Ok(done)
                }
                Err(fault) => {
                    work.stop();
                    Err(fault)
                }
            }
        },
    )
}

// Starts a thread for each part.
fn start_all<'s, E, W: Work + Sync>(
    scope: &Scope<'s, E>,
    alloc: Global,
    work: &'s W,
    parts: usize,
) -> Result<Vec<JoinHandle<()>>, ServeFault>
    ensures fault { IfErr result (λ fault. IsOfServing fault) }
{
    let Ok(mut threads) = Vec::with_capacity(alloc, parts) else {
        return Err(ServeFault::NoMemory);
    };
    for number in 0..parts {
        let Ok(thread) = scope.spawn(move || work.work(number)) else {
            return Err(ServeFault::NoThread);
        };
        let Ok(()) = threads.push(thread) else {
            return Err(ServeFault::NoMemory);
        };
    }
    Ok(threads)
}
