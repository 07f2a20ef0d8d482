ghost use Rattle.std.specs.Prelude.{All};
ghost use Rattle.engine.specs.Interactive.{HasAskedNothing, asked_by, recorded_by};

use crate::{Engine, Gate, Left, ServeNames, Session};
use std::alloc::Global;
use std::sync::Wait;
use std::thread::Threads;

/// A program that asks interactively. Its promise holds of the outcome, whatever executors do.
pub trait Client {
    ghost use Rattle.std.specs.Prelude.{ℕ, List, Result};
    ghost use Rattle.schema.specs.Database.{Database};
    ghost use Rattle.requests.specs.declared.script.Part.{Part};
    ghost use Rattle.requests.specs.declared.refusal.Refusal.{Refusal};

    /// What the client promises of the requests that each of its sessions has asked, with their numbers, and of their answers, for
    /// these opening tables.
    ghost promises: { Self → Database → List (List Part) → List (List (Result ℕ Refusal)) → Type 0 };

    /// Asks by these sessions, which are in the order of their numbers, while executors work in threads of their own. Returns the
    /// sessions, in this order, once they have left.
    fn ask_all<J: ServeNames + Send + Sync, G: Gate, R: Threads + Wait + Sync>(
        &self,
        rt: &R,
        alloc: Global,
        engine: &Engine<'_, J, G>,
        sessions: Vec<Session<J>>,
    ) -> Vec<Left<J>>
        requires { All HasAskedNothing sessions.items }
        ensures { promises self.now J.opening (asked_by result.items) (recorded_by result.items) };
}

/// A client that asks nothing, for scripts alone.
#[derive(Clone, Copy, Debug, Drop)]
pub struct NoClient;

impl Client for NoClient {
    ghost use Rattle.std.specs.Prelude.{⊤};

    ghost promises = { λ _ _ _ _. ⊤ };

    fn ask_all<J: ServeNames + Send + Sync, G: Gate, R: Threads + Wait + Sync>(
        &self,
        _rt: &R,
        alloc: Global,
        _engine: &Engine<'_, J, G>,
        _sessions: Vec<Session<J>>,
    ) -> Vec<Left<J>> {
        Vec::new(alloc)
    }
}
