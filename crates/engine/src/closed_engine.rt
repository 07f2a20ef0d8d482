//! The word by which an engine is closed to interactive sessions.
ghost use Rattle.std.specs.Prelude.{◌≡◌};

use crate::ServeNames;
use closing_word::{Closed, Closer, ClosingWord};
use std::marker::{Model, PhantomData};
use std::sync::{Mutex, Wait};

/// The word of an engine, which is closed once interactive sessions may ask no more.
///
/// Contracts see the word's table. Invariant: it is the one that J identifies.
#[derive(Drop)]
pub(crate) struct Closing<J: ServeNames> {
    word: ClosingWord,
    closer: Mutex<EngineCloser<J>>,
}

impl<J: ServeNames> Model for Closing<J> {
    ghost use Rattle.std.specs.Prelude.{◌≡◌};
    ghost use Rattle.atomic_table.specs.Seated.{TableId};

    ghost Value = { TableId };

    ghost view = { λ c. c.word };

    ghost invariant = { λ c. c.word ≡ J.closing };
}

/// What can close the engine's word. Invariant: it is of the word that J identifies.
#[derive(Drop)]
struct EngineCloser<J: ServeNames> {
    closer: Closer,
    names: PhantomData<J>,
}

impl<J: ServeNames> Model for EngineCloser<J> {
    ghost use Rattle.std.specs.Prelude.{◌≡◌};
    ghost use Rattle.atomic_table.specs.Seated.{TableId};

    ghost Value = { TableId };

    ghost view = { λ c. c.closer };

    ghost invariant = { λ c. c.closer ≡ J.closing };
}

/// A token that an engine was closed. Invariant: its word is the one that J identifies.
#[derive(Drop)]
pub(crate) struct ClosedEngine<J: ServeNames> {
    closed: Closed,
    names: PhantomData<J>,
}

impl<J: ServeNames> Model for ClosedEngine<J> {
    ghost use Rattle.std.specs.Prelude.{◌≡◌};
    ghost use Rattle.atomic_table.specs.Seated.{TableId};

    ghost Value = { TableId };

    ghost view = { λ c. c.closed };

    ghost invariant = { λ c. c.closed ≡ J.closing };
}

impl<J: ServeNames> Closing<J> {
    /// The word of an engine that is not closed.
    pub(crate) fn new(word: ClosingWord, closer: Closer) -> Closing<J>
        requires word { word ≡ J.closing }
        requires closer { closer ≡ J.closing }
    {
        let closer = EngineCloser {
            closer,
            names: PhantomData,
        };
        Closing {
            word,
            closer: Mutex::new(closer),
        }
    }

    /// Closes the engine.
    pub(crate) fn close(&self, rt: &impl Wait) {
        self.closer.lock(rt).close(&self.word);
    }

    /// Returns a token if the engine is closed.
    pub(crate) fn closed(&self) -> Option<ClosedEngine<J>> {
        let closed = self.word.closed()?;
        Some(ClosedEngine {
            closed,
            names: PhantomData,
        })
    }
}

impl<J: ServeNames> EngineCloser<J> {
    fn close(&mut self, word: &ClosingWord)
        requires { word.now ≡ J.closing }
    {
        word.close(&mut self.closer);
    }
}
