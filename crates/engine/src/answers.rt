ghost use Rattle.std.specs.Prelude.{◌≡◌};

use requests::Refusal;
use std::marker::Model;

/// The answers to the parts of one script, in order: the place of the part's entry, with its reply, in the log, or why its request
/// was refused.
#[derive(Drop)]
pub struct Answers {
    answers: Vec<Result<u32, Refusal>>,
}

impl Model for Answers {
    ghost use Rattle.std.specs.Prelude.{List, Result, ℕ};
    ghost use Rattle.requests.specs.declared.refusal.Refusal.{Refusal};

    ghost Value = { List (Result ℕ Refusal) };

    ghost view = { λ a. a.answers.items };
}

impl Answers {
    // Wraps these answers.
    pub(crate) fn of(answers: Vec<Result<u32, Refusal>>) -> Answers
        ensures { result ≡ answers.items }
    {
        Answers { answers }
    }

    /// The answers, in the order of the parts.
    pub fn as_slice(&self) -> &[Result<u32, Refusal>]
        ensures { result.now ≡ self.now }
    {
        self.answers.as_slice()
    }
}
