ghost use Rattle.std.specs.Prelude.{◌≡◌, ◌≢◌, [], IfOk, OnErr};
ghost use Rattle.std.specs.Cmp.{partial_equiv_from_equiv};
ghost use Rattle.std.specs.Cmp.Lexicographic.{nat_list_eq_equiv};
ghost use Rattle.rows.specs.Text.{IsText};

use schema::{NoMemory, Text};
use std::alloc::Global;
use std::marker::Model;

/// What a payment shows of C_DATA (clause 2.5.3.4): a text of at most 200 bytes, empty for good credit.
/// It has the size of a pointer, and allocates only if it is not empty.
#[derive(Clone, Debug, Drop)]
pub struct ShownData {
    text: Option<Box<Text<200>>>,
}

impl Model for ShownData {
    ghost use Rattle.std.specs.Prelude.{ℕ, List};
    ghost use Rattle.requests.specs.ShownData.{HoldsWords, text_in};

    ghost Value = { List ℕ };

    ghost view = { λ d. text_in d.text };

    ghost invariant = { λ d. HoldsWords d.text };
}

impl ShownData {
    /// The empty text. Never allocates.
    pub fn empty() -> Self
        ensures { result ≡ [] }
    {
        ShownData { text: None }
    }

    /// Makes a value of this text. Returns NoMemory if an allocation fails; nothing stays allocated
    /// then. An empty text allocates nothing.
    pub fn new(alloc: Global, text: Text<200>) -> Result<Self, NoMemory>
        ensures shown { IfOk result (λ shown. shown ≡ text) }
        ensures err { OnErr result (text ≢ []) }
    {
        if text.as_str().is_empty() {
            return Ok(ShownData::empty());
        }
        Ok(ShownData {
            text: Some(Box::new(alloc, text)?),
        })
    }

    /// Returns the bytes of the text: at most 200, printable ASCII.
    pub fn as_str(&self) -> &str
        ensures bytes { result.now ≡ self.now }
        ensures is_text { IsText 200 self.now }
    {
        match &self.text {
            Some(text) => text.as_str(),
            None => "",
        }
    }
}

impl PartialEq for ShownData {
    ghost use Rattle.std.specs.Prelude.{nat_eq};
    ghost use Rattle.std.specs.Cmp.Lexicographic.{pointwise};

    ghost eq = { λ s t. pointwise nat_eq s t };

    ghost laws = { partial_equiv_from_equiv nat_list_eq_equiv };

    fn eq(&self, other: &Self) -> bool {
        self.as_str() == other.as_str()
    }
}

impl Eq for ShownData {
    ghost laws = { nat_list_eq_equiv };
}
