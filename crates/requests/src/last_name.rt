ghost use Rattle.std.specs.Prelude.{◌≡◌, false};
ghost use Rattle.std.specs.Cmp.{partial_equiv_from_equiv};
ghost use Rattle.std.specs.Cmp.Lexicographic.{nat_list_eq_equiv};
ghost use Rattle.rows.specs.Text.{IsText};
ghost use Rattle.requests.specs.LastName.{begins_with_hash, unless_hash};

use schema::Text;
use std::marker::Model;

/// A C_LAST by which a customer can be selected: a text of at most 16 bytes that doesn't begin with `#`.
/// Where requests are written, `#` begins a number.
#[derive(Clone, Debug, Drop)]
pub struct LastName {
    name: Text<16>,
}

impl Model for LastName {
    ghost use Rattle.std.specs.Prelude.{◌≡◌, ℕ, List, false};
    ghost use Rattle.requests.specs.LastName.{begins_with_hash};

    ghost Value = { List ℕ };

    ghost view = { λ l. l.name };

    ghost invariant = { λ l. begins_with_hash l.name ≡ false };
}

impl LastName {
    /// Returns the name, or `None` if it begins with `#`. Never allocates.
    pub fn checked_new(name: Text<16>) -> Option<LastName>
        ensures { result ≡ unless_hash name }
    {
        if name.as_str().starts_with("#") {
            None
        } else {
            Some(LastName { name })
        }
    }

    /// Returns the bytes of the name: at most 16, printable ASCII.
    pub fn as_str(&self) -> &str
        ensures bytes { result.now ≡ self.now }
        ensures no_hash { begins_with_hash self.now ≡ false }
        ensures is_text { IsText 16 self.now }
    {
        self.name.as_str()
    }
}

impl PartialEq for LastName {
    ghost use Rattle.std.specs.Prelude.{nat_eq};
    ghost use Rattle.std.specs.Cmp.Lexicographic.{pointwise};

    ghost eq = { λ s t. pointwise nat_eq s t };

    ghost laws = { partial_equiv_from_equiv nat_list_eq_equiv };

    fn eq(&self, other: &Self) -> bool {
        self.as_str() == other.as_str()
    }
}

impl Eq for LastName {
    ghost laws = { nat_list_eq_equiv };
}
