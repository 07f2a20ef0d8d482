//! The claims of an action on their way back to the slice of their warehouse.
ghost use Rattle.std.specs.Prelude.{◌≡◌};
ghost use Rattle.transactions.specs.Works.{home_of_claims};

use commit_log::Names;
use std::marker::Model;
use tickets::Claims;

/// The claims of an action of a logged transaction. Invariant: what they left is committed.
///
/// Contracts see the slot and the claims.
#[derive(Drop)]
pub struct Settle<J: Names> {
    /// The slot of its transaction.
    pub(crate) slot: usize,
    pub(crate) claims: Claims<J>,
}

impl<J: Names> Model for Settle<J> {
    ghost use Rattle.std.specs.Coded.{codes};
    ghost use Rattle.groups.specs.contracts.content.Content as content;
    ghost use Rattle.executor.specs.GivenBackViews.{GivenBackView};

    ghost Value = { GivenBackView };

    ghost coded = { Prim.hlevel (codes, content.the_row.coded) };

    ghost use Rattle.executor.specs.GivenBackViews.{given_back_view};
    ghost use Rattle.transactions.specs.Acting.{CanAllBeSettled};

    ghost view = { λ s. given_back_view s.slot s.claims };

    ghost invariant = { λ s. CanAllBeSettled s.claims };
}

impl<J: Names> Settle<J> {
    /// The slot of its transaction.
    pub fn slot(&self) -> usize
        ensures { result ≡ self.now.slot }
    {
        self.slot
    }

    /// The W_ID of the warehouse of the claims' slice.
    pub fn home(&self) -> u32
        ensures { result ≡ home_of_claims self.now.claims }
    {
        self.claims.home()
    }
}

/// The claims of an action of a transaction that is refused or rolled back: what it did is to be undone. Invariant: it can be
/// undone.
///
/// Contracts see the slot and the claims.
#[derive(Drop)]
pub struct Undo<J: Names> {
    /// The slot of its transaction.
    pub(crate) slot: usize,
    pub(crate) claims: Claims<J>,
}

impl<J: Names> Model for Undo<J> {
    ghost use Rattle.std.specs.Coded.{codes};
    ghost use Rattle.groups.specs.contracts.content.Content as content;
    ghost use Rattle.executor.specs.GivenBackViews.{GivenBackView};

    ghost Value = { GivenBackView };

    ghost coded = { Prim.hlevel (codes, content.the_row.coded) };

    ghost use Rattle.executor.specs.GivenBackViews.{given_back_view};
    ghost use Rattle.transactions.specs.Acting.{CanAllBeUndone};

    ghost view = { λ u. given_back_view u.slot u.claims };

    ghost invariant = { λ u. CanAllBeUndone u.claims };
}

impl<J: Names> Undo<J> {
    /// The slot of its transaction.
    pub fn slot(&self) -> usize
        ensures { result ≡ self.now.slot }
    {
        self.slot
    }

    /// The W_ID of the warehouse of the claims' slice.
    pub fn home(&self) -> u32
        ensures { result ≡ home_of_claims self.now.claims }
    {
        self.claims.home()
    }
}
