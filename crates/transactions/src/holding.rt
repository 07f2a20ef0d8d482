//! The claims that a transaction holds.
ghost use Rattle.std.specs.Prelude.{◌≡◌, ◌<◌, [], ◌∷◌, ◌++◌, length, IfNone, IfOk, option_to_list};

use crate::MOST_ACTIONS;
use schema::NoMemory;
use std::alloc::Global;
use std::marker::Model;
use tickets::{Claims, GroupNames};

/// The claims of actions that have done their work, by place, with capacity for those of all actions of a transaction. Allocates
/// only as it is opened.
#[derive(Drop)]
pub struct HeldClaims<J: GroupNames> {
    pub(crate) places: Vec<Claims<J>>,
}

impl<J: GroupNames> Model for HeldClaims<J> {
    ghost use Rattle.std.specs.Coded.{codes};
    ghost use Rattle.std.specs.Prelude.{List, ◌≤◌, vec_capacity};
    ghost use Rattle.groups.specs.contracts.content.Content as content;
    ghost use Rattle.tickets.specs.Claims.{ClaimView};
    ghost use Rattle.transactions.specs.declared.laws.TheConstants.{MOST_ACTIONS};

    ghost Value = { List (List ClaimView) };

    ghost coded = { Prim.hlevel (codes, content.the_row.coded) };

    ghost view = { λ h. h.places.items };

    ghost invariant = { λ h. MOST_ACTIONS ≤ vec_capacity h.places };
}

impl<J: GroupNames> HeldClaims<J> {
    /// Opens it without claims. Returns NoMemory if the allocation fails.
    pub fn open(alloc: Global) -> Result<HeldClaims<J>, NoMemory>
        ensures { IfOk result (λ held. held ≡ []) }
    {
        let places = Vec::with_capacity(alloc, MOST_ACTIONS)?;
        Ok(HeldClaims { places })
    }

    /// The number of actions that hold claims.
    pub fn len(&self) -> usize
        ensures { result ≡ length self.now }
    {
        self.places.len()
    }

    /// Adds the claims of the action of the next place. Requires that there are fewer than MOST_ACTIONS.
    pub fn put(&mut self, claims: Claims<J>)
        requires { length self.old < MOST_ACTIONS }
        ensures { self.new ≡ self.old ++ claims ∷ [] }
    {
        self.places.push_reserved(claims);
    }

    /// Takes the claims of the action of the last place.
    pub fn take_last(&mut self) -> Option<Claims<J>>
        ensures front { self.old ≡ self.new ++ option_to_list result }
        ensures none { IfNone result ((self.old ≡ []) × (self.new ≡ [])) }
    {
        self.places.pop()
    }

    /// The claims of each action, by place.
    pub fn into_vec(self) -> Vec<Claims<J>>
        ensures { result.items ≡ self }
    {
        self.places
    }
}
