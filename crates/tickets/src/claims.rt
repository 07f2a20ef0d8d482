ghost use Rattle.std.specs.Prelude.{◌≡◌, ◌≤◌, length, slice_index_or};
ghost use Rattle.groups.specs.Groups.{warehouse_of};
ghost use Rattle.tickets.specs.Claims.{ClaimView};
ghost use Rattle.tickets.specs.Places.{IsBetween};

use crate::{Claim, GroupNames};
use std::marker::Model;

/// The claims of one action. In contracts: the list of the claims, in order.
#[derive(Drop)]
pub struct Claims<J: GroupNames> {
    pub(crate) claims: Vec<Claim<J>>,
}

impl<J: GroupNames> Model for Claims<J> {
    ghost use Rattle.std.specs.Coded.{codes};
    ghost use Rattle.std.specs.Prelude.{List};
    ghost use Rattle.groups.specs.contracts.content.Content as content;
    ghost use Rattle.tickets.specs.Claims.{ClaimView};

    ghost Value = { List ClaimView };

    ghost coded = { Prim.hlevel (codes, content.the_row.coded) };

    ghost view = { λ c. c.claims.items };
}

impl<J: GroupNames> Claims<J> {
    /// Makes the claims of one action from these claims.
    pub fn new(claims: Vec<Claim<J>>) -> Claims<J>
        ensures { result ≡ claims.items }
    {
        Claims { claims }
    }

    /// Returns the claims, in order.
    pub fn into_vec(self) -> Vec<Claim<J>>
        ensures { result.items ≡ self }
    {
        self.claims
    }

    /// Returns the warehouse of the first claim's group, 1 to the number of warehouses.
    pub fn home(&self) -> u32
        requires some { 1 ≤ length self.now }
        ensures home { (d : ClaimView) → result ≡ warehouse_of (slice_index_or self.now 0 d).group }
        ensures known { IsBetween 1 J.warehouses result }
    {
        self.claims[0].home()
    }
}
