//! The flow graphs, as far as a picture needs them: the actions of a request, where each is done, and the groups it claims.
use crate::phrase::Phrase;
use groups::{GroupWant, Mode, footprint, warehouse_of};
use requests::{Group, Request};
use schema::NoMemory;
use std::alloc::Global;

/// The claims of an action.
#[derive(Clone, Copy)]
pub enum Claimed {
    One(GroupWant),
    /// The home warehouse's row and the home district's.
    Two(GroupWant, GroupWant),
    /// All groups of a warehouse's stock, from the first to the last.
    All(GroupWant, GroupWant),
}

/// An action of a flow graph.
#[derive(Clone, Copy)]
pub struct Action {
    /// Its phase, from 0.
    pub phase: u32,
    pub claimed: Claimed,
}

/// The actions of a request, by place. Most actions claim one group, in the order of the groups. The exceptions: one action
/// claims the home warehouse's row and the home district's; one claims all stock of a Stock-Level.
pub fn actions_of(alloc: Global, request: &Request) -> Result<Vec<Action>, NoMemory> {
    let mut actions: Vec<Action> = Vec::new(alloc);
    for &group_want in footprint(alloc, request)?.iter() {
        match actions.last_mut() {
            Some(last) if last.claims_too(request, group_want) => last.claimed = last
                .claimed
                .with(group_want),
            _ => actions.push(Action {
                phase: phase_of(request, group_want.group),
                claimed: Claimed::One(group_want),
            })?,
        }
    }
    Ok(actions)
}

// The phase in which a request claims a group.
fn phase_of(request: &Request, group: Group) -> u32 {
    match (request, group) {
        (Request::NewOrder(_), Group::Stock { .. })
        | (Request::Payment(_), Group::History { .. })
        | (Request::OrderStatus(_), Group::Orders { .. })
        | (Request::Delivery(_), Group::Customers { .. })
        | (Request::StockLevel(_), Group::Orders { .. }) => 1,
        (Request::NewOrder(_), Group::Orders { .. })
        | (Request::StockLevel(_), Group::Stock { .. }) => 2,
        _ => 0,
    }
}

// Whether two groups are both of one warehouse's stock.
fn is_beside(one: Group, other: Group) -> bool {
    match (one, other) {
        (Group::Stock { w_id: a, .. }, Group::Stock { w_id: b, .. }) => a == b,
        _ => false,
    }
}

impl Claimed {
    // The first claim.
    fn first(self) -> GroupWant {
        match self {
            Claimed::One(first) | Claimed::Two(first, _) | Claimed::All(first, _) => first,
        }
    }

    // With the next claim: the home district's after the warehouse's, or another one of its stock.
    fn with(self, group_want: GroupWant) -> Claimed {
        match group_want.group {
            Group::District { .. } => Claimed::Two(self.first(), group_want),
            _ => Claimed::All(self.first(), group_want),
        }
    }

    // Whether one of these claims conflicts with this want.
    fn stops(self, group_want: GroupWant) -> bool {
        match self {
            Claimed::One(own) => own.group == group_want.group && conflict(own, group_want),
            Claimed::Two(one, other) => {
                one.group == group_want.group && conflict(one, group_want)
                    || other.group == group_want.group && conflict(other, group_want)
            }
            Claimed::All(one, _) => is_beside(one.group, group_want.group)
                && conflict(one, group_want),
        }
    }
}

impl Action {
    // Whether the action claims this group too, which comes after those that it claims.
    fn claims_too(self, request: &Request, group_want: GroupWant) -> bool {
        match (request, group_want.group) {
            (Request::StockLevel(_), Group::Stock { .. }) => {
                is_beside(self.claimed.first().group, group_want.group)
            }
            (Request::StockLevel(_), _) => false,
            (_, Group::District { .. }) => true,
            _ => false,
        }
    }

    /// The warehouse where the action is done.
    pub fn warehouse(self) -> u32 {
        warehouse_of(self.claimed.first().group)
    }

    /// The groups of the action, in words.
    pub fn groups(self) -> Phrase {
        match self.claimed {
            Claimed::One(group_want) => Phrase::One(group_want.group),
            Claimed::Two(one, other) => Phrase::Two(one.group, other.group),
            Claimed::All(first, last) => Phrase::All(first.group, last.group),
        }
    }

    /// Whether all claims of the action are shared.
    pub fn is_shared(self) -> bool {
        match self.claimed {
            Claimed::One(group_want) => group_want.mode == Mode::Shared,
            Claimed::Two(one, other) | Claimed::All(one, other) => {
                one.mode == Mode::Shared && other.mode == Mode::Shared
            }
        }
    }

    /// Whether one of the two actions would have to wait for the other, or die.
    pub fn conflicts(self, other: Action) -> bool {
        let (own, others) = (self.claimed, other.claimed);
        match own {
            Claimed::One(group_want) => others.stops(group_want),
            Claimed::Two(one, two) => others.stops(one) || others.stops(two),
            // If the other action claims some of these groups, its first group is one of them.
            Claimed::All(_, _) => own.stops(others.first()),
        }
    }
}

// Whether two claims on one group can't be held at once.
fn conflict(one: GroupWant, other: GroupWant) -> bool {
    !(one.mode == Mode::Shared && other.mode == Mode::Shared)
}
