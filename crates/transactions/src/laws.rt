//! Laws of all kinds of transactions: functions that do nothing and whose contracts are proved.
ghost use Rattle.transactions.specs.Laws.{AcceptedRequestsHaveTheirGroups, ActionsCanDoTheirWork, ClaimsAreOfTheFootprint, PhasesHaveActions, ReachedRequestsAreAccepted, RolledBackClaimsCanBeUndone, TransactionsClaimEachGroupOnce, TransactionsHaveFewActions, WorksAreAtWarehouses, WorksAreDoneAtHome, WorksClaimAtHome, WorksHaveAClaimForEachGroupWant, WorksHaveTheirGroups, WorksHaveGroupWants};

use groups::footprints_name_each_group_once;
use rows::MOST_LINES;

/// The largest number of actions of a transaction, in all its phases together.
pub const MOST_ACTIONS: usize = MOST_LINES + 3;

/// Law: a request that was carried out as rolled back under its claims is so also once all that was done under them is undone.
pub fn rolled_back_claims_can_be_undone()
    ensures { RolledBackClaimsCanBeUndone }
{}

/// Law: the groups of an accepted request's footprint are groups of the scale's warehouses.
pub fn accepted_requests_have_their_groups()
    ensures { AcceptedRequestsHaveTheirGroups }
{}

/// Law: the groups that an action claims for work that it can do are groups of the scale's warehouses.
pub fn works_have_their_groups()
    ensures { WorksHaveTheirGroups }
{}

/// Law: each work wants at least one group, and is done under one claim for each of its wants, on the want's group.
pub fn works_have_group_wants()
    ensures some { WorksHaveGroupWants }
    ensures claims { WorksHaveAClaimForEachGroupWant }
{}

/// Law: work that can be done is at a warehouse of the scale, so the action's slice exists.
pub fn works_are_at_warehouses()
    ensures { WorksAreAtWarehouses }
{}

/// Law: an action claims groups of its work's warehouse only, so one slice has them all.
pub fn works_claim_at_home()
    ensures { WorksClaimAtHome }
{}

/// Law: the claims under which work was done are on groups of the work's warehouse, so all of one warehouse.
pub fn works_are_done_at_home()
    ensures { WorksAreDoneAtHome }
{}

/// Law: however far a transaction has come, the actions of its phase can do their work.
pub fn actions_can_do_their_work()
    ensures { ActionsCanDoTheirWork }
{}

/// Law: the groups that a transaction holds and those that the actions of its phase claim are some of its request's footprint,
/// each claim once. No group is twice in a footprint, so none is twice among these claims: actions of one transaction never
/// conflict.
pub fn claims_are_of_the_footprint()
    ensures some { ClaimsAreOfTheFootprint }
    ensures once { TransactionsClaimEachGroupOnce }
{
    footprints_name_each_group_once();
}

/// Law: however far a transaction has come, the check accepts its request.
pub fn reached_requests_are_accepted()
    ensures { ReachedRequestsAreAccepted }
{}

/// Law: each phase has an action.
pub fn phases_have_actions()
    ensures { PhasesHaveActions }
{}

/// Law: the actions of the earlier phases and those of this phase are at most `MOST_ACTIONS`.
pub fn transactions_have_few_actions()
    ensures { TransactionsHaveFewActions }
{}
