//! An action, from its claims to their return.
ghost use Rattle.std.specs.Prelude.{◌≡◌, [], ◌∷◌, All};
ghost use Rattle.partitions.specs.Parts.{shared_of};
ghost use Rattle.slices.specs.SliceView.{IsClaimAt, SliceKeeps};
ghost use Rattle.transactions.specs.Acting.{claims_of_ran, CanBeSettled, CanBeUndone, IsRanUnder};
ghost use Rattle.transactions.specs.Granted.{AreGrantedFor};
ghost use Rattle.transactions.specs.Works.{CanDo, home_of, group_wants_of};

use crate::{Found, Work, run};
use groups::Mode;
use requests::Group;
use slices::Slice;
use std::alloc::Global;
use tickets::{Claim, Claims, GroupNames};
use wait_die::Age;

/// The result of an action.
#[derive(Drop)]
pub enum Ran<J: GroupNames> {
    /// It did its work under these claims, and found this.
    Done(Claims<J>, Found),
    /// It did nothing, since holders that are not younger conflict: `group` is the first group, in the order of groups, on which
    /// there is one, and `holder` the age of the oldest one there.
    Died { group: Group, holder: Age },
    /// It did nothing, since an allocation failed.
    NoMemory,
}

// Does the work under the claims that were granted for it. If an allocation fails, gives the claims back.
pub(crate) fn run_under<J: GroupNames>(
    alloc: Global,
    slice: &mut Slice<J>,
    mut claims: Vec<Claim<J>>,
    work: Work,
) -> Ran<J>
    requires can { CanDo (shared_of slice.old.tables) work }
    requires home { home_of work ≡ slice.old.home }
    requires granted { AreGrantedFor (group_wants_of work) claims.items }
    ensures kept { SliceKeeps claims.items slice.old (claims_of_ran result) slice.new }
    ensures done { IsRanUnder slice.old work claims.items result slice.new }
{
    match run(alloc, slice, &mut claims, work) {
        Ok(found) => Ran::Done(Claims::new(claims), found),
        Err(_) => {
            give_back(slice, claims);
            Ran::NoMemory
        }
    }
}

/// Gives the claims of an action back to the slice of their warehouse. Requires that what they left is committed. Never
/// allocates.
pub fn settle<J: GroupNames>(slice: &mut Slice<J>, claims: Claims<J>)
    requires settled { All CanBeSettled claims }
    requires home { All (IsClaimAt slice.old.home) claims }
    ensures { SliceKeeps claims slice.old [] slice.new }
{
    give_back(slice, claims.into_vec());
}

fn give_back<J: GroupNames>(slice: &mut Slice<J>, mut claims: Vec<Claim<J>>)
    requires settled { All CanBeSettled claims.items }
    requires home { All (IsClaimAt slice.old.home) claims.items }
    ensures kept { SliceKeeps claims.items slice.old [] slice.new }
    ensures tables { slice.new.tables ≡ slice.old.tables }
{
    while let Some(claim) = claims.pop() {
        slice.take_back(claim);
    }
}

/// Undoes what an action did under its claims, and gives them back to the slice of their warehouse. Never allocates.
pub fn undo<J: GroupNames>(slice: &mut Slice<J>, claims: Claims<J>)
    requires undone { All CanBeUndone claims }
    requires home { All (IsClaimAt slice.old.home) claims }
    ensures { SliceKeeps claims slice.old [] slice.new }
{
    let mut claims = claims.into_vec();
    while let Some(claim) = claims.pop() {
        undo_claim(slice, claim);
    }
}

fn undo_claim<J: GroupNames>(slice: &mut Slice<J>, mut claim: Claim<J>)
    requires undone { CanBeUndone claim }
    requires home { IsClaimAt slice.old.home claim }
    ensures { SliceKeeps (claim ∷ []) slice.old [] slice.new }
{
    if claim.mode() == Mode::Exclusive {
        slice.undo(&mut claim);
    }
    slice.take_back(claim);
}
