use agreement::{Change, Seat, Value};
use groups::{Content, Mode};

/// The value of the agreement on a group's committed content. Ghost data: none is ever made.
pub struct CommittedContent {
    /// What is committed in the group.
    pub content: Content,
}

impl Value for CommittedContent {
    ghost use Rattle.tickets.specs.Unset.{nothing};

    ghost initial = { record { content = nothing } };
}

/// The value of the agreement of the slice and the claims on a group. Ghost data: none is ever made.
pub struct Work {
    /// Exclusive while an exclusive claim is out.
    pub mode: Mode,
    /// What the claim left in the group.
    pub left: Content,
    /// The content of the group after an undo of all that was done under the claim.
    pub back: Content,
}

impl Value for Work {
    ghost use Rattle.tickets.specs.Unset.{nothing};
    ghost use Rattle.groups.specs.declared.group_wants.Mode.TheVariants.{Shared};

    ghost initial = { record { mode = Shared; left = nothing; back = nothing } };
}

/// Commits what a claim left.
impl Change<CommittedContent> for Seat<Work> {
    ghost changed = { λ seat before. record { content = seat.value.left } };
}

/// Starts claims of this mode, under which nothing was done yet.
impl Change<Work> for Mode {
    ghost changed = { λ mode before. record { mode = mode; left = before.left; back = before.left } };
}

/// Changes what is left in the group. The content after an undo is unchanged.
#[derive(Drop)]
pub struct Leaves<'a, C> {
    pub change: &'a C,
}

impl<C: Change<Content>> Change<Work> for Leaves<'_, C> {
    ghost changed = { λ leaves before. record { mode = before.mode; left = C.changed leaves.change.now before.left; back = before.back } };
}

/// Undoes all that was done.
#[derive(Drop)]
pub struct Undone;

impl Change<Work> for Undone {
    ghost changed = { λ undone before. record { mode = before.mode; left = before.back; back = before.back } };
}
