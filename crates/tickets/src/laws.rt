//! Proved laws of the committed contents of a slice, as functions with empty bodies.
ghost use Rattle.tickets.specs.Laws.{ClaimElsewhereSaysNothing, ClaimsRecordWhatIsCommitted, CommitMakesTheNextTables, ExclusiveClaimIsAlone, GiveBackKeepsCommitted, GrantKeepsCommitted, OnlyWhatIsHereCounts, OrderDoesNotMatter, RestIsCommitted, SeatsRecordClaims, SettledSeatsRecordTheNextTables, StayingKeepsCommitted, StepElsewhereKeepsCommitted, StepsKeepBesideOthers, StepsKeepClaimsOut, StepsKeepInAnyOrder, TwoStepsKeepCommitted, UndoKeepsCommitted, WriteKeepsCommitted};

/// What is committed doesn't depend on the order of the claims that are out.
pub fn order_does_not_matter()
    ensures { OrderDoesNotMatter }
{}

/// A claim on a group of another slice is irrelevant for this slice, and a change of that claim changes
/// nothing here.
pub fn claims_elsewhere_say_nothing()
    ensures claims { ClaimElsewhereSaysNothing }
    ensures steps { StepElsewhereKeepsCommitted }
{}

/// What is committed in a slice depends only on the slice's own groups.
pub fn only_what_is_here_counts()
    ensures { OnlyWhatIsHereCounts }
{}

/// Granting a claim keeps what is committed.
pub fn grants_keep_committed()
    ensures { GrantKeepsCommitted }
{}

/// A write under an exclusive claim keeps what is committed.
pub fn writes_keep_committed()
    ensures { WriteKeepsCommitted }
{}

/// Undoing all that was done under an exclusive claim keeps what is committed.
pub fn undos_keep_committed()
    ensures { UndoKeepsCommitted }
{}

/// Giving back a claim whose recorded content is what it left keeps what is committed.
pub fn claims_given_back_keep_committed()
    ensures { GiveBackKeepsCommitted }
{}

/// When claims are settled, what the exclusive ones left is committed, and nothing else changes.
pub fn commits_make_the_next_tables()
    ensures { CommitMakesTheNextTables }
{}

/// A claim that is out records the committed content of its group.
pub fn claims_record_what_is_committed()
    ensures { ClaimsRecordWhatIsCommitted }
{}

/// An exclusive claim that is out is the only one on its group.
pub fn exclusive_claims_are_alone()
    ensures { ExclusiveClaimIsAlone }
{}

/// While no claim is out, the rows of a slice's groups are what is committed.
pub fn rest_is_committed()
    ensures { RestIsCommitted }
{}

/// Steps that keep what is committed also keep it one after another, beside other claims, and in any
/// order of their claims. Claims that were out before the steps are out after them.
pub fn steps_keep_committed()
    ensures none { StayingKeepsCommitted }
    ensures two { TwoStepsKeepCommitted }
    ensures others { StepsKeepBesideOthers }
    ensures order { StepsKeepInAnyOrder }
    ensures out { StepsKeepClaimsOut }
{}

/// The log's seats have the contents that the claims record, and the next tables once the claims are
/// settled.
pub fn seats_record_the_tables()
    ensures claims { SeatsRecordClaims }
    ensures settled { SettledSeatsRecordTheNextTables }
{}
