//! Proved laws of the numbers of awaited places, as functions with empty bodies.
ghost use Rattle.rendezvous.specs.Laws.{AllAreAwaitedAtFirst, AwaitedAreAtMostThePlaces, AwaitedHaveNotReported, NoneAwaitedExactlyOfAllReported, NoneAwaitedOfAllReported, ReportTakesOneNumber};

/// A report removes its place's number from the awaited ones, and no other number.
pub fn reports_take_one_number<R>()
    ensures { ReportTakesOneNumber R }
{}

/// The awaited places are those that have not reported, and no others.
pub fn awaited_have_not_reported<R>()
    ensures { AwaitedHaveNotReported R }
{}

/// No place is awaited exactly if all have reported.
pub fn none_awaited_where_all_reported<R>()
    ensures all { NoneAwaitedOfAllReported R }
    ensures exactly { NoneAwaitedExactlyOfAllReported R }
{}

/// There are at most as many awaited places as places.
pub fn awaited_are_at_most_the_places<R>()
    ensures { AwaitedAreAtMostThePlaces R }
{}

/// At first all places are awaited, in the order of their numbers.
pub fn all_are_awaited_at_first<R>()
    ensures { AllAreAwaitedAtFirst R }
{}
