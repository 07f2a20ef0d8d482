//! Laws of histories, as functions with empty bodies: their contracts are proved. They show, event by event, that a
//! history which fits before an event fits after it.
ghost use Rattle.history.specs.Laws.{AdmissionFits, AnswerFits, EmptyHistoryFits, EntryFits, QuietEventFits, UnansweredInAnyOrder};

/// A history without events fits consistent tables and an empty log.
pub fn empty_history_fits()
    ensures { EmptyHistoryFits }
{}

/// The order in which the unanswered transactions are listed is irrelevant.
pub fn unanswered_in_any_order()
    ensures { UnansweredInAnyOrder }
{}

/// After an event that concerns no transaction, a history that fits still fits.
pub fn quiet_event_fits()
    ensures { QuietEventFits }
{}

/// A session without an unanswered transaction is admitted, with the next age.
pub fn admission_fits()
    ensures { AdmissionFits }
{}

/// An unanswered transaction without an entry gets an entry at the end of the log, with the machine's reply.
pub fn entry_fits()
    ensures { EntryFits }
{}

/// An unanswered transaction is answered with the place of its entry, or refused if it has no entry.
pub fn answer_fits()
    ensures { AnswerFits }
{}
