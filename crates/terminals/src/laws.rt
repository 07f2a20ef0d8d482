//! Laws of the texts: functions without effect whose contracts are proved.
ghost use Rattle.terminals.specs.ChoiceLaws.{ChoiceTextsDiffer};
ghost use Rattle.terminals.specs.ReadLaws.{LogsAreRead, MovesAreRead, SchedulesAreRead, ScriptsAreRead};
ghost use Rattle.terminals.specs.RecordLaws.{LogsDiffer, MovesDiffer, SchedulesDiffer, ScriptsDiffer};

/// Different choices of a customer have different texts.
pub fn choice_texts_differ()
    ensures { ChoiceTextsDiffer }
{}

/// Different scripts have different records, if their values are in the ranges of their types.
pub fn scripts_differ()
    ensures { ScriptsDiffer }
{}

/// Different lists of moves have different records, if their numbers are in the ranges of their types.
pub fn moves_differ()
    ensures { MovesDiffer }
{}

/// Different schedules have different records, if their values are in the ranges of their types.
pub fn schedules_differ()
    ensures { SchedulesDiffer }
{}

/// Different logs have different records, if their values are in the ranges of their types.
pub fn logs_differ()
    ensures { LogsDiffer }
{}

/// The records of a script of fewer than 2^32 requests have no fault, if none is too long and the values are in the ranges of
/// `CanBeRead`. So `read_script` finds none in them.
pub fn scripts_are_read()
    ensures { ScriptsAreRead }
{}

/// The records of fewer than 2^32 moves have no fault, if none is too long and the values are in the ranges of `CanBeOrdered`.
/// So `read_moves` finds none in them.
pub fn moves_are_read()
    ensures { MovesAreRead }
{}

/// The records of a schedule of fewer than 2^32 items have no fault, if none is too long and the values are in the ranges of
/// `CanBeReadItem`. So `read_schedule` finds none in them.
pub fn schedules_are_read()
    ensures { SchedulesAreRead }
{}

/// The records of a log of fewer than 2^32 entries have no fault, if none is too long and the values are in the ranges of
/// `CanBeReadEntry`. So `read_log` finds none in them.
pub fn logs_are_read()
    ensures { LogsAreRead }
{}
