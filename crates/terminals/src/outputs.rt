ghost use Rattle.std.specs.Prelude.{◌≡◌, ◌∷◌, [], ℕ, true, All, length, IfErr, IfNone, IfSome, OnErr, OnOk};
ghost use Rattle.files.specs.Failure.{IsOfWriting};
ghost use Rattle.files.specs.Sending.{BeginsToWrite, OfFirst, Writes};
ghost use Rattle.files.specs.Written.{AddsFields};
ghost use Rattle.history.specs.Fits.{IsLoggedBelow};
ghost use Rattle.terminals.specs.LockChanges.{AreLines, IsLine, due, is_due, later, lines};
ghost use Rattle.terminals.specs.LinesLeft.{IsLineBelow, line_of, lines_left};
ghost use Rattle.terminals.specs.Outputs.{IsEventAnswer, IsOutput, IsReportedBelow, NameEntries};

use crate::answers;
use crate::lock_changes::put_change;
use commit_log::Entry;
use files::{FileError, NewRecord, RecordWriter};
use history::{EventAnswer, LockChange, Output};
use schema::NoMemory;
use std::alloc::Global;
use std::io::Write;

/// Writes a record for each output of a schedule to the sink, and for each change of a lock table, after as many outputs as
/// were before it. An answer with a place in the log has the reply of the entry there.
///
/// Returns NoMemory if there is no memory for a record. Returns Failed if the sink fails, with the number of the current
/// record, 0 if there is none; because records are buffered, what was not written may be of an earlier record. After an error
/// the sink has got a beginning of the text.
pub fn write_outputs<W: Write>(
    alloc: Global,
    sink: &mut W,
    reported: &[Output],
    changes: &[LockChange],
    log: &[Entry],
) -> Result<(), FileError>
    requires { NameEntries log.now reported.now }
    ensures written { OnOk result (Writes (W.contents sink.old) (W.contents sink.new)
        (AreLines log.now (lines 0 reported.now changes.now))) }
    ensures begun { OnErr result (BeginsToWrite (W.contents sink.old) (W.contents sink.new)
        (OfFirst (AreLines log.now) (lines 0 reported.now changes.now))) }
    ensures failed { IfErr result IsOfWriting }
{
    let mut writer = RecordWriter::new(alloc);
    let mut row = NewRecord::new(alloc);
    let mut left = LinesLeft {
        outputs: reported,
        number: 0,
        changes,
    };
    while let Some(line) = left.next() {
        row.clear();
        put_line(&mut row, line, log)?;
        writer.write(sink, &row)?;
    }
    writer.finish(sink)
}

/// The next line that a schedule prints.
#[derive(Clone, Copy)]
pub(crate) enum NextLine<'a> {
    Reported(&'a Output),
    Changed(&'a LockChange),
}

/// The lines that are left to print.
#[derive(Clone, Copy)]
pub(crate) struct LinesLeft<'a> {
    // All outputs, and how many were printed.
    outputs: &'a [Output],
    number: usize,
    // The changes that are left.
    changes: &'a [LockChange],
}

impl<'a> LinesLeft<'a> {
    // Takes out the first line that is left.
    fn next(&mut self) -> Option<NextLine<'a>>
        ensures some { IfSome result (λ line.
            lines_left self.old ≡ line_of line ∷ lines_left self.new) }
        ensures none { IfNone result (lines_left self.old ≡ []) }
        ensures below { (most : ℕ) → All (IsReportedBelow most) self.old.outputs.now
            → IfSome result (λ line. IsLineBelow most (line_of line)) }
        ensures same { self.new.outputs ≡ self.old.outputs }
    {
        let Some(output) = self.outputs.get(self.number) else {
            let (change, changes) = self.changes.split_first()?;
            self.changes = changes;
            return Some(NextLine::Changed(change));
        };
        if let Some((change, changes)) = first_due(self.changes, self.number) {
            self.changes = changes;
            return Some(NextLine::Changed(change));
        }
        self.number += 1;
        Some(NextLine::Reported(output))
    }
}

// The first change and the others, if the first one comes before the output of this number.
fn first_due(changes: &[LockChange], number: usize) -> Option<(&LockChange, &[LockChange])>
    ensures some { IfSome result (λ both.
        (changes.now ≡ both.0.now ∷ both.1.now) × (is_due number both.0.now ≡ true)) }
    ensures none { IfNone result
        ((due number changes.now ≡ []) × (later number changes.now ≡ changes.now)) }
{
    let (change, others) = changes.split_first()?;
    if change.outputs <= number {
        Some((change, others))
    } else {
        None
    }
}

// Adds the fields of a line.
fn put_line(row: &mut NewRecord, line: NextLine, log: &[Entry]) -> Result<(), NoMemory>
    requires { IsLineBelow (length log.now) (line_of line) }
    ensures { OnOk result (AddsFields row.old row.new (IsLine log.now (line_of line.entry))) }
{
    match line {
        NextLine::Reported(output) => put_output(row, output, log),
        NextLine::Changed(change) => put_change(row, change),
    }
}

// Adds the fields of an output.
fn put_output(row: &mut NewRecord, reported: &Output, log: &[Entry]) -> Result<(), NoMemory>
    requires { IsReportedBelow (length log.now) reported.now }
    ensures { OnOk result (AddsFields row.old row.new (IsOutput log.now reported.now)) }
{
    match reported {
        Output::Event(answer) => put_event_answer(row, answer, log),
        Output::Quiet => row.push("quiet"),
        Output::Limit => row.push("limit"),
    }
}

// Adds the fields of the answer to an event.
fn put_event_answer(
    row: &mut NewRecord,
    answer: &EventAnswer,
    log: &[Entry],
) -> Result<(), NoMemory>
    requires { IsLoggedBelow (length log.now) answer.now }
    ensures { OnOk result (AddsFields row.old row.new (IsEventAnswer log.now answer.now)) }
{
    match answer {
        EventAnswer::Accepted { age } => {
            row.push("accepted")?;
            row.push_number(*age)
        }
        EventAnswer::Ordered => row.push("ordered"),
        EventAnswer::Took => row.push("took"),
        EventAnswer::Sent => row.push("sent"),
        EventAnswer::Full => row.push("full"),
        EventAnswer::Logged { place } => {
            row.push("logged")?;
            row.push_number(u64::from(*place))
        }
        EventAnswer::Moved => row.push("moved"),
        EventAnswer::Answered {
            session,
            number,
            answer,
        } => {
            row.push("answered")?;
            answers::put_answer_in(row, *session, u64::from(*number), answer, log)
        }
        EventAnswer::Nothing => row.push("nothing"),
    }
}
