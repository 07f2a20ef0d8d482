ghost use Rattle.std.specs.Prelude.{◌≡◌, ◌<◌, ◌++◌, length, IfOk, IfErr, OnErr, OnOk};
ghost use Rattle.csv.specs.Records.{fields_of};
ghost use Rattle.files.specs.Failure.{IsOfWriting};
ghost use Rattle.files.specs.Sending.{BeginsToWrite, OfFirst, Writes};
ghost use Rattle.files.specs.Written.{AddsFields};
ghost use Rattle.requests.specs.declared.answer.Answer.TheVariants.{Done, Refused};
ghost use Rattle.terminals.specs.Answers.{IsAnswer, IsAnswerIn, AreAnswers, AreInLog, refusal_fields};

use crate::reply;
use commit_log::Entry;
use csv::ByteRecord;
use files::{FileError, NewRecord, RecordWriter};
use requests::{Answer, Part, Refusal, Reply};
use schema::NoMemory;
use std::alloc::Global;
use std::io::Write;

/// The record of the answer to the request of this number of the session.
pub fn answer_record(
    alloc: Global,
    session: u32,
    number: u32,
    answer: &Answer,
) -> Result<ByteRecord, NoMemory>
    ensures { IfOk result (λ row. IsAnswer session number answer.now (fields_of row)) }
{
    let mut row = NewRecord::new(alloc);
    put_answer(&mut row, session, u64::from(number), answer)?;
    Ok(row.into_byte_record())
}

/// Writes the records of the answers to a session's script to the sink, in the order of its parts. `Ok` is the place of the entry
/// in the log, whose reply is written; `Err` is why the request was refused.
///
/// Returns NoMemory if there is no memory for a record. Returns Failed if the sink fails, with the number of the current
/// record, 0 if there is none; because records are buffered, what was not written may be of an earlier record. After an error
/// the sink has got a beginning of the text.
pub fn write_answers<W: Write>(
    alloc: Global,
    sink: &mut W,
    session: u32,
    script: &[Part],
    answers: &[Result<u32, Refusal>],
    log: &[Entry],
) -> Result<(), FileError>
    requires each { length answers.now ≡ length script.now }
    requires placed { AreInLog log.now answers.now }
    ensures written { OnOk result (Writes (W.contents sink.old) (W.contents sink.new)
        (AreAnswers log.now session script.now answers.now)) }
    ensures begun { OnErr result (BeginsToWrite (W.contents sink.old) (W.contents sink.new)
        (OfFirst (AreAnswers log.now session script.now) answers.now)) }
    ensures failed { IfErr result IsOfWriting }
{
    let mut writer = RecordWriter::new(alloc);
    let mut row = NewRecord::new(alloc);
    for (place, answer) in answers.iter().enumerate() {
        let number = script[place].number;
        row.clear();
        put_answer_in(&mut row, session, u64::from(number), answer, log)?;
        writer.write(sink, &row)?;
    }
    writer.finish(sink)
}

/// Adds the fields of the answer to a request that was logged at this place or refused.
pub fn put_answer_in(
    row: &mut NewRecord,
    session: u32,
    number: u64,
    answer: &Result<u32, Refusal>,
    log: &[Entry],
) -> Result<(), NoMemory>
    requires { IfOk answer.now (λ place. place < length log.now) }
    ensures { OnOk result
        (AddsFields row.old row.new (IsAnswerIn log.now session number answer.now)) }
{
    match answer {
        Ok(place) => put_done(row, session, number, *place, &log[*place as usize].reply),
        Err(refusal) => put_refused(row, session, number, *refusal),
    }
}

// Adds the fields of an answer.
fn put_answer(
    row: &mut NewRecord,
    session: u32,
    number: u64,
    answer: &Answer,
) -> Result<(), NoMemory>
    ensures { OnOk result (AddsFields row.old row.new (IsAnswer session number answer.now)) }
{
    match answer {
        Answer::Done { place, reply } => put_done(row, session, number, *place, reply),
        Answer::Refused(refusal) => put_refused(row, session, number, *refusal),
    }
}

// Adds the fields of the answer to a request that was carried out.
fn put_done(
    row: &mut NewRecord,
    session: u32,
    number: u64,
    place: u32,
    reply: &Reply,
) -> Result<(), NoMemory>
    ensures { OnOk result
        (AddsFields row.old row.new (IsAnswer session number (Done place reply.now))) }
{
    row.push_number(u64::from(session))?;
    row.push_number(number)?;
    row.push("done")?;
    row.push_number(u64::from(place))?;
    reply::put(row, reply)
}

// Adds the fields of the answer to a request that was refused.
fn put_refused(
    row: &mut NewRecord,
    session: u32,
    number: u64,
    refusal: Refusal,
) -> Result<(), NoMemory>
    ensures { OnOk result (AddsFields row.old row.new (IsAnswer session number (Refused refusal))) }
{
    row.push_number(u64::from(session))?;
    row.push_number(number)?;
    row.push("refused")?;
    put_refusal(row, refusal)
}

// Adds the fields of a refusal: its code, and for a death the group and the holder's age.
fn put_refusal(row: &mut NewRecord, refusal: Refusal) -> Result<(), NoMemory>
    ensures { OnOk result (row.new ≡ row.old ++ refusal_fields refusal) }
{
    row.push_number(u64::from(refusal.number()))?;
    if let Refusal::Died { group, holder } = refusal {
        row.push_display(&group)?;
        row.push_number(holder)?;
    }
    Ok(())
}
