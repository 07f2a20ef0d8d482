//! Writing a picture.
ghost use Rattle.std.specs.Prelude.{◌≡◌, ◌≤◌, List, IfErr, IfSome, OnErr, OnOk};
ghost use Rattle.std.specs.Io.KnownBytes.{Appends};
ghost use Rattle.files.specs.Failure.{IsOfWriting};
ghost use Rattle.files.specs.Sending.{Begins};
ghost use Rattle.picture.specs.declared.asides.Aside.{Aside as AnyAside};
ghost use Rattle.picture.specs.Drawing.{OfTexts, drawing_text};

use crate::asides::Aside;
use crate::course::put_course;
use crate::lanes::{Lanes, height, lanes_of, rows_end};
use crate::phrase::{Heading, Phrase};
use crate::row::rows_of;
use crate::row_marks::marks_of;
use crate::sheet::{Ground, Legend, Sheet};
use crate::slices::Slices;
use commit_log::Entry;
use files::{FileError, send};
use history::{Output, Scheduled};
use schema::{NoMemory, Scale};
use std::alloc::Global;
use std::fmt::Display;
use std::io::Write;

/// Writes the picture of a schedule and its outputs, as SVG, to the sink. `log` has the entries at the places in the outputs.
/// The warehouses of the scale are dealt out to `executors` executors.
///
/// Returns NoMemory if an allocation fails, and Failed(1) if the sink fails. After an error the sink has got a beginning of the
/// picture.
pub fn write_picture<W: Write>(
    alloc: Global,
    sink: &mut W,
    schedule: &[Scheduled],
    outputs: &[Output],
    log: &[Entry],
    scale: &Scale,
    executors: u32,
) -> Result<(), FileError>
    requires { 1 ≤ executors }
    ensures written { OnOk result
        ((asides : List AnyAside) × Appends (W.contents sink.old) (W.contents sink.new)
        (drawing_text executors schedule.now outputs.now log.now asides)) }
    ensures begun { OnErr result
        ((asides : List AnyAside) × Begins (W.contents sink.old) (W.contents sink.new)
        (drawing_text executors schedule.now outputs.now log.now asides)) }
    ensures failed { IfErr result IsOfWriting }
{
    let rows = rows_of(alloc, schedule, outputs, log)?;
    let lanes = lanes_of(alloc, schedule, executors)?;
    let heads = heads_of(alloc, &lanes, rows.len())?;
    let asides = match Slices::open(alloc, scale, executors)? {
        Some(slices) => put_course(alloc, heads, &lanes, slices, schedule, rows.as_slice())?,
        None => heads,
    };
    let marks = marks_of(alloc, &lanes, rows.as_slice())?;
    let width = lanes.width();
    let height = height(rows.len());
    let bottom = rows_end(rows.len());
    let mut line = String::new(alloc);
    draw(sink, &mut line, &Sheet { width, height })?;
    draw(sink, &mut line, &ground(false, 0, width, height))?;
    draw(sink, &mut line, &ground(true, 74, width, bottom))?;
    draw_all(sink, &mut line, asides.as_slice())?;
    draw_all(sink, &mut line, marks.as_slice())?;
    draw(sink, &mut line, &Legend { top: bottom + 24 })
}

fn ground(striped: bool, top: u128, width: u128, bottom: u128) -> Ground
    ensures { result ≡ record { striped = striped; top = top; width = width; bottom = bottom } }
{
    Ground {
        striped,
        top,
        width,
        bottom,
    }
}

// Writes the texts of signs, one after the other.
fn draw_all<W: Write, D: Display>(
    sink: &mut W,
    line: &mut String,
    signs: &[D],
) -> Result<(), FileError>
    ensures written { OnOk result
        (OfTexts D.output signs.now (Appends (W.contents sink.old) (W.contents sink.new))) }
    ensures begun { OnErr result
        (OfTexts D.output signs.now (Begins (W.contents sink.old) (W.contents sink.new))) }
    ensures failed { IfErr result IsOfWriting }
{
    for sign in signs {
        draw(sink, line, sign)?;
    }
    Ok(())
}

// Writes the text of a sign.
fn draw<W: Write, D: Display>(sink: &mut W, line: &mut String, sign: &D) -> Result<(), FileError>
    ensures written { OnOk result
        (IfSome (D.output sign.now) (Appends (W.contents sink.old) (W.contents sink.new))) }
    ensures begun { OnErr result
        (IfSome (D.output sign.now) (Begins (W.contents sink.old) (W.contents sink.new))) }
    ensures failed { IfErr result IsOfWriting }
{
    line.clear();
    if write!(line, "{sign}").is_err() {
        return Err(FileError::NoMemory);
    }
    match send(sink, line.as_bytes()) {
        Ok(()) => Ok(()),
        Err(_) => Err(FileError::Failed(1)),
    }
}

// The heads and the lines of the lanes, through this many rows.
fn heads_of(alloc: Global, lanes: &Lanes, rows: usize) -> Result<Vec<Aside>, NoMemory> {
    let mut heads = Vec::new(alloc);
    for (x, heading) in [
        (24, Heading::Event),
        (88, Heading::Scheduled),
        (lanes.log(), Heading::Log),
        (lanes.named() + 46, Heading::TakenOrSent),
        (lanes.reported() + 14, Heading::RowAnswer),
    ] {
        put_head(&mut heads, x, 62, heading)?;
    }
    for session in lanes.sessions.iter() {
        let x = lanes.session(*session);
        put_head(&mut heads, x, 46, Heading::Session)?;
        put_count(&mut heads, x, 62, u64::from(*session))?;
        put_line(&mut heads, false, x, rows)?;
    }
    for executor in 0..lanes.executors {
        let x = lanes.takes(executor);
        put_head(&mut heads, x, 30, Heading::Executor)?;
        put_count(&mut heads, x, 46, u64::from(executor))?;
        put_head(
            &mut heads,
            lanes.executor(executor) + 32,
            62,
            Heading::Claims,
        )?;
        put_head(&mut heads, x, 62, Heading::Takes)?;
        put_line(&mut heads, false, x, rows)?;
        put_head(&mut heads, lanes.sends(executor), 62, Heading::Sends)?;
        put_line(&mut heads, true, lanes.sends(executor), rows)?;
    }
    put_line(&mut heads, false, lanes.log(), rows)?;
    Ok(heads)
}

fn put_head(heads: &mut Vec<Aside>, x: u128, y: u128, heading: Heading) -> Result<(), NoMemory> {
    let phrase = Phrase::Heading(heading);
    heads.push(Aside::Head { x, y, phrase })?;
    Ok(())
}

fn put_count(heads: &mut Vec<Aside>, x: u128, y: u128, count: u64) -> Result<(), NoMemory> {
    let phrase = Phrase::Number(count);
    heads.push(Aside::Head { x, y, phrase })?;
    Ok(())
}

fn put_line(heads: &mut Vec<Aside>, sends: bool, x: u128, rows: usize) -> Result<(), NoMemory> {
    heads.push(Aside::Lane { sends, x, rows })?;
    Ok(())
}
