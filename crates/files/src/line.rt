ghost use Rattle.std.specs.Prelude.{◌≤◌, IfOk, OnOk};
ghost use Rattle.files.specs.Line.{BeginsRecord, IsCut, IsMark};
ghost use Rattle.files.specs.Span.{AddsSpan};

use crate::marks::Marks;
use crate::span::Span;
use std::alloc::AllocError;

/// How far a line extends.
#[derive(Clone, Copy, Debug, PartialEq, Eq)]
pub enum Line {
    /// The line, including its line end, has this many bytes.
    Ends(usize),
    /// The line contains a quotation mark.
    Quoted,
    /// The bytes do not contain the end of the line. Its last field so far begins at this index.
    Open(usize),
}

/// Finds the fields of the line at the front of the bytes, by its commas, up to its end or a quotation
/// mark. Returns `AllocError` if an allocation fails.
#[inline(always)]
pub fn cut_line(bytes: &[u8], spans: &mut Vec<Span>) -> Result<Line, AllocError>
    requires { BeginsRecord bytes.now }
    ensures { IfOk result (λ line. IsCut bytes.now spans.new.items line) }
{
    spans.clear();
    let mut from = 0;
    let mut at = 0;
    let mut marks = Marks::new();
    while let Some(to) = marks.next(bytes, at) {
        match mark_of(bytes[to]) {
            Mark::Plain => {}
            Mark::Comma => {
                add(spans, from, to)?;
                from = to + 1;
            }
            Mark::LineEnd => {
                add(spans, from, to)?;
                return Ok(Line::Ends(to + 1));
            }
            Mark::Quote => return Ok(Line::Quoted),
        }
        at = to + 1;
    }
    Ok(Line::Open(from))
}

// The kind of a byte of a line.
enum Mark {
    Plain,
    Comma,
    LineEnd,
    Quote,
}

// Most marks are commas. The first test finds them, since no mark is greater than a comma.
fn mark_of(byte: u8) -> Mark
    requires { byte ≤ 44 }
    ensures { IsMark byte result }
{
    if byte >= b',' {
        return Mark::Comma;
    }
    match byte {
        b'\n' | b'\r' => Mark::LineEnd,
        b'"' => Mark::Quote,
        _ => Mark::Plain,
    }
}

/// Appends the field with the bytes from `from` up to `to`, exclusive.
pub fn add(spans: &mut Vec<Span>, from: usize, to: usize) -> Result<(), AllocError>
    ensures { OnOk result (AddsSpan spans.old.items spans.new.items from to) }
{
    match spans.push(Span { from, to }) {
        Ok(()) => Ok(()),
        Err(_) => Err(AllocError),
    }
}
