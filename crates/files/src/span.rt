ghost use Rattle.std.specs.Prelude.{◌≡◌};
ghost use Rattle.files.specs.Span.{part};

/// A field, as a range of the bytes of its record: from `from` up to `to`, exclusive.
#[derive(Clone, Copy, Debug, PartialEq, Eq)]
pub struct Span {
    pub from: usize,
    pub to: usize,
}

/// The bytes of the field. A span that extends past the last byte is cut there.
pub fn part(bytes: &[u8], span: Span) -> &[u8]
    ensures { result.now ≡ part bytes.now span }
{
    let to = span.to.min(bytes.len());
    let from = span.from.min(to);
    &bytes[from..to]
}
