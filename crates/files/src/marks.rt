//! Finds the bytes of a line that may be something other than part of a field.
ghost use Rattle.std.specs.Prelude.{◌≡◌, ◌+◌, ◌≤◌, ℕ, List, length, IfSome};
ghost use Rattle.files.specs.Marks.{FindsMark, Reports};

use std::simd::prelude::*;

// The number of bytes that are compared at once.
const LANES: usize = 32;

/// The marks among bytes, in order. A mark is a byte that is at most a comma; commas, quotation marks
/// and line ends are marks.
#[derive(Drop)]
pub struct Marks {
    // One bit for each byte up to `end`, the lowest for the next byte: 1 if it is a mark.
    mask: u64,
    end: usize,
}

impl Marks {
    /// The marks of any bytes, before the first one.
    pub fn new() -> Marks
        ensures { (bytes : List ℕ) → Reports bytes 0 result }
    {
        Marks { mask: 0, end: 0 }
    }

    /// The index of the next mark from `at` on, or `None` if there is none. `at` is 0 in the first
    /// call, and then the index after the previous mark.
    pub fn next(&mut self, bytes: &[u8], at: usize) -> Option<usize>
        requires { Reports bytes.now at self.old }
        ensures next { FindsMark bytes.now at result }
        ensures reports { IfSome result (λ place. Reports bytes.now (place + 1) self.new) }
    {
        let mut place = at;
        while self.mask == 0 {
            place = self.end;
            if bytes.len() - place < LANES {
                place = next_of_few(bytes, place)?;
                self.end = place + 1;
                return Some(place);
            }
            *self = Marks::of_lanes(bytes, place);
        }
        let skipped = self.mask.trailing_zeros() as usize;
        self.mask >>= skipped + 1;
        Some(place + skipped)
    }

    // The marks of the next `LANES` bytes from `at` on.
    fn of_lanes(bytes: &[u8], at: usize) -> Marks
        requires { at + 32 ≤ length bytes.now }
        ensures reports { Reports bytes.now at result }
        ensures end { result.end ≡ at + 32 }
    {
        let mask = u8x32::from_slice(&bytes[at..])
            .simd_le(u8x32::splat(b','))
            .to_bitmask();
        Marks {
            mask,
            end: at + LANES,
        }
    }
}

// The index of the next mark from `at` on, byte by byte. It is called for the few last bytes. It is a
// separate function, which keeps the loops above short.
#[cold]
#[inline(never)]
fn next_of_few(bytes: &[u8], at: usize) -> Option<usize>
    ensures { FindsMark bytes.now at result }
{
    for place in at..bytes.len() {
        if bytes[place] <= b',' {
            return Some(place);
        }
    }
    None
}
