use crate::usage::UsageFault;
use std::alloc::{AllocError, Global};
use std::env;
use std::env::{Env, FillError};
use std::io::ErrorKind;

// The most bytes of a word that is shown because it is not UTF-8.
const MOST_SHOWN: usize = 4096;

/// Returns the words of the command line, of which the first is the program's name. An error is a word that is not UTF-8
/// (`NotText` or `LongNotText`), or out of memory.
pub fn words_of<R: Env + AllocGlobal>(rt: &R) -> Result<Vec<String>, UsageFault> {
    match env::args(rt) {
        Ok(words) => Ok(words.collect::<Vec<String>>(rt.alloc())?),
        Err(error) if error.kind() == ErrorKind::OutOfMemory => Err(UsageFault::from(AllocError)),
        Err(_) => Err(first_that_is_no_text(rt)?),
    }
}

// The mistake of the first word that is not UTF-8 and short enough to be shown, or else `LongNotText`.
fn first_that_is_no_text<R: Env + AllocGlobal>(rt: &R) -> Result<UsageFault, AllocError> {
    let mut room = [0u8; MOST_SHOWN];
    for place in 0..usize::MAX {
        match rt.arg(place, &mut room) {
            Ok(length) => {
                let bytes = &room[..length];
                if str::from_utf8(bytes).is_err() {
                    let shown = shown(rt.alloc(), bytes)?;
                    return Ok(UsageFault::NotText { place, shown });
                }
            }
            Err(FillError::TooLong) => {}
            Err(FillError::NotPresent) => break,
        }
    }
    Ok(UsageFault::LongNotText)
}

// The bytes as a text: a byte that is not printable ASCII is shown by its number, as `\xff`.
fn shown(alloc: Global, bytes: &[u8]) -> Result<String, AllocError> {
    let mut text = String::new(alloc);
    for byte in bytes {
        if (32..127).contains(byte) {
            text.push(char::from(*byte))?;
        } else {
            write!(text, "\\x{byte:02x}")?;
        }
    }
    Ok(text)
}
