use super::*;
use std::io;
use std::io::Read;
use terminals::{FileError, Reader, read_script};

// Gives its text, then an error.
#[derive(Drop)]
struct Failing<'a> {
    text: &'a [u8],
}

impl<'a> Read for Failing<'a> {
    fn read(&mut self, buf: &mut [u8]) -> io::Result<usize> {
        match (self.text.split_first(), buf.first_mut()) {
            (Some((byte, rest)), Some(place)) => {
                *place = *byte;
                self.text = rest;
                Ok(1)
            }
            _ => Err(io::Error::from(io::ErrorKind::BrokenPipe)),
        }
    }
}

// Fault 10 is found at the record that is being read, and also behind the end record.
#[test]
fn a_source_that_fails_is_a_fault(rt: HostRuntime) {
    for (text, record) in [("L,1", 1), ("L,1,1,10\nEN", 2), ("END,0\n", 2)] {
        let source = Failing {
            text: text.as_bytes(),
        };
        let found = read_script(rt.alloc(), Reader { source }).err();
        assert_eq!(rt; found, Some(FileError::Failed(record)));
    }
}

// A text in memory is read to its end.
#[test]
fn a_text_in_memory_is_read(rt: HostRuntime) {
    let text: &[u8] = "L,1,1,10\nEND,1\n".as_bytes();
    let found = read_script(rt.alloc(), text);
    assert!(rt; found.is_ok());
}
