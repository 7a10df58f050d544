//! Readers and writers that give and take few bytes a call, and that fail.

use std::alloc::Global;
use std::io::{self, ErrorKind, Read, Write};

/// In which of its calls a device fails, counted from 1, and how. A writer without a kind of error
/// takes no bytes in that call.
#[derive(Clone, Copy)]
pub struct Fault {
    pub at: u32,
    pub kind: Option<ErrorKind>,
}

/// No call of a device fails.
pub const HONEST: Fault = Fault { at: 0, kind: None };

/// How many bytes a device gives or takes a call.
pub const PIECES: [usize; 4] = [1, 2, 3, 7];

/// How a read fails. An interruption is an error as any other.
pub const READ_FAULTS: [ErrorKind; 2] = [ErrorKind::Interrupted, ErrorKind::Other];

/// How a write fails, as in [`Fault`].
pub const WRITE_FAULTS: [Option<ErrorKind>; 3] = [
    Some(ErrorKind::Interrupted),
    Some(ErrorKind::Other),
    None,
];

/// A reader that gives at most `most` bytes a call, and counts its calls. One that breaks off fails
/// after its last byte, in place of an end.
#[derive(Drop)]
pub struct Reader<'a> {
    pub rest: &'a [u8],
    pub most: usize,
    pub fault: Fault,
    pub breaks_off: bool,
    pub calls: u32,
}

impl<'a> Reader<'a> {
    /// One over these bytes, with this fault.
    pub fn new(rest: &'a [u8], most: usize, fault: Fault) -> Reader<'a> {
        Reader {
            rest,
            most,
            fault,
            breaks_off: false,
            calls: 0,
        }
    }

    /// One that never fails.
    pub fn honest(rest: &'a [u8], most: usize) -> Reader<'a> {
        Reader::new(rest, most, HONEST)
    }

    /// One that gives these bytes and fails then.
    pub fn broken(rest: &'a [u8]) -> Reader<'a> {
        Reader {
            rest,
            most: usize::MAX,
            fault: HONEST,
            breaks_off: true,
            calls: 0,
        }
    }
}

impl Read for Reader<'_> {
    fn read(&mut self, buf: &mut [u8]) -> io::Result<usize> {
        self.calls = self.calls.saturating_add(1);
        if self.calls == self.fault.at {
            let kind = self.fault.kind.unwrap_or(ErrorKind::Other);
            return Err(io::Error::from(kind));
        }
        if self.breaks_off && self.rest.is_empty() {
            return Err(io::Error::from(ErrorKind::Other));
        }
        let count = buf.len().min(self.rest.len()).min(self.most);
        let (given, rest) = self.rest.split_at(count);
        buf[..count].copy_from_slice(given);
        self.rest = rest;
        Ok(count)
    }
}

/// A writer that takes at most `most` bytes a call, and counts its calls, flushes among them. It
/// also fails once it has taken `buffer` bytes.
#[derive(Drop)]
pub struct Writer {
    pub taken: Vec<u8>,
    pub most: usize,
    pub capacity: usize,
    pub fault: Fault,
    pub calls: u32,
}

impl Writer {
    /// One without a bound on all that it takes, with this fault.
    pub fn new(alloc: Global, most: usize, fault: Fault) -> Writer {
        Writer {
            taken: Vec::new(alloc),
            most,
            capacity: usize::MAX,
            fault,
            calls: 0,
        }
    }

    /// One that takes `buffer` bytes and then fails: by an error where `reports`, and else by taking none.
    pub fn full(alloc: Global, capacity: usize, reports: bool) -> Writer {
        let kind = if reports {
            Some(ErrorKind::Other)
        } else {
            None
        };
        Writer {
            taken: Vec::new(alloc),
            most: usize::MAX,
            capacity,
            fault: Fault { at: 0, kind },
            calls: 0,
        }
    }
}

impl Write for Writer {
    fn write(&mut self, buf: &[u8]) -> io::Result<usize> {
        self.calls = self.calls.saturating_add(1);
        if self.calls == self.fault.at || self.capacity == 0 {
            return match self.fault.kind {
                Some(kind) => Err(io::Error::from(kind)),
                None => Ok(0),
            };
        }
        let count = buf.len().min(self.most).min(self.capacity);
        self.taken.extend_from_slice(&buf[..count])?;
        self.capacity = self.capacity.saturating_sub(count);
        Ok(count)
    }

    fn flush(&mut self) -> io::Result<()> {
        self.calls = self.calls.saturating_add(1);
        if self.calls == self.fault.at {
            let kind = self.fault.kind.unwrap_or(ErrorKind::Other);
            return Err(io::Error::from(kind));
        }
        Ok(())
    }
}
