//! Calls of ends, sources and sinks, each with the expected answer.
//!
//! A test is a table of them: one function makes all calls of a trait, and is proved once. Bytes are
//! given by their place in a text and their count.

use crate::same::same_of;
use cap_words::{
    ByteIn, ByteOut, InFault, OutFault, SinkFault, SourceFault, WordSink, WordSource, fill,
};
use std::process::Abort;

// A call of an input of bytes.
pub(crate) enum Reads {
    // It holds these bytes.
    Held(usize, usize),
    Skip(usize),
    // A read into a buffer of this length.
    Read(usize, Result<usize, InFault>),
    // The buffer's length, how many bytes are filled in, and a fault or none.
    Fill(usize, usize, Option<InFault>),
    // From this place of the buffer on are these bytes.
    Gave(usize, usize, usize),
}

// A call of a source of words.
pub(crate) enum Takes {
    Next(Result<Option<u64>, SourceFault>),
    Position(u64),
    Buffered(bool),
    // The buffer's length, and the bytes that are given.
    Ready(usize, usize, usize),
}

// A call of a sink of words.
pub(crate) enum Puts {
    Word(u64, Result<(), SinkFault>),
    Bytes(usize, usize, Result<(), SinkFault>),
    Finish(Result<(), SinkFault>),
}

// A call of an output of bytes.
pub(crate) enum Writes {
    Write(usize, usize, Result<usize, OutFault>),
    Flush(Result<(), OutFault>),
}

// The first bytes of a buffer, or all of it.
pub(crate) fn front(buffer: &mut [u8], most: usize) -> &mut [u8] {
    let len = most.min(buffer.len());
    &mut buffer[..len]
}

// At most `most` bytes, from the byte `from` on.
pub(crate) fn part(bytes: &[u8], from: usize, most: usize) -> &[u8] {
    let rest = &bytes[from.min(bytes.len())..];
    &rest[..most.min(rest.len())]
}

pub(crate) fn read_by<I: ByteIn>(
    rt: &impl Abort,
    input: &mut I,
    text: &[u8],
    buffer: &mut [u8],
    steps: &[Reads],
) {
    for (at, step) in steps.iter().enumerate() {
        match step {
            Reads::Held(from, len) => same_of(rt, &at, input.held(), part(text, *from, *len)),
            Reads::Skip(count) => input.skip(*count),
            Reads::Read(size, expected) => {
                same_of(rt, &at, input.read(front(buffer, *size)), *expected);
            }
            Reads::Fill(size, len, fault) => {
                let filled = fill(input, front(buffer, *size));
                same_of(rt, &at, filled.len, *len);
                same_of(rt, &at, filled.fault, *fault);
            }
            Reads::Gave(place, from, len) => {
                same_of(rt, &at, part(buffer, *place, *len), part(text, *from, *len));
            }
        }
    }
}

pub(crate) fn take_by<S: WordSource>(
    rt: &impl Abort,
    source: &mut S,
    text: &[u8],
    buffer: &mut [u8],
    steps: &[Takes],
) {
    for (at, step) in steps.iter().enumerate() {
        match step {
            Takes::Next(expected) => same_of(rt, &at, source.next(), *expected),
            Takes::Position(expected) => same_of(rt, &at, source.position(), *expected),
            Takes::Buffered(expected) => same_of(rt, &at, source.is_buffered(), *expected),
            Takes::Ready(size, from, len) => {
                same_of(rt, &at, source.ready(front(buffer, *size)), *len);
                same_of(rt, &at, part(buffer, 0, *len), part(text, *from, *len));
            }
        }
    }
}

pub(crate) fn put_by<K: WordSink>(rt: &impl Abort, sink: &mut K, text: &[u8], steps: &[Puts]) {
    for (at, step) in steps.iter().enumerate() {
        match step {
            Puts::Word(word, expected) => same_of(rt, &at, sink.put(*word), *expected),
            Puts::Bytes(from, len, expected) => {
                same_of(rt, &at, sink.put_bytes(part(text, *from, *len)), *expected);
            }
            Puts::Finish(expected) => same_of(rt, &at, sink.finish(), *expected),
        }
    }
}

pub(crate) fn write_by<O: ByteOut>(rt: &impl Abort, output: &mut O, text: &[u8], steps: &[Writes]) {
    for (at, step) in steps.iter().enumerate() {
        match step {
            Writes::Write(from, len, expected) => {
                same_of(rt, &at, output.write(part(text, *from, *len)), *expected);
            }
            Writes::Flush(expected) => same_of(rt, &at, output.flush(), *expected),
        }
    }
}
