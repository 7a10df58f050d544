//! Framed messages that are read in each way, and written, of bytes that are known from outside.
//! `tests/calls/flags.py` has messages that are found before other bytes, from C, and `tests/shared/filtering.py` more
//! messages that are written.

use crate::same::same;
use crate::steps::part;
use cap_frame::{FrameFault, Segments, SizeLimit, read_byte_message, read_message, write_message};
use cap_words::{PlainSink, PlainWords, SliceIn, SourceFault, VecOut, WordSource, bytes_of};
use std::alloc::{AllocError, Global};
use std::process::Abort;
use std::test::Fail;

// The plain bytes of words.
fn plain(alloc: Global, words: &[u64]) -> Result<Vec<u8>, AllocError> {
    let mut bytes = Vec::new(alloc);
    for word in words {
        bytes.extend_from_slice(&bytes_of(*word))?;
    }
    Ok(bytes)
}

// The message has these segments.
fn is_message<M: Segments>(message: &M, want: &[&[u64]]) -> bool {
    if message.count() as usize != want.len() {
        return false;
    }
    for s in 0..message.count() {
        let words = want[s as usize];
        if message.len(s) as usize != words.len() {
            return false;
        }
        for w in 0..message.len(s) {
            if message.word(s, w) != words[w as usize] {
                return false;
            }
        }
    }
    true
}

// The segments of a message, none, or a fault.
type Expected<'a> = Result<Option<&'a [&'a [u64]]>, FrameFault>;

// The source gives this message, none, or this fault, where each segment is a vector.
fn expect_vectors<S: WordSource>(
    rt: &impl Abort,
    alloc: Global,
    source: &mut S,
    limit: SizeLimit,
    want: Expected<'_>,
) {
    match (read_message(alloc, source, limit), want) {
        (Ok(Some(message)), Ok(Some(segments))) => {
            assert!(rt; is_message(&message, segments), "in vectors");
        }
        (Ok(None), Ok(None)) => {}
        (Err(fault), Err(expected)) => same(rt, fault, expected),
        _ => assert!(rt; false, "another answer in vectors"),
    }
}

// The same where the message is in one buffer.
fn expect_buffer<S: WordSource>(
    rt: &impl Abort,
    alloc: Global,
    source: &mut S,
    limit: SizeLimit,
    want: Expected<'_>,
) {
    match (read_byte_message(alloc, source, limit), want) {
        (Ok(Some(message)), Ok(Some(segments))) => {
            assert!(rt; is_message(&message.view(), segments), "in a buffer");
        }
        (Ok(None), Ok(None)) => {}
        (Err(fault), Err(expected)) => same(rt, fault, expected),
        _ => assert!(rt; false, "another answer in a buffer"),
    }
}

// A segment of no words between two others, and a word after the message.
const THREE: &[u64] = &[0x1_0000_0002, 0x2_0000_0000, 7, 8, 9, 10];

// Padding that isn't zero, and a far pointer to a pad in the second segment.
const PADDED: &[u64] = &[
    0x1_0000_0001,
    0xefbe_adde_0000_0002,
    0x1_0000_0002,
    0x1_0000_0000,
    42,
];

// Sizes whose sum doesn't fit 32 bits.
const SUM: &[u64] = &[0xffff_ffff_0000_0001, 0xffff_ffff, 3];

const CLOSED: Result<Option<u64>, SourceFault> = Err(SourceFault::Spent);

// Words, how many bytes of them are given, the limit, what they give, and then.
type Case<'a> = (
    &'a [u64],
    usize,
    u64,
    Expected<'a>,
    Result<Option<u64>, SourceFault>,
);

static CASES: [Case<'static>; 13] = [
    (THREE, 48, 3, Ok(Some(&[&[7], &[], &[8, 9]])), Ok(Some(10))),
    (THREE, 40, 3, Ok(Some(&[&[7], &[], &[8, 9]])), Ok(None)),
    (
        THREE,
        48,
        2,
        Err(FrameFault::TooLarge { words: 3 }),
        Ok(Some(7)),
    ),
    (THREE, 0, 3, Ok(None), Ok(None)),
    // The input ends inside the first word, the table or the contents, between words or in one.
    (THREE, 5, 3, Err(FrameFault::Truncated { byte: 5 }), CLOSED),
    (
        THREE,
        8,
        3,
        Err(FrameFault::Truncated { byte: 8 }),
        Ok(None),
    ),
    (
        THREE,
        12,
        3,
        Err(FrameFault::Truncated { byte: 12 }),
        CLOSED,
    ),
    (
        THREE,
        32,
        3,
        Err(FrameFault::Truncated { byte: 32 }),
        Ok(None),
    ),
    (
        THREE,
        39,
        3,
        Err(FrameFault::Truncated { byte: 39 }),
        CLOSED,
    ),
    (
        PADDED,
        40,
        3,
        Ok(Some(&[&[0x1_0000_0002], &[0x1_0000_0000, 42]])),
        Ok(None),
    ),
    // One segment without words.
    (&[0], 8, 0, Ok(Some(&[&[]])), Ok(None)),
    // One segment too many.
    (
        &[512, 3],
        16,
        3,
        Err(FrameFault::TooManySegments { count: 513 }),
        Ok(Some(3)),
    ),
    (
        SUM,
        24,
        268_435_456,
        Err(FrameFault::TooLarge {
            words: 8_589_934_590,
        }),
        Ok(Some(3)),
    ),
];

// Each way to read a message gives the same, and after it the source goes on in the same way. `tests/program/program.py`
// reads messages into a buffer that is used again, and outlines.
fn expect_each_way(
    rt: &impl Abort,
    alloc: Global,
    bytes: &[u8],
    limit: SizeLimit,
    want: Expected<'_>,
    then: Result<Option<u64>, SourceFault>,
) {
    let mut source = PlainWords::new(SliceIn::new(bytes));
    expect_vectors(rt, alloc, &mut source, limit, want);
    same(rt, source.next(), then);
    let mut source = PlainWords::new(SliceIn::new(bytes));
    expect_buffer(rt, alloc, &mut source, limit, want);
    same(rt, source.next(), then);
}

#[test]
fn messages_are_read(rt: HostRuntime) -> Result<(), Fail> {
    for (words, len, limit, want, then) in &CASES {
        let bytes = plain(rt.alloc(), *words)?;
        let limit = SizeLimit::new(*limit).ok_or("a limit")?;
        expect_each_way(&rt, rt.alloc(), part(&bytes, 0, *len), limit, *want, *then);
    }
    Ok(())
}

// A message is written as these bytes.
fn expect_written<M: Segments>(rt: &impl Abort, alloc: Global, message: &M, bytes: &[u8]) {
    let mut sink = PlainSink::new(VecOut::new(alloc));
    same(rt, write_message(&mut sink, message), Ok(()));
    same(rt, sink.into_inner().bytes(), bytes);
}

// The same words but for the padding, which is zero.
const WRITTEN: &[u64] = &[0x1_0000_0001, 2, 0x1_0000_0002, 0x1_0000_0000, 42];

#[test]
fn padding_is_written_as_zeros(rt: HostRuntime) -> Result<(), Fail> {
    let bytes = plain(rt.alloc(), PADDED)?;
    let written = plain(rt.alloc(), WRITTEN)?;
    let limit = SizeLimit::new(3).ok_or("a limit")?;
    let mut source = PlainWords::new(SliceIn::new(&bytes));
    let Ok(Some(message)) = read_message(rt.alloc(), &mut source, limit) else {
        return Err("no message in vectors".into());
    };
    expect_written(&rt, rt.alloc(), &message, &written);
    let mut source = PlainWords::new(SliceIn::new(&bytes));
    let Ok(Some(message)) = read_byte_message(rt.alloc(), &mut source, limit) else {
        return Err("no message in a buffer".into());
    };
    expect_written(&rt, rt.alloc(), &message.view(), &written);
    Ok(())
}
