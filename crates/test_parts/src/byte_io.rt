//! Ends of bytes and of words: that calls succeed, and answer what is known from outside.

use crate::same::{same, same_of};
use crate::steps::{Puts, Reads, Takes, Writes, part, put_by, read_by, take_by, write_by};
use cap_words::{
    BufferedIn, ByteOut, FromRead, InFault, PlainSink, PlainWords, SinkFault, SliceIn, SourceFault,
    VecOut, bits, bytes_of, signed_offset, word_of, write_all,
};
use std::alloc::Global;
use std::io::ErrorKind;
use std::process::Abort;
use std::test::Fail;
use test_support::{Fault, Reader};

// Two words, and half of one more.
const TEXT: [u8; 20] = [
    1, 0, 0, 0, 0, 0, 0, 0, 8, 7, 6, 5, 4, 3, 2, 1, 0, 0, 0, 0xff,
];

const FIRST: u64 = 1;

const SECOND: u64 = 0x0102_0304_0506_0708;

// Words, and the offsets that they encode.
static OFFSETS: [(u64, i64); 5] = [
    (0x0001_0002_0000_0000, 0),
    (0xffff_ffff_ffff_fffc, -1),
    (0x0000_0000_7fff_ffff, 536_870_911),
    (0x0000_0000_8000_0003, -536_870_912),
    (0x0000_0000_0000_0004, 1),
];

#[test]
fn fields_and_bytes_of_words(rt: HostRuntime) {
    let word = 0x8123_4567_89ab_cdef;
    let fields = [
        bits(word, 0, 64),
        bits(word, 64, 0),
        bits(word, 0, 0),
        bits(word, 4, 8),
        bits(word, 60, 4),
        bits(word, 63, 1),
        bits(word, 1, 63),
    ];
    let expected = [
        0x8123_4567_89ab_cdef,
        0,
        0,
        0xde,
        8,
        1,
        0x4091_a2b3_c4d5_e6f7,
    ];
    same(&rt, fields, expected);
    for (word, want) in &OFFSETS {
        same_of(&rt, word, signed_offset(*word), *want);
    }
    same(&rt, word_of(&[8, 7, 6, 5, 4, 3, 2, 1]), SECOND);
    same(&rt, bytes_of(SECOND), [8, 7, 6, 5, 4, 3, 2, 1]);
}

// The length of a slice of the text, and calls of a source of its words.
static SLICES: [(usize, &[Takes]); 6] = [
    (
        16,
        &[
            Takes::Next(Ok(Some(FIRST))),
            Takes::Next(Ok(Some(SECOND))),
            Takes::Next(Ok(None)),
            Takes::Position(16),
            Takes::Next(Ok(None)),
            Takes::Next(Ok(None)),
            Takes::Position(16),
        ],
    ),
    (
        20,
        &[
            Takes::Next(Ok(Some(FIRST))),
            Takes::Next(Ok(Some(SECOND))),
            Takes::Next(Err(SourceFault::Truncated { byte: 20 })),
            Takes::Position(20),
            Takes::Next(Err(SourceFault::Spent)),
            Takes::Next(Err(SourceFault::Spent)),
            Takes::Position(20),
        ],
    ),
    // Buffered words are given as far as the buffer allows, and counted.
    (
        20,
        &[
            Takes::Ready(0, 0, 0),
            Takes::Ready(7, 0, 0),
            Takes::Ready(32, 0, 16),
            Takes::Ready(32, 0, 0),
            Takes::Position(16),
            Takes::Next(Err(SourceFault::Truncated { byte: 20 })),
            Takes::Ready(32, 0, 0),
        ],
    ),
    (
        16,
        &[
            Takes::Ready(15, 0, 8),
            Takes::Ready(8, 8, 8),
            Takes::Ready(32, 0, 0),
            Takes::Next(Ok(None)),
            Takes::Ready(32, 0, 0),
        ],
    ),
    // Bytes are buffered, last those of a part of a word.
    (
        20,
        &[
            Takes::Buffered(true),
            Takes::Next(Ok(Some(FIRST))),
            Takes::Buffered(true),
            Takes::Next(Ok(Some(SECOND))),
            Takes::Buffered(true),
            Takes::Next(Err(SourceFault::Truncated { byte: 20 })),
            Takes::Buffered(false),
        ],
    ),
    (0, &[Takes::Buffered(false)]),
];

#[test]
fn words_of_a_slice(rt: HostRuntime) {
    let mut buffer = [9; 32];
    for (len, steps) in &SLICES {
        let mut source = PlainWords::new(SliceIn::new(part(&TEXT, 0, *len)));
        take_by(&rt, &mut source, &TEXT, &mut buffer, *steps);
    }
    // no bytes of a reader are buffered
    let mut source = PlainWords::new(FromRead::new(TEXT.as_slice()));
    take_by(&rt, &mut source, &TEXT, &mut [], &[Takes::Buffered(false)]);
}

// How many bytes a call of the reader gives at most, which call fails, how many there are, and calls of
// a source that reads through a buffer.
static BUFFERED: [(usize, u32, u32, &[Takes]); 2] = [
    (
        17,
        0,
        1,
        &[
            // nothing was read ahead yet, and no device is called for it
            Takes::Ready(32, 0, 0),
            Takes::Next(Ok(Some(FIRST))),
            Takes::Ready(24, 8, 8),
            Takes::Ready(24, 0, 0),
            Takes::Position(16),
        ],
    ),
    (
        16,
        2,
        2,
        &[
            Takes::Buffered(false),
            Takes::Next(Ok(Some(FIRST))),
            Takes::Buffered(true),
            Takes::Next(Ok(Some(SECOND))),
            Takes::Buffered(false),
            Takes::Next(Err(SourceFault::Device)),
            Takes::Buffered(false),
        ],
    ),
];

#[test]
fn words_buffered_of_a_buffer(rt: HostRuntime) -> Result<(), Fail> {
    let mut buffer = [9; 32];
    for (most, fails_at, calls, steps) in &BUFFERED {
        let fault = Fault {
            at: *fails_at,
            kind: Some(ErrorKind::Other),
        };
        let mut reader = Reader::new(&TEXT, *most, fault);
        let mut source = PlainWords::new(BufferedIn::new(rt.alloc(), &mut reader)?);
        take_by(&rt, &mut source, &TEXT, &mut buffer, *steps);
        drop(source);
        same_of(&rt, most, reader.calls, *calls);
    }
    Ok(())
}

// Bytes that are buffered, up to the end.
static HELD: [Reads; 8] = [
    Reads::Held(0, 20),
    Reads::Skip(0),
    Reads::Held(0, 20),
    Reads::Skip(2),
    Reads::Held(2, 18),
    Reads::Skip(usize::MAX),
    Reads::Held(0, 0),
    Reads::Read(1, Ok(0)),
];

static ALL: [Reads; 3] = [
    Reads::Fill(24, 20, None),
    Reads::Gave(0, 0, 20),
    Reads::Read(24, Ok(0)),
];

// None are, before the first read: there is nothing to skip.
static NONE_HELD: [Reads; 7] = [
    Reads::Held(0, 0),
    Reads::Skip(0),
    Reads::Held(0, 0),
    Reads::Skip(2),
    Reads::Held(0, 0),
    Reads::Skip(usize::MAX),
    Reads::Held(0, 0),
];

static HELD_BY_A_BUFFER: [Reads; 13] = [
    Reads::Read(3, Ok(3)),
    Reads::Held(3, 17),
    Reads::Skip(9),
    Reads::Read(3, Ok(3)),
    Reads::Gave(0, 12, 3),
    Reads::Held(15, 5),
    Reads::Skip(0),
    Reads::Held(15, 5),
    Reads::Skip(2),
    Reads::Held(17, 3),
    Reads::Skip(usize::MAX),
    Reads::Held(0, 0),
    Reads::Read(3, Ok(0)),
];

#[test]
fn bytes_buffered(rt: HostRuntime) -> Result<(), Fail> {
    let mut buffer = [9; 24];
    let mut slice = SliceIn::new(&TEXT);
    read_by(&rt, &mut slice, &TEXT, &mut buffer, &HELD);
    let mut whole = PlainWords::new(SliceIn::new(&TEXT)).into_inner();
    read_by(&rt, &mut whole, &TEXT, &mut buffer, &ALL);
    let mut input = BufferedIn::new(rt.alloc(), TEXT.as_slice())?;
    read_by(&rt, &mut input, &TEXT, &mut buffer, &NONE_HELD);
    read_by(&rt, &mut input, &TEXT, &mut buffer, &HELD_BY_A_BUFFER);
    let mut reader = FromRead::new(TEXT.as_slice());
    read_by(&rt, &mut reader, &TEXT, &mut buffer, &NONE_HELD);
    read_by(
        &rt,
        &mut reader,
        &TEXT,
        &mut buffer,
        &[Reads::Read(3, Ok(3))],
    );
    read_by(&rt, &mut reader, &TEXT, &mut buffer, &NONE_HELD);
    Ok(())
}

// After 65,530 bytes: from both sides of a refill.
static REFILLS: [Reads; 5] = [
    Reads::Fill(65529, 65529, None),
    Reads::Gave(0, 0, 65529),
    Reads::Fill(24, 21, None),
    Reads::Gave(0, 65529, 21),
    Reads::Read(24, Ok(0)),
];

// After 200,000 bytes.
static BIG_READS: [Reads; 11] = [
    // more than the buffer holds, in one call
    Reads::Read(65537, Ok(65537)),
    Reads::Held(0, 0),
    // one byte less than it holds: that byte stays, and is all that the next read gives
    Reads::Read(65535, Ok(65535)),
    Reads::Held(0, 1),
    Reads::Read(100_000, Ok(1)),
    Reads::Read(65536, Ok(65536)),
    Reads::Read(65536, Ok(3411)),
    Reads::Gave(3391, 200_000, 20),
    Reads::Read(65536, Err(InFault::Device)),
    Reads::Read(65536, Err(InFault::Spent)),
    Reads::Read(1, Err(InFault::Spent)),
];

// `len` bytes and then the text are read through a buffer. Where `fails_at` isn't 0, the call of that
// number fails, and is the last.
fn expect_reads<R: AllocGlobal + Abort>(
    rt: &R,
    len: usize,
    fails_at: u32,
    steps: &[Reads],
) -> Result<(), Fail> {
    let mut bytes = Vec::from_elem(rt.alloc(), 7, len)?;
    bytes.extend_from_slice(&TEXT)?;
    let mut buffer = Vec::from_elem(rt.alloc(), 0, 100_000)?;
    let fault = Fault {
        at: fails_at,
        kind: Some(ErrorKind::Interrupted),
    };
    let mut reader = Reader::new(&bytes, usize::MAX, fault);
    let mut input = BufferedIn::new(rt.alloc(), &mut reader)?;
    read_by(rt, &mut input, &bytes, &mut buffer, steps);
    drop(input);
    if fails_at > 0 {
        same(rt, reader.calls, fails_at);
    }
    Ok(())
}

#[test]
fn big_reads_go_past_the_buffer(rt: HostRuntime) -> Result<(), Fail> {
    expect_reads(&rt, 65530, 0, &REFILLS)?;
    expect_reads(&rt, 200_000, 5, &BIG_READS)
}

const CLOSED: Result<(), SinkFault> = Err(SinkFault::Spent);

const BOTH_PUT: &[Puts] = &[
    Puts::Word(FIRST, Ok(())),
    Puts::Word(SECOND, Ok(())),
    Puts::Finish(Ok(())),
    Puts::Word(0, CLOSED),
    Puts::Finish(CLOSED),
];

static FLUSHED: [Writes; 2] = [Writes::Write(0, 20, Ok(20)), Writes::Flush(Ok(()))];

// Less than a word at the end of a piece is left out.
static PIECES: [Puts; 12] = [
    Puts::Bytes(0, 20, Ok(())),
    Puts::Bytes(0, 7, Ok(())),
    Puts::Bytes(0, 0, Ok(())),
    Puts::Word(FIRST, Ok(())),
    Puts::Bytes(0, 8, Ok(())),
    Puts::Bytes(0, 7, Ok(())),
    Puts::Bytes(0, 0, Ok(())),
    Puts::Finish(Ok(())),
    Puts::Bytes(0, 20, CLOSED),
    Puts::Bytes(0, 8, CLOSED),
    Puts::Bytes(0, 7, CLOSED),
    Puts::Bytes(0, 0, CLOSED),
];

// What they leave.
static PIECES_TAKEN: [u8; 32] = [
    1, 0, 0, 0, 0, 0, 0, 0, 8, 7, 6, 5, 4, 3, 2, 1, 1, 0, 0, 0, 0, 0, 0, 0, 1, 0, 0, 0, 0, 0, 0, 0,
];

// The calls of a sink into memory leave these bytes; the output takes more.
fn memory_of(rt: &impl Abort, alloc: Global, steps: &[Puts], taken: &[u8]) -> VecOut {
    let mut sink = PlainSink::new(VecOut::new(alloc));
    put_by(rt, &mut sink, &TEXT, steps);
    let output = sink.into_inner();
    same(rt, output.bytes(), taken);
    output
}

static LAST_FOUR: [Writes; 2] = [Writes::Write(16, 4, Ok(4)), Writes::Write(0, 0, Ok(0))];

#[test]
fn words_and_pieces_into_memory(rt: HostRuntime) -> Result<(), Fail> {
    drop(memory_of(&rt, rt.alloc(), &PIECES, &PIECES_TAKEN));
    let mut output = memory_of(&rt, rt.alloc(), BOTH_PUT, part(&TEXT, 0, 16));
    write_by(&rt, &mut output, &TEXT, &LAST_FOUR);
    write_all(&mut output, &[5])?;
    same(&rt, part(output.bytes(), 0, 20), &TEXT);
    same(&rt, part(output.bytes(), 20, 99), &[5]);
    let many = Vec::from_elem(rt.alloc(), 7, 300000)?;
    same(&rt, output.write(&many), Ok(300000));
    same(&rt, output.bytes().len(), 300021);
    same(&rt, part(output.bytes(), 20, 2), &[5, 7]);
    let mut memory = VecOut::new(rt.alloc());
    write_by(&rt, &mut memory, &TEXT, &FLUSHED);
    same(&rt, memory.bytes(), &TEXT);
    Ok(())
}
