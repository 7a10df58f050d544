//! Outputs, and the sinks and texts that go to them.

use crate::reading::{another_answer, refused};
use crate::same::same;
use cap_frame::{OneSegment, write_message};
use cap_pack::Packer;
use cap_run::dump;
use cap_vet::{Limits, vet};
use cap_words::{ByteOut, OutFault, PlainSink, SinkFault, VecOut, WordSink};
use std::process::Abort;
use std::test::Fail;

const NONE: &[u8] = &[];

const FEW: &[u8] = &[7; 3];

const MANY: &[u8] = &[7; 300];

const ALL: &[u8] = &[7; 303];

// What is there, what is written, and what is there then.
static WRITES: [(&[u8], &[u8], &[u8]); 2] = [(NONE, FEW, FEW), (FEW, MANY, ALL)];

// Writes these bytes, again if the first call was out of memory and left what was there. Whether it was.
fn write_or_again(rt: &impl Abort, out: &mut VecOut, before: &[u8], bytes: &[u8]) -> bool {
    let first = out.write(bytes);
    if first != Err(OutFault::Memory) {
        same(rt, first, Ok(bytes.len()));
        return false;
    }
    same(rt, out.bytes(), before);
    same(rt, out.write(bytes), Ok(bytes.len()));
    true
}

#[test]
fn two_writes(rt: HostRuntime) -> Result<(), Fail> {
    let mut out = VecOut::new(rt.alloc());
    let mut was_refused = false;
    for (before, bytes, after) in &WRITES {
        was_refused |= write_or_again(&rt, &mut out, *before, *bytes);
        same(&rt, out.bytes(), *after);
    }
    if was_refused { refused() } else { Ok(()) }
}

// Two words, the lowest byte of each first, and their packed encoding.
const WORD: u64 = 0x0002_0003_0000_0008;

const NEXT: &[u8] = b"\x19\0\0\0\xaa\x01\0\0";

const PLAIN: &[u8] = b"\x08\0\0\0\x03\0\x02\0\x19\0\0\0\xaa\x01\0\0";

const PACKED: &[u8] = b"\x51\x08\x03\x02\x31\x19\xaa\x01";

fn put_all<K: WordSink>(sink: &mut K) -> Result<(), SinkFault> {
    sink.put(WORD)?;
    sink.put_bytes(NEXT)?;
    sink.finish()
}

// Nothing more is taken after a fault, or after the sink is finished.
fn expect_closed<K: WordSink>(rt: &impl Abort, sink: &mut K) {
    same(rt, sink.put(WORD), Err(SinkFault::Spent));
    same(rt, sink.put_bytes(NEXT), Err(SinkFault::Spent));
    same(rt, sink.finish(), Err(SinkFault::Spent));
}

// A sink was put all of a text, or a beginning of it if an allocation failed.
fn settle(
    rt: &impl Abort,
    answer: Result<(), SinkFault>,
    out: &VecOut,
    text: &[u8],
) -> Result<(), Fail> {
    match answer {
        Ok(()) => {
            same(rt, out.bytes(), text);
            Ok(())
        }
        Err(SinkFault::Memory) => {
            assert!(rt; out.bytes().len() < text.len());
            assert!(rt; text.starts_with(out.bytes()));
            refused()
        }
        _ => another_answer(),
    }
}

#[test]
fn words_to_a_plain_sink(rt: HostRuntime) -> Result<(), Fail> {
    let mut sink = PlainSink::new(VecOut::new(rt.alloc()));
    let answer = put_all(&mut sink);
    expect_closed(&rt, &mut sink);
    settle(&rt, answer, &sink.into_inner(), PLAIN)
}

#[test]
fn words_to_a_packer(rt: HostRuntime) -> Result<(), Fail> {
    let mut sink = Packer::new(VecOut::new(rt.alloc()));
    let answer = put_all(&mut sink);
    expect_closed(&rt, &mut sink);
    settle(&rt, answer, &sink.into_inner(), PACKED)
}

#[test]
fn a_group_that_is_written_at_the_end(rt: HostRuntime) -> Result<(), Fail> {
    let mut sink = Packer::new(VecOut::new(rt.alloc()));
    same(&rt, sink.put_bytes(&[0; 24]), Ok(()));
    let answer = sink.finish();
    expect_closed(&rt, &mut sink);
    settle(&rt, answer, &sink.into_inner(), b"\0\x02")
}

// A struct of one word.
const WORDS: [u64; 2] = [0x1_0000_0000, 42];

const FRAME: &[u8] = b"\0\0\0\0\x02\0\0\0\0\0\0\0\x01\0\0\0\x2a\0\0\0\0\0\0\0";

#[test]
fn a_message_to_a_sink(rt: HostRuntime) -> Result<(), Fail> {
    let message = OneSegment::new(&WORDS).ok_or("a message")?;
    let mut sink = PlainSink::new(VecOut::new(rt.alloc()));
    let answer = write_message(&mut sink, &message);
    if answer.is_err() {
        expect_closed(&rt, &mut sink);
    }
    settle(&rt, answer, &sink.into_inner(), FRAME)
}

const DUMP: &[u8] = b"root struct 1 0\n  d0 2a00000000000000\n";

fn dump_words(out: &mut VecOut) -> Result<Result<(), OutFault>, Fail> {
    let limits = Limits::new(100, 64).ok_or("limits")?;
    let message = OneSegment::new(&WORDS).ok_or("a message")?;
    match vet(&message, limits) {
        Ok(vetted) => Ok(dump(&vetted, out)),
        Err(_) => Err("refused".into()),
    }
}

#[test]
fn the_text_of_a_tree(rt: HostRuntime) -> Result<(), Fail> {
    let mut out = VecOut::new(rt.alloc());
    let answer = dump_words(&mut out)?.map_err(SinkFault::from);
    settle(&rt, answer, &out, DUMP)
}
