//! How engines end: at a message or a word too many, at a text that is cut, and where a call of a device fails.

use crate::engines::settings;
use crate::same::{same, same_of};
use cap_frame::FrameFault;
use cap_pack::{Packer, Unpacker};
use cap_run::{Cause, CopyFault, Outcome, RunFault, run_pack, run_segments, run_unpack, run_vet};
use cap_words::{
    FromRead, FromWrite, OutFault, PlainSink, PlainWords, SliceIn, SourceFault, VecOut,
};
use std::process::Abort;
use std::test::Fail;
use test_support::{Fault, HONEST, READ_FAULTS, Reader, WRITE_FAULTS, Writer};

// A message of one empty segment, one of a struct, and the beginning of a third.
const CUT: &[u8] =
    b"\0\0\0\0\0\0\0\0\0\0\0\0\x02\0\0\0\0\0\0\0\x01\0\0\0\x2a\0\0\0\0\0\0\0\0\0\0\0";

// What is written of them: 53 bytes, and 65.
const SIZES: &[u8] =
    b"message 0: segments 1 words 0\nsegment 0: 0\nroot none\nmessage 1: segments 1 words 2\nsegment 0: 2\nroot 0000000001000000\n";

const TOO_MANY: Result<Outcome, RunFault> = Err(RunFault {
    message: 1,
    cause: Cause::TooManyMessages,
});

const BOTH: Result<Outcome, RunFault> = Ok(Outcome {
    messages: 2,
    refused: 0,
    noncanonical: 0,
});

const TRUNCATED: Result<Outcome, RunFault> = Err(RunFault {
    message: 2,
    cause: Cause::Frame(FrameFault::Truncated { byte: 36 }),
});

// How many bytes of the stream there are, how many messages are read at most, the answer, and how many bytes are
// written.
static ENDS: [(usize, u32, Result<Outcome, RunFault>, usize); 3] = [
    (32, 1, TOO_MANY, 53),
    (32, 2, BOTH, 118),
    (36, 3, TRUNCATED, 118),
];

#[test]
fn writes_the_messages_before_the_end(rt: HostRuntime) -> Result<(), Fail> {
    for (len, messages, answer, written) in &ENDS {
        let stream = CUT.get(..*len).ok_or("no stream")?;
        let settings = settings(*messages).ok_or("no settings")?;
        let mut source = PlainWords::new(SliceIn::new(stream));
        let mut out = VecOut::new(rt.alloc());
        let given = run_segments(&mut source, &mut out, &settings);
        same_of(&rt, len, given, *answer);
        same_of(&rt, len, Some(out.bytes()), SIZES.get(..*written));
    }
    Ok(())
}

// A message of a null root: two words.
static NULL: [u8; 16] = [0, 0, 0, 0, 1, 0, 0, 0, 0, 0, 0, 0, 0, 0, 0, 0];

#[test]
fn packs_the_word_before_one_too_many(rt: HostRuntime) {
    let mut source = PlainWords::new(SliceIn::new(&NULL));
    let mut sink = Packer::new(VecOut::new(rt.alloc()));
    let given = run_pack(&mut source, &mut sink, 1);
    same(&rt, given, Err(CopyFault::TooManyWords));
    same(&rt, sink.into_inner().bytes(), [0x10, 1].as_slice());
}

// A word and a run of two, the last of which isn't whole.
static RUN: [u8; 22] = [
    0xff, 0x8a, 0x8a, 0x8a, 0x8a, 0x8a, 0x8a, 0x8a, 0x8a, 2, 0x8a, 0x8a, 0x8a, 0x8a, 0x8a, 0x8a,
    0x8a, 0x8a, 0x8a, 0x8a, 0x8a, 0x8a,
];

#[test]
fn unpacks_the_words_before_a_cut(rt: HostRuntime) {
    let mut source = Unpacker::new(SliceIn::new(&RUN));
    let mut sink = PlainSink::new(VecOut::new(rt.alloc()));
    let given = run_unpack(&mut source, &mut sink, 3);
    let fault = CopyFault::Source(SourceFault::Truncated { byte: 22 });
    same(&rt, given, Err(fault));
    same(&rt, sink.into_inner().bytes(), [0x8a; 16].as_slice());
}

// Two pointers to one struct, in 40 bytes, and what is written of them, in 55.
const SHARED: &[u8] =
    b"\0\0\0\0\x04\0\0\0\0\0\0\0\0\0\x02\0\x04\0\0\0\x01\0\0\0\0\0\0\0\x01\0\0\0\x07\0\0\0\0\0\0\0";

const VERDICT: &[u8] = b"message 0: accepted charge 4 depth 2 pointers 3 caps 0\n";

const ACCEPTED: Result<Outcome, RunFault> = Ok(Outcome {
    messages: 1,
    refused: 0,
    noncanonical: 0,
});

const NOT_WRITTEN: Result<Outcome, RunFault> = Err(RunFault {
    message: 0,
    cause: Cause::Output(OutFault::Device),
});

const NOT_READ: Result<Outcome, RunFault> = Err(RunFault {
    message: 0,
    cause: Cause::Frame(FrameFault::Device),
});

// Over devices that give and take a byte a call, a run answers this, and writes so many bytes of the verdict.
fn expect_by_bytes<R: AllocGlobal + Abort>(
    rt: &R,
    reading: Fault,
    writing: Fault,
    answer: Result<Outcome, RunFault>,
    written: u32,
) -> Result<(), Fail> {
    let settings = settings(u32::MAX).ok_or("no settings")?;
    let mut source = PlainWords::new(FromRead::new(Reader::new(SHARED, 1, reading)));
    let mut out = FromWrite::new(Writer::new(rt.alloc(), 1, writing));
    let given = run_vet(rt.alloc(), &mut source, &mut out, &settings);
    let calls = (reading.at, writing.at);
    same_of(rt, &calls, given, answer);
    let taken = out.into_inner().taken;
    let text = VERDICT.get(..written as usize);
    same_of(rt, &calls, Some(taken.as_slice()), text);
    Ok(())
}

#[test]
fn each_call_for_a_byte_fails_in_turn(rt: HostRuntime) -> Result<(), Fail> {
    expect_by_bytes(&rt, HONEST, HONEST, ACCEPTED, 55)?;
    for kind in WRITE_FAULTS {
        for written in 0..55u32 {
            let at = written + 1;
            expect_by_bytes(&rt, HONEST, Fault { at, kind }, NOT_WRITTEN, written)?;
        }
    }
    for kind in READ_FAULTS {
        for at in 1..41u32 {
            let kind = Some(kind);
            expect_by_bytes(&rt, Fault { at, kind }, HONEST, NOT_READ, 0)?;
        }
    }
    Ok(())
}
