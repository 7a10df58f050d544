//! Engines over streams of two messages, to an output in memory. In `tests/program/program_allocations.py` each
//! allocation of every command fails.

use crate::reading::{another_answer, refused};
use crate::same::{same, same_of};
use cap_canon::CanonFault;
use cap_frame::{FrameFault, SizeLimit};
use cap_run::{Cause, Limits, Outcome, RunFault, Settings, run_canon, run_vet};
use cap_words::{OutFault, PlainSink, PlainWords, SliceIn, VecOut};
use std::process::Abort;
use std::test::Fail;

// A null root, and a struct of one word: the second message needs a larger buffer.
const STREAM: &[u8] =
    b"\0\0\0\0\x01\0\0\0\0\0\0\0\0\0\0\0\0\0\0\0\x02\0\0\0\0\0\0\0\x01\0\0\0\x2a\0\0\0\0\0\0\0";

fn settings() -> Result<Settings, Fail> {
    Ok(Settings {
        limits: Limits::new(100, 64).ok_or("limits")?,
        size: SizeLimit::new(100).ok_or("a limit")?,
        messages: 2,
    })
}

const BOTH: Outcome = Outcome {
    messages: 2,
    refused: 0,
    noncanonical: 0,
};

// A run leaves the texts of both messages, of which the first has `first` bytes. If an allocation
// for a message failed, it leaves the texts of the messages before that one. If one of the output
// failed, it leaves a beginning of the texts.
fn settle(
    rt: &impl Abort,
    answer: Result<Outcome, RunFault>,
    out: &VecOut,
    first: usize,
    text: &[u8],
) -> Result<(), Fail> {
    let written = out.bytes();
    assert!(rt; text.starts_with(written));
    match answer {
        Ok(outcome) => {
            assert!(rt; outcome == BOTH);
            same(rt, written, text);
            Ok(())
        }
        Err(RunFault { message, cause }) => {
            assert!(rt; message < 2);
            let before = if message == 0 { 0 } else { first };
            match cause {
                Cause::Frame(FrameFault::Memory)
                | Cause::Canon(CanonFault::Memory)
                | Cause::Memory => {
                    same_of(rt, &message, written.len(), before);
                }
                Cause::Output(OutFault::Memory) => {
                    let after = if message == 0 { first } else { text.len() };
                    assert!(rt; before <= written.len() && written.len() < after);
                }
                _ => return another_answer(),
            }
            refused()
        }
    }
}

const VET: &[u8] =
    b"message 0: accepted charge 0 depth 0 pointers 1 caps 0\nmessage 1: accepted charge 1 depth 1 pointers 1 caps 0\n";

#[test]
fn the_verdict_of_each_message(rt: HostRuntime) -> Result<(), Fail> {
    let mut source = PlainWords::new(SliceIn::new(STREAM));
    let mut out = VecOut::new(rt.alloc());
    let answer = run_vet(rt.alloc(), &mut source, &mut out, &settings()?);
    settle(&rt, answer, &out, 55, VET)
}

#[test]
fn the_copy_of_each_message(rt: HostRuntime) -> Result<(), Fail> {
    let mut source = PlainWords::new(SliceIn::new(STREAM));
    let mut sink = PlainSink::new(VecOut::new(rt.alloc()));
    let answer = run_canon(rt.alloc(), &mut source, &mut sink, &settings()?);
    settle(&rt, answer, &sink.into_inner(), 16, STREAM)
}
