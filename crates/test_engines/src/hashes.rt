//! Hashes: one message after the other, and the end of a run.

use crate::engines::settings;
use crate::same::{same, same_of};
use cap_run::{Cause, Outcome, RunFault, run_hash};
use cap_words::{PlainWords, SliceIn, VecOut};
use std::alloc::Global;
use std::process::Abort;

// A struct with a zero word at its end, its canonical copy, and a capability.
const STREAM: &[u8] = b"\0\0\0\0\x03\0\0\0\0\0\0\0\x02\0\0\0\x2a\0\0\0\0\0\0\0\0\0\0\0\0\0\0\0\
    \0\0\0\0\x02\0\0\0\0\0\0\0\x01\0\0\0\x2a\0\0\0\0\0\0\0\
    \0\0\0\0\x01\0\0\0\x03\0\0\0\x05\0\0\0";

// Their lines, with the digits of sha256sum.
const LINES: &str = "\
message 0: sha256 9a8603f739d25a881287ef8c3fdad74c3ca1caa41983f09f83acf1506750b94e
message 1: sha256 9a8603f739d25a881287ef8c3fdad74c3ca1caa41983f09f83acf1506750b94e
message 2: no canonical form, capability at 0:0
";

// The answer for at most `messages` of them, after the lines of these.
fn end_of_hashes(
    rt: &impl Abort,
    alloc: Global,
    messages: u32,
    lines: &str,
) -> Option<Result<Outcome, RunFault>> {
    let settings = settings(messages)?;
    let mut source = PlainWords::new(SliceIn::new(STREAM));
    let mut out = VecOut::new(alloc);
    let answer = run_hash(alloc, &mut source, &mut out, &settings);
    same_of(rt, &messages, out.bytes(), lines.as_bytes());
    Some(answer)
}

#[test]
fn equal_contents_have_one_hash(rt: HostRuntime) {
    let outcome = Outcome {
        messages: 3,
        refused: 0,
        noncanonical: 1,
    };
    same(
        &rt,
        end_of_hashes(&rt, rt.alloc(), 3, LINES),
        Some(Ok(outcome)),
    );
}

#[test]
fn a_run_ends_after_the_most_messages(rt: HostRuntime) {
    let fault = RunFault {
        message: 0,
        cause: Cause::TooManyMessages,
    };
    same(&rt, end_of_hashes(&rt, rt.alloc(), 0, ""), Some(Err(fault)));
}
