//! Canonical copies: the sink is finished before each fault that ends them.

use crate::engines::settings;
use crate::same::same_of;
use cap_canon::CanonFault;
use cap_frame::FrameFault;
use cap_pack::Packer;
use cap_run::{Cause, Outcome, RunFault, run_canon};
use cap_vet::{Reason, Refusal};
use cap_words::{FromRead, PlainWords, VecOut};
use std::alloc::Global;
use std::process::Abort;
use test_support::Reader;

// A struct with a zero word at its end, alone and before each of these: a part of a message, the same struct, one
// that points at itself, a capability, and no root.
const LONG: &[u8] = b"\0\0\0\0\x03\0\0\0\0\0\0\0\x02\0\0\0\x2a\0\0\0\0\0\0\0\0\0\0\0\0\0\0\0";

const CUT: &[u8] = b"\0\0\0\0\x03\0\0\0\0\0\0\0\x02\0\0\0\x2a\0\0\0\0\0\0\0\0\0\0\0\0\0\0\0\0";

const TWO: &[u8] = b"\0\0\0\0\x03\0\0\0\0\0\0\0\x02\0\0\0\x2a\0\0\0\0\0\0\0\0\0\0\0\0\0\0\0\
    \0\0\0\0\x02\0\0\0\0\0\0\0\x01\0\0\0\x2a\0\0\0\0\0\0\0";

const CYCLE: &[u8] = b"\0\0\0\0\x03\0\0\0\0\0\0\0\x02\0\0\0\x2a\0\0\0\0\0\0\0\0\0\0\0\0\0\0\0\
    \0\0\0\0\x01\0\0\0\xfc\xff\xff\xff\0\0\x01\0";

const CAPABILITY: &[u8] = b"\0\0\0\0\x03\0\0\0\0\0\0\0\x02\0\0\0\x2a\0\0\0\0\0\0\0\0\0\0\0\0\0\0\0\
    \0\0\0\0\x01\0\0\0\x03\0\0\0\x05\0\0\0";

const NO_ROOT: &[u8] = b"\0\0\0\0\x03\0\0\0\0\0\0\0\x02\0\0\0\x2a\0\0\0\0\0\0\0\0\0\0\0\0\0\0\0\
    \0\0\0\0\0\0\0\0";

// The answer for copies of a stream, of which at most `messages` are made. Each time one is. A packer holds its
// last words back, so that its output shows whether it was finished.
fn end_of_copies(
    rt: &impl Abort,
    alloc: Global,
    stream: &[u8],
    messages: u32,
) -> Option<Result<Outcome, RunFault>> {
    let settings = settings(messages)?;
    let mut source = PlainWords::new(FromRead::new(Reader::honest(stream, 1)));
    let mut sink = Packer::new(VecOut::new(alloc));
    let answer = run_canon(alloc, &mut source, &mut sink, &settings);
    let packed = b"\x10\x02\x10\x01\x01\x2a".as_slice();
    same_of(rt, &messages, sink.into_inner().bytes(), packed);
    Some(answer)
}

// The end of a run at its second message.
type End = Result<Outcome, RunFault>;

const TOO_MANY: End = Err(RunFault {
    message: 1,
    cause: Cause::TooManyMessages,
});

// A stream, how many messages are copied at most, and the answer.
static ENDS: [(&[u8], u32, End); 8] = [
    (
        LONG,
        1,
        Ok(Outcome {
            messages: 1,
            refused: 0,
            noncanonical: 0,
        }),
    ),
    (
        CUT,
        2,
        Err(RunFault {
            message: 1,
            cause: Cause::Frame(FrameFault::Truncated { byte: 33 }),
        }),
    ),
    (TWO, 1, TOO_MANY),
    (CYCLE, 1, TOO_MANY),
    (CAPABILITY, 1, TOO_MANY),
    (
        CAPABILITY,
        2,
        Err(RunFault {
            message: 1,
            cause: Cause::Canon(CanonFault::HasCapability {
                segment: 0,
                word: 0,
            }),
        }),
    ),
    (
        CYCLE,
        2,
        Err(RunFault {
            message: 1,
            cause: Cause::Refused(Refusal {
                segment: 0,
                word: 0,
                reason: Reason::DepthLimit,
                pointers: 65,
            }),
        }),
    ),
    (
        NO_ROOT,
        2,
        Err(RunFault {
            message: 1,
            cause: Cause::Refused(Refusal {
                segment: 0,
                word: 0,
                reason: Reason::NoRoot,
                pointers: 0,
            }),
        }),
    ),
];

#[test]
fn finishes_the_sink_before_each_fault(rt: HostRuntime) {
    for (stream, messages, expected) in &ENDS {
        let answer = end_of_copies(&rt, rt.alloc(), *stream, *messages);
        assert!(rt; answer == Some(*expected));
    }
}
