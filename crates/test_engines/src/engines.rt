//! An engine whose output fails, and limits for others.

use crate::same::same;
use cap_frame::SizeLimit;
use cap_run::{
    Cause, Demands, FlushBeforeWaiting, Limits, Outcome, RunFault, Settings, run_vet_with,
};
use cap_words::{FromWrite, OutFault, PlainWords, SliceIn};
use std::alloc::Global;
use std::io::ErrorKind;
use test_support::{Fault, Writer};

pub(crate) fn settings(messages: u32) -> Option<Settings> {
    Some(Settings {
        limits: Limits::new(8388608, 64)?,
        size: SizeLimit::new(8388608)?,
        messages,
    })
}

// A message of one empty segment, and one of a struct.
const TWO: &[u8] = b"\0\0\0\0\0\0\0\0\0\0\0\0\x02\0\0\0\0\0\0\0\x01\0\0\0\x2a\0\0\0\0\0\0\0";

// The answer for these messages to an output whose third call fails, the calls, and the bytes that it took.
fn third_fails(alloc: Global) -> Option<(Result<Outcome, RunFault>, u32, usize)> {
    let settings = settings(3)?;
    let kind = Some(ErrorKind::Other);
    let mut out = FromWrite::new(Writer::new(alloc, 4096, Fault { at: 3, kind }));
    let answer = run_vet_with(
        alloc,
        &mut PlainWords::new(SliceIn::new(TWO)),
        &mut out,
        &settings,
        Demands::default(),
        &FlushBeforeWaiting { live: true },
    );
    let writer = out.into_inner();
    Some((answer, writer.calls, writer.taken.len()))
}

// Each text is one call of the writer, and the third call is the flush after the second text.
#[test]
fn a_message_whose_flush_fails_is_not_counted(rt: HostRuntime) {
    let failed = Err(RunFault {
        message: 1,
        cause: Cause::Output(OutFault::Device),
    });
    same(&rt, third_fails(rt.alloc()), Some((failed, 3, 99)));
}
