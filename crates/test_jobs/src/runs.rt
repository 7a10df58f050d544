//! Runs over an input or an output that failed before the run began.

use crate::same::{same, same_of};
use crate::whole::job;
use cap_cmd::{Job, run_job};
use cap_words::{ByteIn, ByteOut, FromRead, FromWrite, InFault, OutFault, VecOut};
use std::process::Abort;
use std::test::Fail;
use test_support::{HONEST, Reader, Writer};

// A message of one null pointer, and words as they are packed.
const NULL: &str = "00000000010000000000000000000000";

// A command, an input of which it writes something, and the line of an input that was closed.
static ROWS: [(&str, &str, &str); 5] = [
    ("vet", NULL, "capvet: message 0: Spent\n"),
    ("segments", NULL, "capvet: message 0: Spent\n"),
    ("filter", NULL, "capvet: message 0: Spent\n"),
    ("pack", NULL, "capvet: Spent\n"),
    ("unpack", "51080302", "capvet: Spent\n"),
];

// A run's output took nothing, and it ended with this line and status 3.
fn expect_end(rt: &impl Abort, taken: &[u8], err: &VecOut, line: &str, status: u8) {
    same_of(
        rt,
        &line,
        (taken, err.bytes(), status),
        (&[], line.as_bytes(), 3),
    );
}

fn expect_closed_input<R: AllocGlobal + Abort>(rt: &R, job: &Job, line: &str) {
    let mut reader = Reader::broken(&[]);
    let mut input = FromRead::new(&mut reader);
    same(rt, input.read(&mut [0]), Err(InFault::Device));
    let out = FromWrite::new(Writer::new(rt.alloc(), usize::MAX, HONEST));
    let mut err = VecOut::new(rt.alloc());
    let (status, out) = run_job(rt.alloc(), job, input, out, &mut err);
    expect_end(rt, out.into_inner().taken.as_slice(), &err, line, status);
}

fn expect_closed_output<R: AllocGlobal + Abort>(rt: &R, job: &Job, bytes: &[u8]) {
    let mut reader = Reader::honest(bytes, usize::MAX);
    let mut out = FromWrite::new(Writer::full(rt.alloc(), 0, true));
    same(rt, out.write(&[0]), Err(OutFault::Device));
    let mut err = VecOut::new(rt.alloc());
    let (status, out) = run_job(rt.alloc(), job, FromRead::new(&mut reader), out, &mut err);
    let taken = out.into_inner().taken;
    expect_end(
        rt,
        taken.as_slice(),
        &err,
        "capvet: output failed\n",
        status,
    );
}

#[test]
fn an_end_that_failed_before_ends_the_run_with_status_3(rt: HostRuntime) -> Result<(), Fail> {
    for (command, stream, line) in &ROWS {
        let job = job(rt.alloc(), command, &[])?;
        expect_closed_input(&rt, &job, line);
        let bytes = hex::decode(rt.alloc(), stream)?;
        expect_closed_output(&rt, &job, bytes.as_slice());
    }
    Ok(())
}
