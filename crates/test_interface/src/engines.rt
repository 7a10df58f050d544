//! The engines of `cap_cmd`, over a source that has only the members which a source must have.

use crate::no_words::NoWords;
use crate::same::same;
use cap_cmd::{
    Cause, CopyFault, Outcome, RunFault, Settings, Step, dump, run_canon, run_check, run_dump,
    run_get, run_pack, run_segments, run_unpack, run_vet, run_vet_exclusive,
};
use cap_frame::{OneSegment, SizeLimit};
use cap_pack::Packer;
use cap_vet::{Limits, vet};
use cap_words::{OutFault, PlainSink, VecOut};
use std::test::Fail;

fn settings() -> Option<Settings> {
    Some(Settings {
        limits: Limits::new(8, 8)?,
        size: SizeLimit::new(8)?,
        messages: 1,
    })
}

const NONE: Outcome = Outcome {
    messages: 0,
    refused: 0,
    noncanonical: 0,
};

// `NotStrict` comes of an engine with demands alone.
fn cause(fault: RunFault) -> u32 {
    let RunFault { message, cause } = fault;
    match cause {
        Cause::TooManyMessages => message,
        Cause::Frame(_fault) => 1,
        Cause::Output(_fault) => 2,
        Cause::Refused(_refusal) => 3,
        Cause::Canon(_fault) => 4,
        Cause::Memory => 5,
        Cause::NotStrict(_refusal) => 6,
    }
}

fn copy_fault(fault: CopyFault) -> u8 {
    match fault {
        CopyFault::Output(_fault) => 1,
        CopyFault::Source(_fault) => 2,
        CopyFault::TooManyWords => 3,
    }
}

#[test]
fn faults_of_engines(rt: HostRuntime) {
    let fault = RunFault {
        message: 9,
        cause: Cause::TooManyMessages,
    };
    same(
        &rt,
        (cause(fault), copy_fault(CopyFault::TooManyWords)),
        (9, 3),
    );
}

#[test]
fn engines_that_write_texts(rt: HostRuntime) -> Result<(), Fail> {
    let settings: Settings = settings().ok_or("settings")?;
    let out: &mut VecOut = &mut VecOut::new(rt.alloc());
    let segments: Result<Outcome, RunFault> = run_segments(&mut NoWords, out, &settings);
    let vetted: Result<Outcome, RunFault> = run_vet(rt.alloc(), &mut NoWords, out, &settings);
    same(&rt, (segments, vetted), (Ok(NONE), Ok(NONE)));
    let dumped: Result<Outcome, RunFault> = run_dump(rt.alloc(), &mut NoWords, out, &settings);
    let checked: Result<Outcome, RunFault> = run_check(rt.alloc(), &mut NoWords, out, &settings);
    same(&rt, (dumped, checked), (Ok(NONE), Ok(NONE)));
    let path: &[Step] = &[Step::Ptr(0)];
    let found: Result<Outcome, RunFault> = run_get(rt.alloc(), &mut NoWords, out, &settings, path);
    let exclusive: Result<Outcome, RunFault> = run_vet_exclusive(
        rt.alloc(),
        &mut NoWords,
        out,
        &settings,
    );
    same(&rt, (found, exclusive), (Ok(NONE), Ok(NONE)));
    Ok(())
}

#[test]
fn engines_that_put_words(rt: HostRuntime) -> Result<(), Fail> {
    let settings = settings().ok_or("settings")?;
    let mut sink: PlainSink<VecOut> = PlainSink::new(VecOut::new(rt.alloc()));
    let copied: Result<Outcome, RunFault> = run_canon(
        rt.alloc(),
        &mut NoWords,
        &mut sink,
        &settings,
    );
    same(&rt, copied, Ok(NONE));
    let mut sink: PlainSink<VecOut> = PlainSink::new(VecOut::new(rt.alloc()));
    let unpacked: Result<u64, CopyFault> = run_unpack(&mut NoWords, &mut sink, 1);
    let mut sink: Packer<VecOut> = Packer::new(VecOut::new(rt.alloc()));
    let packed: Result<u64, CopyFault> = run_pack(&mut NoWords, &mut sink, 1);
    same(&rt, (unpacked, packed), (Ok(0), Ok(0)));
    Ok(())
}

#[test]
fn trees_are_written(rt: HostRuntime) -> Result<(), Fail> {
    let limits = Limits::new(8, 8).ok_or("limits")?;
    let message = OneSegment::new(&[0]).ok_or("a message")?;
    let Ok(vetted) = vet(&message, limits) else {
        return Err(Fail::from("a refusal"));
    };
    let mut out = VecOut::new(rt.alloc());
    let written: Result<(), OutFault> = dump(&vetted, &mut out);
    same(&rt, written, Ok(()));
    same(&rt, out.bytes(), b"root null\n".as_slice());
    Ok(())
}
