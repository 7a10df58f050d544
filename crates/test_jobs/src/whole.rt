//! A run of the program over devices: the arguments of a command line and the bytes that come in.

use crate::same::same_of;
use cap_cmd::{Job, read_job, run_job};
use cap_words::{BufferedIn, FromRead, FromWrite, VecOut};
use std::alloc::Global;
use std::process::Abort;
use std::test::Fail;
use test_support::{Fault, HONEST, Reader, Writer};

/// A run over a reader and a writer: what they gave and took, and how often they were called.
#[derive(Drop)]
pub(crate) struct Ran {
    pub(crate) status: u8,
    pub(crate) given: usize,
    pub(crate) reads: u32,
    pub(crate) taken: Vec<u8>,
    pub(crate) writes: u32,
    pub(crate) err: VecOut,
}

impl Ran {
    /// That a run's output took these bytes, and it ended with these lines of faults and this status.
    pub(crate) fn expect(
        &self,
        rt: &impl Abort,
        name: &str,
        taken: &[u8],
        lines: &[u8],
        status: u8,
    ) {
        let left = (self.taken.as_slice(), self.err.bytes(), self.status);
        same_of(rt, &name, left, (taken, lines, status));
    }
}

/// The arguments of a command line, the program's name first.
pub(crate) fn words(alloc: Global, line: &[&str]) -> Result<Vec<String>, Fail> {
    let mut all = Vec::new(alloc);
    all.push(String::from_str(alloc, "capvet")?)?;
    for word in line {
        all.push(String::from_str(alloc, *word)?)?;
    }
    Ok(all)
}

/// The job of a command with these options.
pub(crate) fn job(alloc: Global, command: &str, options: &[&str]) -> Result<Job, Fail> {
    let mut line = words(alloc, &[command])?;
    for option in options {
        line.push(String::from_str(alloc, *option)?)?;
    }
    match read_job(alloc, line) {
        Ok(job) => Ok(job),
        Err(_) => Err(Fail::from("no job")),
    }
}

/// Runs a job over devices that give and take at most `most` bytes a call. Where `buffered` says so,
/// the input has a buffer.
pub(crate) fn run_in_pieces(
    alloc: Global,
    job: &Job,
    bytes: &[u8],
    buffered: bool,
    most: usize,
    reading: Fault,
    writing: Fault,
) -> Result<Ran, Fail> {
    let mut reader = Reader::new(bytes, most, reading);
    let out = FromWrite::new(Writer::new(alloc, most, writing));
    let mut err = VecOut::new(alloc);
    let (status, out) = if buffered {
        let input = BufferedIn::new(alloc, &mut reader)?;
        run_job(alloc, job, input, out, &mut err)
    } else {
        run_job(alloc, job, FromRead::new(&mut reader), out, &mut err)
    };
    let writer = out.into_inner();
    Ok(Ran {
        status,
        given: bytes.len().saturating_sub(reader.rest.len()),
        reads: reader.calls,
        taken: writer.taken,
        writes: writer.calls,
        err,
    })
}

/// Runs a job over devices that never fail, and give and take all that a call asks for.
pub(crate) fn run_over(alloc: Global, job: &Job, bytes: &[u8]) -> Result<Ran, Fail> {
    run_in_pieces(alloc, job, bytes, false, usize::MAX, HONEST, HONEST)
}
