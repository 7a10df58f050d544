//! What a command line is read as that no run of the program shows, and runs of at most one message.

use crate::same::same;
use crate::whole::{job, run_over};
use cap_cmd::{JobFault, read_job};
use std::alloc::Global;
use std::test::Fail;

// Whether these arguments are answered with how the program is used.
fn is_usage(alloc: Global, all: Vec<String>) -> bool {
    match read_job(alloc, all) {
        Ok(_job) => false,
        Err(JobFault::Help { text: _text }) => false,
        Err(JobFault::Usage { text }) => !text.is_empty(),
        Err(JobFault::Path { at: _at }) => false,
        Err(JobFault::Memory) => false,
    }
}

#[test]
fn reads_a_command_line(rt: HostRuntime) -> Result<(), Fail> {
    // a run goes through as many messages as can be counted
    let job = job(rt.alloc(), "vet", &[])?;
    same(&rt, job.settings.messages, u32::MAX);
    // not even the name of a program
    same(&rt, is_usage(rt.alloc(), Vec::new(rt.alloc())), true);
    Ok(())
}

// Commands with their options.
static COMMANDS: [(&str, &[&str]); 9] = [
    ("segments", &[]),
    ("vet", &[]),
    ("vet", &["--exclusive"]),
    ("explain", &[]),
    ("filter", &[]),
    ("dump", &[]),
    ("get", &["/"]),
    ("check", &[]),
    ("canon", &[]),
];

// Two messages, each of a null root.
static TWO: [u8; 32] = [
    0, 0, 0, 0, 1, 0, 0, 0, 0, 0, 0, 0, 0, 0, 0, 0, 0, 0, 0, 0, 1, 0, 0, 0, 0, 0, 0, 0, 0, 0, 0, 0,
];

// No option sets how many messages a run may read. The text is that of the first message.
#[test]
fn reads_no_more_messages_than_it_may(rt: HostRuntime) -> Result<(), Fail> {
    for (command, options) in &COMMANDS {
        let mut job = job(rt.alloc(), command, *options)?;
        let first = run_over(rt.alloc(), &job, &TWO[..16])?;
        job.settings.messages = 1;
        let ran = run_over(rt.alloc(), &job, &TWO)?;
        let line = b"capvet: message 1: TooManyMessages\n";
        ran.expect(&rt, command, first.taken.as_slice(), line, 1);
    }
    Ok(())
}
