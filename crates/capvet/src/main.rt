//! The program `capvet`: opens what the command line names, runs its job and ends with its status.
#![tactic(auto)]

use cap_cmd::{Job, JobFault, Jobs, Task, Work, file_marks, read_jobs, run_file, run_job_with};
use cap_words::{BufferedIn, ByteIn, FromWrite};
use std::alloc::AllocError;
use std::env::Env;
use std::fs::{File, Metadata, OpenFile};
use std::io::{BufWriter, ErrorKind, Read, Stdin, Write};
use std::process::ExitCode;
use std::{env, fs, io};

// How many bytes are written at a time.
const BUFFER: usize = 65536;

// How many bytes of a fault's lines are held, which is more than any has.
const LINE: usize = 1024;

// The most bytes of an argument: Linux gives a program no longer one.
const ARGUMENT: usize = 131072;

// The name of standard input, for its metadata.
const STANDARD_INPUT: &str = "/dev/stdin";

// The exit statuses of what goes wrong outside a job.
const USAGE: u8 = 2;

const FAILED: u8 = 3;

fn main(rt: HostRuntime) -> ExitCode {
    ExitCode::from(run(&rt))
}

// The whole program, to its exit status.
fn run(rt: &HostRuntime) -> u8 {
    let words = match env::args(rt) {
        Ok(words) => words,
        Err(error) if error.kind() == ErrorKind::OutOfMemory => return out_of_memory(rt),
        Err(_) => return bad_argument(rt),
    };
    let words = match words.collect(rt.alloc()) {
        Ok(words) => words,
        Err(_) => return out_of_memory(rt),
    };
    match read_jobs(rt.alloc(), words) {
        Ok(jobs) => open_and_run(rt, &jobs),
        Err(JobFault::Help { text }) => help(rt, text.as_str()),
        Err(JobFault::Usage { text }) => fail(rt, text.as_str(), USAGE),
        Err(JobFault::Path { at }) => bad_path(rt, at),
        Err(JobFault::Memory) => out_of_memory(rt),
    }
}

// What is read: standard input or a file.
#[derive(Drop)]
enum Device {
    Standard(Stdin),
    File(File),
}

// An input that keeps the error of the read that failed last. One type for both devices, so that
// the engines are compiled once.
#[derive(Drop)]
struct Input {
    device: Device,
    error: Option<io::Error>,
}

impl Read for Input {
    fn read(&mut self, buf: &mut [u8]) -> io::Result<usize> {
        let answer = match &mut self.device {
            Device::Standard(input) => input.read(buf),
            Device::File(file) => file.read(buf),
        };
        match answer {
            Ok(count) => Ok(count),
            Err(error) => {
                let kind = error.kind();
                self.error = Some(error);
                Err(io::Error::from(kind))
            }
        }
    }
}

// Opens the job's files, or takes standard input, and runs the job on them.
fn open_and_run(rt: &HostRuntime, jobs: &Jobs) -> u8 {
    if !jobs.named_files.is_empty() {
        return run_each(rt, jobs);
    }
    let job = &jobs.job;
    match &job.file {
        None => {
            let live = may_wait(&fs::metadata(rt, STANDARD_INPUT));
            run_on(rt, job, live, Device::Standard(rt.stdin()))
        }
        Some(name) => match File::open(rt, name.as_str()) {
            Ok(file) => {
                let live = may_wait(&file.metadata());
                run_on(rt, job, live, Device::File(file))
            }
            Err(error) => cannot_open(rt, &job.task, name.as_str(), &error),
        },
    }
}

// Runs the job on each of its named files, one after the other, and returns the greatest status. It
// ends where the output failed.
fn run_each(rt: &HostRuntime, jobs: &Jobs) -> u8 {
    let mut greatest = 0;
    for name in &jobs.named_files {
        let (status, goes_on) = run_named(rt, &jobs.job, name.as_str());
        if !goes_on {
            return status;
        }
        greatest = greatest.max(status);
    }
    greatest
}

// Runs the job on a named file, with its name in each line. Also says whether the output
// takes more.
fn run_named(rt: &HostRuntime, job: &Job, name: &str) -> (u8, bool) {
    let file = match File::open(rt, name) {
        Ok(file) => file,
        Err(error) => {
            let _ = eprintln!(rt; "{name}: capvet: cannot open {name}");
            explain_named(rt, job, name, &error);
            return (FAILED, true);
        }
    };
    let live = may_wait(&file.metadata());
    let mut input = Input {
        device: Device::File(file),
        error: None,
    };
    let Ok((status, goes_on)) = run_over_named(rt, job, live, name, &mut input) else {
        return (fail_named(rt, name, "out of memory"), true);
    };
    if let Some(error) = &input.error {
        explain_named(rt, job, name, error);
    }
    (status, goes_on)
}

// The same, without what the system says of a read that failed.
fn run_over_named(
    rt: &HostRuntime,
    job: &Job,
    live: bool,
    name: &str,
    input: &mut Input,
) -> Result<(u8, bool), AllocError> {
    let marks = file_marks(rt.alloc(), job, name)?;
    let input = BufferedIn::new(rt.alloc(), input)?;
    let Ok(out) = BufWriter::with_capacity(rt.alloc(), BUFFER, rt.stdout()) else {
        return Err(AllocError);
    };
    let Ok(err) = BufWriter::with_capacity(rt.alloc(), LINE, rt.stderr()) else {
        return Err(AllocError);
    };
    let (out, err) = (FromWrite::new(out), FromWrite::new(err));
    let (status, out, err) = run_file(rt.alloc(), job, live, marks, input, out, err);
    let has_failed = out.has_failed();
    // An output that failed has its line already.
    let is_reported = has_failed || out.into_inner().flush().is_ok();
    let _ = err.into_inner().flush();
    if is_reported {
        Ok((status, !has_failed))
    } else {
        Ok((fail_named(rt, name, "output failed"), false))
    }
}

// Writes a line about a named file, and returns the status.
fn fail_named(rt: &HostRuntime, name: &str, text: &str) -> u8 {
    let _ = eprintln!(rt; "{name}: capvet: {text}");
    FAILED
}

// Whether an input may have to be waited for: all but a regular file.
fn may_wait(metadata: &io::Result<Metadata>) -> bool {
    match metadata {
        Ok(metadata) => !metadata.is_file(),
        Err(_) => true,
    }
}

// Runs the job on this input, which may have to be waited for if `live` says so. It writes to standard
// output, and flushes that. It holds the line of a fault until after the flush, so that the line
// follows the texts if both go to one place.
fn run_on(rt: &HostRuntime, job: &Job, live: bool, device: Device) -> u8 {
    let mut input = Input {
        device,
        error: None,
    };
    let status = run_over(rt, job, live, &mut input);
    if let Some(error) = &input.error {
        explain(rt, &job.task, error);
    }
    status
}

// The same, without what the system says of a read that failed.
fn run_over(rt: &HostRuntime, job: &Job, live: bool, input: &mut Input) -> u8 {
    let Ok(input) = BufferedIn::new(rt.alloc(), input) else {
        return out_of_memory(rt);
    };
    let out = match BufWriter::with_capacity(rt.alloc(), BUFFER, rt.stdout()) {
        Ok(out) => FromWrite::new(out),
        Err(_) => return out_of_memory(rt),
    };
    let mut err = match BufWriter::with_capacity(rt.alloc(), LINE, rt.stderr()) {
        Ok(err) => FromWrite::new(err),
        Err(_) => return out_of_memory(rt),
    };
    let (status, out) = run_job_with(rt.alloc(), job, live, input, out, &mut err);
    // An output that failed has its line already.
    let is_reported = out.has_failed() || out.into_inner().flush().is_ok();
    let _ = err.into_inner().flush();
    if is_reported {
        status
    } else {
        fail(rt, "capvet: output failed\n", FAILED)
    }
}

fn help(rt: &HostRuntime, text: &str) -> u8 {
    match rt.print(text) {
        Ok(()) => 0,
        Err(_) => fail(rt, "capvet: output failed\n", FAILED),
    }
}

fn bad_path(rt: &HostRuntime, at: usize) -> u8 {
    let _ = eprintln!(rt; "capvet: bad path at {at}");
    USAGE
}

fn cannot_open(rt: &HostRuntime, task: &Task, name: &str, error: &io::Error) -> u8 {
    let _ = eprintln!(rt; "capvet: cannot open {name}");
    explain(rt, task, error);
    FAILED
}

// Writes the system's reason as a second line, if the task has one. The others write one line for a
// fault.
fn explain(rt: &HostRuntime, task: &Task, error: &io::Error) {
    if gives_reasons(task) {
        let _ = eprintln!(rt; "capvet: {error}");
    }
}

// The same for a named file.
fn explain_named(rt: &HostRuntime, job: &Job, name: &str, error: &io::Error) {
    if gives_reasons(&job.task) {
        let _ = eprintln!(rt; "{name}: capvet: {error}");
    }
}

// Whether a task has a line for the system's reason.
fn gives_reasons(task: &Task) -> bool {
    matches!(
        task,
        Task::Under {
            work: Work::Explain { .. } | Work::Filter { .. },
            ..
        } | Task::One {
            work: Work::Explain { .. } | Work::Filter { .. },
            ..
        }
    )
}

// Names the first argument that is not UTF-8 by its number, from 1.
fn bad_argument(rt: &HostRuntime) -> u8 {
    let Ok(number) = first_bad_argument(rt) else {
        return out_of_memory(rt);
    };
    let _ = eprintln!(rt;
        "capvet: argument {number} is not UTF-8; to read a file of such a name, use < FILE"
    );
    USAGE
}

// The number of the first argument that is not UTF-8. The program's name is number 0.
fn first_bad_argument(rt: &HostRuntime) -> Result<usize, AllocError> {
    let mut text = Vec::with_capacity(rt.alloc(), ARGUMENT)?;
    text.resize(ARGUMENT, 0)?;
    for number in 0..usize::MAX {
        match rt.arg(number, text.as_mut_slice()) {
            Ok(length) if str::from_utf8(&text[..length]).is_ok() => {}
            _ => return Ok(number),
        }
    }
    Ok(usize::MAX)
}

fn out_of_memory(rt: &HostRuntime) -> u8 {
    fail(rt, "capvet: out of memory\n", FAILED)
}

// Writes what there is to say, and answers the status. A text that can't be written changes no status.
fn fail(rt: &HostRuntime, text: &str, status: u8) -> u8 {
    let _ = rt.eprint(text);
    status
}
