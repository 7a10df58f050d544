//! The jobs of `cap_cmd`.

use crate::same::same;
use cap_cmd::{
    FileMarks, Job, JobFault, Jobs, MarkedLines, PathFault, Settings, Step, Task, file_marks,
    parse_path, read_job, read_jobs, run_file, run_job,
};
use cap_frame::SizeLimit;
use cap_vet::Limits;
use cap_words::{ByteOut, OutFault, SliceIn, VecOut};
use std::test::Fail;

// `Under` and `One` have what the options and commands beside these ask.
fn task(task: &Task) -> usize {
    match task {
        Task::Segments => 1,
        Task::Vet { exclusive: false } => 2,
        Task::Vet { exclusive: true } => 10,
        Task::Dump => 3,
        Task::Check => 4,
        Task::Canon => 5,
        Task::Get { path } => path.len(),
        Task::Pack => 7,
        Task::Unpack => 8,
        Task::Under {
            demands: _demands,
            work: _work,
        } => 9,
        Task::One {
            demands: _demands,
            work: _work,
        } => 11,
    }
}

fn path_fault(fault: PathFault) -> usize {
    match fault {
        PathFault::Bad { at } => at,
        PathFault::Memory => 0,
    }
}

fn job_fault(fault: &JobFault) -> usize {
    match fault {
        JobFault::Help { text } => text.len(),
        JobFault::Usage { text } => text.len(),
        JobFault::Path { at } => *at,
        JobFault::Memory => 0,
    }
}

#[test]
fn paths_are_parsed(rt: HostRuntime) -> Result<(), Fail> {
    let steps: Result<Vec<Step>, PathFault> = parse_path(rt.alloc(), "/p1");
    let Ok(steps) = steps else {
        return Err(Fail::from("no path"));
    };
    same(&rt, steps.as_slice(), [Step::Ptr(1)].as_slice());
    same(
        &rt,
        (
            path_fault(PathFault::Bad { at: 6 }),
            task(&Task::Get { path: steps }),
        ),
        (6, 1),
    );
    Ok(())
}

#[test]
fn command_lines_are_read(rt: HostRuntime) -> Result<(), Fail> {
    let mut words: Vec<String> = Vec::new(rt.alloc());
    words.push(String::from_str(rt.alloc(), "capvet")?)?;
    words.push(String::from_str(rt.alloc(), "vet")?)?;
    let job: Result<Job, JobFault> = read_job(rt.alloc(), words);
    match &job {
        Ok(job) => same(&rt, (task(&job.task), job.packed), (2, false)),
        Err(fault) => same(&rt, job_fault(fault), 0),
    }
    Ok(())
}

#[test]
fn jobs_are_run(rt: HostRuntime) -> Result<(), Fail> {
    let job = Job {
        task: Task::Pack,
        packed: false,
        settings: Settings {
            limits: Limits::new(8, 8).ok_or("limits")?,
            size: SizeLimit::new(8).ok_or("a limit")?,
            messages: 1,
        },
        file: None,
    };
    let input: SliceIn<'_> = SliceIn::new(&[1, 0, 0, 0, 0, 0, 0, 0]);
    let mut err: VecOut = VecOut::new(rt.alloc());
    let out: VecOut = VecOut::new(rt.alloc());
    let (status, out): (u8, VecOut) = run_job(rt.alloc(), &job, input, out, &mut err);
    same(
        &rt,
        (status, out.bytes(), err.bytes()),
        (0, [1, 1].as_slice(), [].as_slice()),
    );
    Ok(())
}

#[test]
fn files_have_their_names(rt: HostRuntime) -> Result<(), Fail> {
    let mut words: Vec<String> = Vec::new(rt.alloc());
    for word in ["capvet", "hash", "a", "b"] {
        words.push(String::from_str(rt.alloc(), word)?)?;
    }
    let read: Result<Jobs, JobFault> = read_jobs(rt.alloc(), words);
    let Ok(Jobs { job, named_files }) = read else {
        return Err(Fail::from("no job"));
    };
    same(&rt, named_files.len(), 2);
    let marks: FileMarks = file_marks(rt.alloc(), &job, "a")?;
    same(
        &rt,
        (marks.out.as_slice(), marks.place, marks.err.as_slice()),
        (b"a: ".as_slice(), 0, b"a: ".as_slice()),
    );
    let input: SliceIn<'_> = SliceIn::new(&[0, 0, 0, 0]);
    let (out, err) = (VecOut::new(rt.alloc()), VecOut::new(rt.alloc()));
    let (status, out, err): (u8, VecOut, VecOut) = run_file(
        rt.alloc(),
        &job,
        false,
        marks,
        input,
        out,
        err,
    );
    same(
        &rt,
        (status, out.bytes(), err.bytes()),
        (
            1,
            [].as_slice(),
            b"a: capvet: message 0: Truncated at byte 4\n".as_slice(),
        ),
    );
    Ok(())
}

#[test]
fn lines_are_marked(rt: HostRuntime) -> Result<(), Fail> {
    let mut mark: Vec<u8> = Vec::new(rt.alloc());
    mark.push(b'-')?;
    let mut out: MarkedLines<VecOut> = MarkedLines::new(VecOut::new(rt.alloc()), mark, 1);
    let taken: Result<usize, OutFault> = out.write(b"{");
    same(&rt, taken, Ok(1));
    same(&rt, out.write(b"}\n{"), Ok(2));
    same(&rt, out.flush(), Ok(()));
    same(&rt, out.is_whole(), true);
    same(&rt, out.into_inner().bytes(), b"{-}\n".as_slice());
    Ok(())
}
