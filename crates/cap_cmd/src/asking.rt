//! What a command and its options ask: the task, the demands on each message, and the limits.

ghost use Rattle.cap_cmd.specs.Asking.{IsAsked, IsInRange, command_name, demands_asked, or_json, plain_task, task_asked, task_under};
ghost use Rattle.cap_frame.specs.Limit.{limit_of};
ghost use Rattle.cap_run.specs.Engines.{most_messages};
ghost use Rattle.cap_walk.specs.Limits.{depth_of, words_of};
ghost use Rattle.std.specs.Prelude.{◌≡◌, ◌≢◌, ◌↔◌, IfSome, IsSome, None};

use crate::jobs::{Job, JsonReport, Task, Work};
use cap_frame::SizeLimit;
use cap_run::{Demands, FilterForm, Settings, Step};
use cap_vet::Limits;

/// What a command without demands demands of a message.
pub(crate) const NO_DEMANDS: Demands = Demands {
    strict: false,
    unamplified: false,
};

/// A command of the program.
#[derive(Clone, Copy)]
pub(crate) enum Command {
    Segments,
    Vet,
    Explain,
    Filter,
    Dump,
    Get,
    Check,
    Canon,
    Hash,
    Pack,
    Unpack,
}

/// The options of a command line: a flag is true if the option is there, and a number is that of the
/// option, or its default. A flag that a command doesn't take is false.
#[derive(Clone, Copy)]
pub(crate) struct Options {
    pub(crate) packed: bool,
    pub(crate) size: u64,
    pub(crate) words: u64,
    pub(crate) depth: u32,
    pub(crate) strict: bool,
    pub(crate) unamplified: bool,
    pub(crate) allow_nonstrict: bool,
    pub(crate) allow_amplified: bool,
    pub(crate) exclusive: bool,
    pub(crate) canonical: bool,
    pub(crate) stop: bool,
    pub(crate) pack: bool,
    pub(crate) one: bool,
    pub(crate) json: bool,
}

/// The command of this name.
pub(crate) fn command_of(name: &str) -> Option<Command>
    ensures some { IfSome result (λ command. name.now ≡ command_name command) }
    ensures none { result ≡ None → (command : Command) → name.now ≢ command_name command }
{
    match name {
        "segments" => Some(Command::Segments),
        "vet" => Some(Command::Vet),
        "explain" => Some(Command::Explain),
        "filter" => Some(Command::Filter),
        "dump" => Some(Command::Dump),
        "get" => Some(Command::Get),
        "check" => Some(Command::Check),
        "canon" => Some(Command::Canon),
        "hash" => Some(Command::Hash),
        "pack" => Some(Command::Pack),
        "unpack" => Some(Command::Unpack),
        _ => None,
    }
}

/// What is demanded of each message. A filter makes both demands, unless an option lifts one.
fn demands_of(command: Command, options: &Options) -> Demands
    ensures { result ≡ demands_asked command options.now }
{
    match command {
        Command::Filter => Demands {
            strict: !options.allow_nonstrict,
            unamplified: !options.allow_amplified,
        },
        _ => Demands {
            strict: options.strict,
            unamplified: options.unamplified,
        },
    }
}

/// Work without demands, as a task.
fn plain_task(work: Work) -> Task
    ensures { result ≡ plain_task work }
{
    let demands = NO_DEMANDS;
    match work {
        Work::Vet { exclusive } => Task::Vet { exclusive },
        Work::Dump => Task::Dump,
        Work::Get { path } => Task::Get { path },
        Work::Check => Task::Check,
        Work::Canon => Task::Canon,
        Work::Explain { .. } | Work::Filter { .. } | Work::Hash { .. } | Work::Json { .. } => {
            Task::Under { demands, work }
        }
    }
}

/// Work under demands, as a task. `one` says whether the input has to be exactly one message.
fn task_under(demands: Demands, one: bool, work: Work) -> Task
    ensures { result ≡ task_under demands one work }
{
    if one {
        Task::One { demands, work }
    } else if demands.strict || demands.unamplified {
        Task::Under { demands, work }
    } else {
        plain_task(work)
    }
}

/// The work that writes JSON objects with this report, if that is asked, or else other work.
fn or_json(json: bool, report: JsonReport, work: Work) -> Work
    ensures { result ≡ or_json json report work }
{
    if json { Work::Json { report } } else { work }
}

/// The task of a command. `path` is that of `get`.
fn task_of(command: Command, options: &Options, path: Vec<Step>) -> Task
    ensures { result ≡ task_asked command options.now path }
{
    let demands = demands_of(command, options);
    let exclusive = options.exclusive;
    let one = options.one;
    match command {
        Command::Segments => Task::Segments,
        Command::Pack => Task::Pack,
        Command::Unpack => Task::Unpack,
        Command::Vet => {
            let report = JsonReport::Vet { exclusive };
            let work = or_json(options.json, report, Work::Vet { exclusive });
            task_under(demands, one, work)
        }
        Command::Explain => {
            let canonical = options.canonical;
            let report = JsonReport::Explain {
                exclusive,
                canonical,
            };
            let explaining = Work::Explain {
                exclusive,
                canonical,
            };
            let work = or_json(options.json, report, explaining);
            task_under(demands, one, work)
        }
        Command::Filter => {
            let form = FilterForm {
                exclusive,
                stop: options.stop,
                pack: options.pack,
            };
            task_under(demands, one, Work::Filter { form })
        }
        Command::Dump => task_under(demands, one, Work::Dump),
        Command::Get => task_under(demands, one, Work::Get { path }),
        Command::Check => {
            let work = or_json(options.json, JsonReport::Check, Work::Check);
            task_under(demands, one, work)
        }
        Command::Canon => task_under(demands, one, Work::Canon),
        Command::Hash => {
            let work = or_json(options.json, JsonReport::Hash, Work::Hash { alone: one });
            task_under(demands, one, work)
        }
    }
}

/// The settings of the options, or `None` if a limit is out of range. No option sets how many
/// messages there may be.
fn settings_of(options: &Options) -> Option<Settings>
    ensures some { IsSome result ↔ IsInRange options.now }
    ensures size { IfSome result (λ settings. limit_of settings.size ≡ options.now.size) }
    ensures words { IfSome result (λ settings. words_of settings.limits ≡ options.now.words) }
    ensures depth { IfSome result (λ settings. depth_of settings.limits ≡ options.now.depth) }
    ensures messages { IfSome result (λ settings. settings.messages ≡ most_messages) }
{
    Some(Settings {
        limits: Limits::new(options.words, options.depth)?,
        size: SizeLimit::new(options.size)?,
        messages: u32::MAX,
    })
}

/// The job that a command and its options ask for. `path` is that of `get`. `None` if a limit is out
/// of range.
pub(crate) fn job_of(
    command: Command,
    options: &Options,
    path: Vec<Step>,
    file: Option<String>,
) -> Option<Job>
    ensures some { IsSome result ↔ IsInRange options.now }
    ensures asked { IfSome result (IsAsked command options.now path) }
    ensures file { IfSome result (λ job. job.file ≡ file) }
{
    Some(Job {
        settings: settings_of(options)?,
        task: task_of(command, options, path),
        packed: options.packed,
        file,
    })
}
