//! Jobs: what is done with the messages of an input, and within which limits.

use cap_run::{Demands, FilterForm, Settings, Step};

/// A task of the program.
#[derive(Debug, PartialEq, Eq, Drop)]
pub enum Task {
    /// To show the segments of each message.
    Segments,
    /// To report for each message whether it is accepted.
    Vet {
        /// Whether it is refused too where some word is used twice.
        exclusive: bool,
    },
    /// To write the tree of each message that is accepted.
    Dump,
    /// To show the node that each message's tree has at a path.
    Get {
        /// The steps of the path, from the root on.
        path: Vec<Step>,
    },
    /// To report for each message whether it is canonical.
    Check,
    /// To write the canonical copy of each message.
    Canon,
    /// To pack words.
    Pack,
    /// To unpack words.
    Unpack,
    /// To do work on each message under demands. [`Task::Vet`], [`Task::Dump`], [`Task::Get`],
    /// [`Task::Check`] and [`Task::Canon`] are such work without demands.
    Under {
        /// What is demanded of each message beside the limits.
        demands: Demands,
        /// What is done with it.
        work: Work,
    },
    /// To do work on the message of an input that has to be exactly one message.
    One {
        /// What is demanded of the message beside the limits.
        demands: Demands,
        /// What is done with it.
        work: Work,
    },
}

/// What is done with each message that is vetted.
#[derive(Debug, PartialEq, Eq, Drop)]
pub enum Work {
    /// To report whether it is accepted.
    Vet {
        /// Whether it is refused too where some word is used twice.
        exclusive: bool,
    },
    /// To report the same, and to explain a refusal.
    Explain {
        /// Whether it is refused too where some word is used twice.
        exclusive: bool,
        /// Whether to report too whether it is canonical, and why not.
        canonical: bool,
    },
    /// To write its frame if it is accepted. The line of a refused message is written to the output
    /// for faults.
    Filter {
        /// Whether it is refused too where some word is used twice, whether the run ends after the
        /// first refused message, and whether the output is packed.
        form: FilterForm,
    },
    /// To write its tree.
    Dump,
    /// To show the node that its tree has at a path.
    Get {
        /// The steps of the path, from the root on.
        path: Vec<Step>,
    },
    /// To report whether it is canonical.
    Check,
    /// To write its canonical copy.
    Canon,
    /// To show the SHA-256 of its canonical words.
    Hash {
        /// Whether the line of a hash is its digits alone.
        alone: bool,
    },
    /// To write a JSON object in the place of the line of another work.
    Json {
        /// What the object reports.
        report: JsonReport,
    },
}

/// What a JSON object reports of a message.
#[derive(Clone, Copy, Debug, PartialEq, Eq, Drop)]
pub enum JsonReport {
    /// Whether it is accepted.
    Vet {
        /// Whether it is refused too where some word is used twice.
        exclusive: bool,
    },
    /// The same, with the path to the pointer of a refusal, and the reason as a sentence.
    Explain {
        /// Whether it is refused too where some word is used twice.
        exclusive: bool,
        /// Whether it reports too whether the message is canonical, and why not.
        canonical: bool,
    },
    /// Whether it is canonical.
    Check,
    /// The SHA-256 of its canonical words.
    Hash,
}

/// A task, its limits and its input.
#[derive(Debug, Drop)]
pub struct Job {
    /// What is done with the input.
    pub task: Task,
    /// Whether the messages of the input are packed. The input of [`Task::Pack`] never is, and that
    /// of [`Task::Unpack`] always.
    pub packed: bool,
    /// The limits.
    pub settings: Settings,
    /// The name of the file to read, or `None` for standard input.
    pub file: Option<String>,
}

/// A job over one input, or over files whose names are in its lines.
#[derive(Debug, Drop)]
pub struct Jobs {
    /// The job. It has no file if there are named ones.
    pub job: Job,
    /// The names of these files. The job is done over each of them, one after the other. Without any
    /// it is done once, over its own input.
    pub named_files: Vec<String>,
}

/// Why the program's words name no job.
#[derive(Debug, Drop)]
pub enum JobFault {
    /// They ask for help or for the version, and this is the text.
    Help { text: String },
    /// There is a mistake in them, and this is the text for the user.
    Usage { text: String },
    /// The text of a path is not a path. `at` is the first byte, counted from 0, at which it
    /// stops being a prefix of a path's text. If all of it is such a prefix, `at` is its length.
    Path { at: usize },
    /// An allocation failed.
    Memory,
}
