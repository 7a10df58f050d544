//! How large a message may be, and why no message was read.

ghost use Rattle.cap_frame.specs.ReadingFaults.{frame_fault_of};
ghost use Rattle.cap_spec.specs.GreatestLimits.{most_words};
ghost use Rattle.std.specs.Prelude.{◌≡◌, ◌≤◌, ◌↔◌, IfSome, IsSome};

use cap_words::SourceFault;

/// The most words that a limit of a message's words, or of its charge, may allow.
pub const MOST_WORDS: u64 = 268435456;

/// The most words that a message may have in all its segments together, at most 268435456.
#[derive(Clone, Copy, Debug, PartialEq, Eq, Drop)]
pub struct SizeLimit {
    words: u64,
    ghost within: { words ≤ most_words },
}

impl SizeLimit {
    ghost use Rattle.cap_frame.specs.Limit.{limit_of};

    /// A limit of `words` words, or `None` past 268435456.
    pub fn new(words: u64) -> Option<SizeLimit>
        ensures some { IsSome result ↔ (words ≤ most_words) }
        ensures words { IfSome result (λ limit. limit_of limit ≡ words) }
    {
        if words <= MOST_WORDS {
            Some(SizeLimit { words })
        } else {
            None
        }
    }

    /// How many words, at most 268435456.
    pub fn words(self) -> u64
        ensures words { result ≡ limit_of self }
        ensures within { result ≤ most_words }
    {
        self.words
    }
}

/// Why a source of words gave no message.
#[derive(Clone, Copy, Debug, PartialEq, Eq, Drop)]
pub enum FrameFault {
    /// The first word gives `count` segments, more than 512. It was taken from the source, and no
    /// more.
    TooManySegments { count: u64 },
    /// The table's sizes sum to `words` words, more than the limit. The table was taken from the
    /// source, and no more.
    TooLarge { words: u64 },
    /// The source ended inside the message. `byte` is its position then.
    Truncated { byte: u64 },
    /// The device of the source failed in this call.
    Device,
    /// An allocation failed. The table was taken from the source, and no more.
    Memory,
    /// An earlier fault has ended the source.
    Spent,
}

/// Why bytes begin with no message.
#[derive(Clone, Copy, Debug, PartialEq, Eq, Drop)]
pub enum FrontFault {
    /// The first word gives `count` segments, more than 512.
    TooManySegments { count: u64 },
    /// The table's sizes sum to `words` words, more than the limit.
    TooLarge { words: u64 },
    /// The bytes end inside the message. To learn more, there must be `needed` bytes: 8, then those
    /// of the table, then those of the whole frame.
    Truncated { needed: u64 },
}

/// What a fault of the source is to the reading of a message.
pub(crate) fn frame_fault(fault: SourceFault) -> FrameFault
    ensures { result ≡ frame_fault_of fault }
{
    match fault {
        SourceFault::Truncated { byte } => FrameFault::Truncated { byte },
        SourceFault::Device => FrameFault::Device,
        SourceFault::Spent => FrameFault::Spent,
    }
}
