//! The limits of a walk through a message.

ghost use Rattle.cap_spec.specs.GreatestLimits.{most_depth, most_words};
ghost use Rattle.std.specs.Prelude.{◌≡◌, ◌≤◌, ◌↔◌, IfSome, IsSome, min};

use cap_frame::MOST_WORDS;

/// The deepest level that a depth limit may have.
const MOST_DEPTH: u32 = 256;

/// The most words that a walk may be charged, and the deepest level of an object
/// (encoding: Security Considerations).
#[derive(Clone, Copy, Debug, PartialEq, Eq)]
pub struct Limits {
    words: u64,
    depth: u32,
    ghost few: { words ≤ most_words },
    ghost shallow: { depth ≤ most_depth },
}

impl Limits {
    ghost use Rattle.cap_walk.specs.Limits.{depth_of, words_of};

    /// Limits of `words` words and `depth` levels, or `None` for more than 268435456 words or more
    /// than 256 levels.
    pub fn new(words: u64, depth: u32) -> Option<Limits>
        ensures some { IsSome result ↔ ((words ≤ most_words) × (depth ≤ most_depth)) }
        ensures holds { IfSome result (λ limits.
            (words_of limits ≡ words) × (depth_of limits ≡ depth)) }
    {
        if words > MOST_WORDS || depth > MOST_DEPTH {
            return None;
        }
        Some(Limits { words, depth })
    }

    /// How many words a walk may be charged, at most 268435456.
    pub fn words(&self) -> u64
        ensures value { result ≡ words_of self.now }
        ensures few { result ≤ most_words }
    {
        self.words
    }

    /// The deepest level that an object may have, at most 256.
    pub fn depth(&self) -> u32
        ensures value { result ≡ depth_of self.now }
        ensures shallow { result ≤ most_depth }
    {
        self.depth
    }

    /// The limits of 268435456 words and 256 levels, which no limits exceed.
    pub fn greatest() -> Limits
        ensures words { words_of result ≡ most_words }
        ensures depth { depth_of result ≡ most_depth }
    {
        Limits {
            words: MOST_WORDS,
            depth: MOST_DEPTH,
        }
    }

    /// The same depth limit, with a word limit of at most `words`.
    pub(crate) fn lowered(self, words: u64) -> Limits
        ensures words { words_of result ≡ min (words_of self) words }
        ensures depth { depth_of result ≡ depth_of self }
    {
        Limits {
            words: self.words.min(words),
            depth: self.depth,
        }
    }
}
