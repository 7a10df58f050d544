//! The limits of a call.

use cap_frame::MOST_WORDS;
use cap_vet::Demands;

/// The highest sum of flags: 1 and 2.
const ALL_FLAGS: u32 = 3;

/// The form of an input that starts with a message.
const PREFIX: u32 = 1;

/// The form of an input that is the words of one segment.
const WORDS: u32 = 2;

/// The limits of a call, laid out as C has them. Any numbers make one. A call returns
/// [`crate::Answer::BadLimits`] for a number above its maximum, a flag or a form that it doesn't know,
/// or a reserved field that isn't 0.
#[repr(C)]
#[derive(Clone, Copy, Debug, PartialEq, Eq)]
pub struct CallLimits {
    /// Most words in all segments: at most 268435456.
    pub message_words: u64,
    /// Highest charge in words: at most 268435456.
    pub charge: u64,
    /// Deepest level of an object: at most 256.
    pub depth: u32,
    /// What else is allowed, as a sum. 1: a message that isn't strict. 2: a charge of more than 4096
    /// words above the words of the segments.
    pub flags: u32,
    /// What the input is. 0: a message and nothing else. 1: bytes that start with a message. 2: the
    /// words of one segment, without a table. Only [`crate::vet`],
    /// [`crate::vet_exclusive`], [`crate::canonical`], [`crate::check_canonical`],
    /// [`crate::pointer_path`], [`crate::earlier_pointer`] and [`crate::explain`] know it.
    /// [`crate::check_canonical_words`] has the form 2, whatever this field is.
    pub form: u32,
    /// It has to be 0.
    pub padding: u32,
    /// They have to be 0.
    pub reserved: [u64; 6],
}

impl CallLimits {
    ghost use Rattle.cap_calls.specs.CallFlags.{HasKnownFlags, HasNoReserved, HasWordFlags, allows_trailing, charge_limit, copy_limits, default_limits, demands_of, has_no_table};
    ghost use Rattle.cap_spec.specs.Frames.{sizes_of};
    ghost use Rattle.std.specs.Prelude.{◌≡◌, Decides, List, sum, ℕ};

    /// The limits of `CAPVET_LIMITS_INIT` in the header: 8388608 words in all segments, a charge of
    /// as many, 64 levels, no flags, and a message and nothing else.
    pub fn default_limits() -> CallLimits
        ensures { result ≡ default_limits }
    {
        CallLimits {
            message_words: 8388608,
            charge: 8388608,
            depth: 64,
            flags: 0,
            form: 0,
            padding: 0,
            reserved: [0; 6],
        }
    }

    // The limits for the words of a canonical copy: of an input without a table, which may be amplified,
    // and may have one word more than the limit of the charge.
    pub(crate) fn of_copy(&self) -> CallLimits
        ensures { result ≡ copy_limits self.now }
    {
        let most = self.charge.min(MOST_WORDS - 1) + 1;
        CallLimits {
            message_words: self.message_words.max(most),
            flags: self.flags / 4 * 4 + 2 + self.flags % 2,
            form: self.form.max(WORDS),
            ..*self
        }
    }

    // Whether its reserved fields are 0. Each is looked at by itself, since a comparison of all would be
    // a call of the C library.
    #[inline]
    fn has_no_reserved(&self) -> bool
        ensures { Decides result (HasNoReserved self.now) }
    {
        self.padding == 0
            && self.reserved[0] == 0
            && self.reserved[1] == 0
            && self.reserved[2] == 0
            && self.reserved[3] == 0
            && self.reserved[4] == 0
            && self.reserved[5] == 0
    }

    // Whether it has no flag that is unknown, the input is or starts with a message, and its reserved
    // fields are 0.
    #[inline]
    pub(crate) fn has_known_flags(&self) -> bool
        ensures { Decides result (HasKnownFlags self.now) }
    {
        self.flags <= ALL_FLAGS && self.form <= PREFIX && self.has_no_reserved()
    }

    // Whether it has no flag that is unknown, the input is words, and its reserved fields are 0.
    #[inline]
    pub(crate) fn has_word_flags(&self) -> bool
        ensures { Decides result (HasWordFlags self.now) }
    {
        self.flags <= ALL_FLAGS && self.form == WORDS && self.has_no_reserved()
    }

    // Whether the input is the words of one segment.
    #[inline]
    pub(crate) fn has_no_table(&self) -> bool
        ensures { result ≡ has_no_table self.now }
    {
        self.form == WORDS
    }

    // Whether bytes may follow the message.
    #[inline]
    pub(crate) fn allows_trailing(&self) -> bool
        ensures { result ≡ allows_trailing self.now }
    {
        self.form == PREFIX
    }

    // The highest charge of a message whose segments have this many words.
    #[inline]
    pub(crate) fn charge_limit(&self, words: u64) -> u64
        ensures { (m : List (List ℕ)) → words ≡ sum (sizes_of m) → result ≡ charge_limit self.now m }
    {
        if self.demands().unamplified {
            self.charge.min(words.saturating_add(4096))
        } else {
            self.charge
        }
    }

    // What else a message has to meet.
    #[inline]
    pub(crate) fn demands(&self) -> Demands
        ensures { result ≡ demands_of self.now }
    {
        Demands {
            strict: self.flags % 2 == 0,
            unamplified: self.flags / 2 % 2 == 0,
        }
    }
}
