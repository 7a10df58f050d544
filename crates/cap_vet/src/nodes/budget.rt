//! The words that charged getters may spend.

ghost use Rattle.cap_vet.specs.Budgets.{left_of};
ghost use Rattle.std.specs.Prelude.{◌≡◌};

/// A number of words that getters may still charge.
#[derive(Clone, Copy, Debug, PartialEq, Eq, Drop)]
pub struct Budget {
    pub(crate) words: u64,
}

impl Budget {
    /// A budget of `words` words.
    pub fn new(words: u64) -> Budget
        ensures { left_of result ≡ words }
    {
        Budget { words }
    }

    /// How many words are left.
    pub fn left(&self) -> u64
        ensures { result ≡ left_of self.now }
    {
        self.words
    }
}
