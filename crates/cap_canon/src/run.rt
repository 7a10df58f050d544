//! A run of pointer words that a walk still has to look at.

ghost use Rattle.cap_canon.specs.CopyRuns.{AreShort, IsFull, IsCopyRest, places_of, run_kept};

/// A pointer word of the message, and the word of the copy that it becomes.
#[derive(Clone, Copy)]
pub(crate) struct PointerPlace {
    pub(crate) segment: u32,
    pub(crate) word: u32,
    pub(crate) slot: u32,
}

/// `left` pointer words from `at` on, which become those from `slot` on of the copy, and then
/// `pointers` of each of `more` further elements. From the last one of an element to the first one
/// of the next there are `skip` words between them, and `gap` words in the copy.
#[derive(Clone, Copy, Default)]
pub(crate) struct CopyRun {
    pub(crate) segment: u32,
    pub(crate) at: u32,
    pub(crate) slot: u32,
    pub(crate) left: u32,
    pub(crate) more: u32,
    pub(crate) skip: u32,
    pub(crate) gap: u32,
    pub(crate) pointers: u32,
}

impl CopyRun {
    /// Goes on after the first pointer word. `false` if nothing is left.
    #[inline(always)]
    pub(crate) fn advance(&mut self) -> bool
        requires full { IsFull self.old }
        requires short { AreShort (places_of self.old) }
        ensures { IsCopyRest self.old (run_kept result self.new) }
    {
        if self.left > 1 {
            self.at += 1;
            self.slot += 1;
            self.left -= 1;
            return true;
        }
        if self.more > 0 {
            self.at = self.at + 1 + self.skip;
            self.slot = self.slot + 1 + self.gap;
            self.left = self.pointers;
            self.more -= 1;
            return true;
        }
        false
    }
}
