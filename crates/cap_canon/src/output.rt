//! What a canonical copy is written to.

ghost use Rattle.cap_canon.specs.Zeros.{zeros_put};
ghost use Rattle.cap_spec.specs.Denoting.{words_from};
ghost use Rattle.cap_spec.specs.Messages.{segment_of};
ghost use Rattle.cap_spec.specs.Words.{IsWord};
ghost use Rattle.std.specs.List.{AllByRecursion};
ghost use Rattle.std.specs.Prelude.{◌+◌, ◌++◌, ◌<◌, ◌≡◌, ◌≤◌, [], ◌∷◌, List, length, slice_set, ℕ};
ghost use Rattle.std.specs.Vec.{vec_capacity};

use cap_frame::Segments;

/// Words with capacity for more of them.
pub(crate) trait CopyOutput {
    // The words so far.
    ghost words: { Self → List ℕ };

    // The capacity in words, these words included.
    ghost capacity: { Self → ℕ };

    // The name of the borrow that is written through, where there is one.
    ghost borrow: { Self → ℕ };

    // What is there already from the word with this number on.
    ghost after: { Self → ℕ → List ℕ };

    /// Appends a word.
    fn push(&mut self, word: u64)
        requires { length (words self.old) < capacity self.old }
        ensures words { words self.new ≡ words self.old ++ word ∷ [] }
        ensures capacity { capacity self.new ≡ capacity self.old }
        ensures borrow { borrow self.new ≡ borrow self.old }
        ensures after { (n : ℕ) → length (words self.new) ≤ n →
            after self.new n ≡ after self.old n };

    /// Writes a word in place of one of them.
    fn set(&mut self, place: u32, word: u64)
        requires { place < length (words self.old) }
        ensures words { words self.new ≡ slice_set (words self.old) place word }
        ensures capacity { capacity self.new ≡ capacity self.old }
        ensures borrow { borrow self.new ≡ borrow self.old }
        ensures after { (n : ℕ) → length (words self.new) ≤ n →
            after self.new n ≡ after self.old n };

    /// Writes zeros in place of `count` of them in a row, from this one on.
    fn set_zeros(&mut self, place: u32, count: u32)
        requires { place + count ≤ length (words self.old) }
        ensures words { words self.new ≡ zeros_put place count (words self.old) }
        ensures capacity { capacity self.new ≡ capacity self.old }
        ensures borrow { borrow self.new ≡ borrow self.old }
        ensures after { (n : ℕ) → length (words self.new) ≤ n →
            after self.new n ≡ after self.old n };

    /// Appends words of a segment.
    fn append_from<M: Segments>(&mut self, message: &M, segment: u32, start: u32, count: u32)
        requires exists { segment < length (M.segments message.now) }
        requires inside { start + count ≤ length (segment_of (M.segments message.now) segment) }
        requires capacity { length (words self.old) + count ≤ capacity self.old }
        ensures words { words self.new
            ≡ words self.old ++ words_from (M.segments message.now) segment start count }
        ensures capacity { capacity self.new ≡ capacity self.old }
        ensures borrow { borrow self.new ≡ borrow self.old }
        ensures after { (n : ℕ) → length (words self.new) ≤ n →
            after self.new n ≡ after self.old n }
        ensures are_words { let m = M.segments message.now in
            AllByRecursion IsWord (words_from m segment start count) }
    {
        self.append_each(message, segment, start, count);
    }

    /// The same, word by word.
    fn append_each<M: Segments>(&mut self, message: &M, segment: u32, start: u32, count: u32)
        requires exists { segment < length (M.segments message.now) }
        requires inside { start + count ≤ length (segment_of (M.segments message.now) segment) }
        requires capacity { length (words self.old) + count ≤ capacity self.old }
        ensures words { words self.new
            ≡ words self.old ++ words_from (M.segments message.now) segment start count }
        ensures capacity { capacity self.new ≡ capacity self.old }
        ensures borrow { borrow self.new ≡ borrow self.old }
        ensures after { (n : ℕ) → length (words self.new) ≤ n →
            after self.new n ≡ after self.old n }
        ensures are_words { let m = M.segments message.now in
            AllByRecursion IsWord (words_from m segment start count) }
    {
        'words: for k in 0..count {
            self.push(message.word(segment, start + k));
        }
    }
}

impl CopyOutput for Vec<u64> {
    ghost words = { λ v. v.items };

    ghost capacity = { λ v. vec_capacity v };

    ghost borrow = { λ v. 0 };

    ghost after = { λ v n. [] };

    fn push(&mut self, word: u64) {
        self.push_reserved(word);
    }

    fn set(&mut self, place: u32, word: u64) {
        self[place as usize] = word;
    }

    fn set_zeros(&mut self, place: u32, count: u32) {
        let start = place as usize;
        self.as_mut_slice()[start..start + count as usize].fill(0);
    }
}
