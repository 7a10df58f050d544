//! Words in their plain encoding, eight bytes each.

ghost use Rattle.cap_laws.specs.PlainLaws.{CutWithRest, OneSplit};
ghost use Rattle.cap_spec.specs.Plain.{plain_text, plain_words};
ghost use Rattle.cap_spec.specs.Words.{IsWord};
ghost use Rattle.std.specs.List.{AllByRecursion};
ghost use Rattle.std.specs.Prelude.{List, ℕ, ◌≡◌};

/// Each list of bytes is the plain encoding of exactly one list of words, and then exactly one
/// list of less than eight bytes: the words that `plain_words` gives, and what follows them.
pub fn one_split()
    ensures { OneSplit }
{}

/// The bytes end inside a word, by `plain_is_cut`, exactly if something is left after the words.
pub fn cut_with_rest()
    ensures { CutWithRest }
{}

/// The plain encoding of words reads back as these words.
pub fn plain_reads_back()
    ensures { (words : List ℕ) → AllByRecursion IsWord words →
        plain_words (plain_text words) ≡ words }
{}
