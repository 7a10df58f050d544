//! Words in their packed spellings.

ghost use Rattle.cap_laws.specs.PackingLaws.{CutAsComputed, EndsByGroups, GroupHasEnds, OneUnpacking, PackedByGroups, UnpacksAsComputed};
ghost use Rattle.cap_spec.specs.Packing.{pack_text};
ghost use Rattle.cap_spec.specs.Unpacking.{Unpacks, packed_is_cut, unpacked};
ghost use Rattle.cap_spec.specs.Words.{IsWord};
ghost use Rattle.std.specs.List.{AllByRecursion};
ghost use Rattle.std.specs.Prelude.{List, false, ℕ, ◌<◌, ◌≡◌};

/// Each list of bytes is a packed text of words, or is cut inside a group after words that it
/// gives. Exactly one of the two holds, for exactly one list of words.
pub fn one_unpacking()
    ensures { OneUnpacking }
{}

/// Bytes are a packed text of words just where `packed_is_cut` says no and `unpacked` gives these
/// words.
pub fn unpacks_as_computed()
    ensures { UnpacksAsComputed }
{}

/// Bytes are cut inside a group just where `packed_is_cut` says so, and give then the words that
/// `unpacked` gives.
pub fn cut_as_computed()
    ensures { CutAsComputed }
{}

/// The one packed encoding that is written is a packed text of its words.
pub fn pack_text_unpacks()
    ensures { (words : List ℕ) → AllByRecursion IsWord words → Unpacks (pack_text words) words }
{}

/// What packed bytes give are words: numbers below 2^64.
pub fn unpacked_are_words()
    ensures { (bytes : List ℕ) → AllByRecursion (λ b. b < 256) bytes →
        AllByRecursion IsWord (unpacked bytes) }
{}

/// A packed text of words is a list of bytes.
pub fn unpacks_are_bytes()
    ensures { (bytes words : List ℕ) → Unpacks bytes words → AllByRecursion (λ b. b < 256) bytes }
{}

/// The one packed encoding, group by group: first the group that takes the longest prefix of the
/// words, and then the encoding of the words after it.
pub fn packed_by_groups()
    ensures { PackedByGroups }
{}

/// The one packed encoding of words gives exactly these words, and isn't cut.
pub fn pack_text_reads_back()
    ensures { (words : List ℕ) → AllByRecursion IsWord words →
        (unpacked (pack_text words) ≡ words) × (packed_is_cut (pack_text words) ≡ false) }
{}

/// A group has as many positions as words.
pub fn group_has_ends()
    ensures { GroupHasEnds }
{}

/// The positions after the words of packed bytes, and at their end, group by group: those of the
/// words of the first group, and then those after it. If the bytes are cut inside a group, they are
/// those of the words that it gives, and then that of the whole input.
pub fn ends_by_groups()
    ensures { EndsByGroups }
{}
