//! The word limit that follows from what was sent.

ghost use Rattle.std.specs.Prelude.{ℕ, List, [], ◌∷◌, ◌≡◌, ◌≤◌, ◌+◌, ◌⊎◌, ◌↔◌, length, sum};
ghost use Rattle.cap_spec.specs.declared.Reason.TheVariants.{WordLimit};
ghost use Rattle.cap_spec.specs.declared.Refusal.{Refusal};
ghost use Rattle.cap_spec.specs.Copies.{HasCopy};
ghost use Rattle.cap_spec.specs.Denoting.{Denotes};
ghost use Rattle.cap_spec.specs.Faults.{IsRefused};
ghost use Rattle.cap_spec.specs.Frames.{frame_text, sizes_of};
ghost use Rattle.cap_spec.specs.Occupying.{IsDisjoint, empty_count};
ghost use Rattle.cap_spec.specs.Tree.{Tree};
ghost use Rattle.cap_spec.specs.Unamplified.{unamplified};
ghost use Rattle.cap_laws.specs.AmplifyingLaws.{IsWithinEach, IsWithinNone};

/// A charge is within this limit exactly if it is within the word limit that was given, and is at
/// most the words of the message's segments and 4,096 more.
pub fn unamplified_charge_is_bounded()
    ensures { (m : List (List ℕ)) (words c : ℕ) →
        (c ≤ unamplified m words) ↔ ((c ≤ words) × (c ≤ sum (sizes_of m) + 4096)) }
{}

/// A message that uses no word twice, and has at most 4,097 list elements without bits or words, is
/// within this limit if it is within the word limit that was given.
pub fn disjoint_is_unamplified()
    ensures { (m : List (List ℕ)) (t : Tree) (c d words : ℕ) → Denotes m 0 0 t c d →
        IsDisjoint m → empty_count t ≤ 4097 → c ≤ words → c ≤ unamplified m words }
{}

/// What is refused under this limit alone is refused for its charge. Under the limit that was given
/// the refusal is the same, or its reason is `WordLimit`.
pub fn unamplified_adds_word_limits()
    ensures { (m : List (List ℕ)) (words depth : ℕ) (refusal : Refusal) →
        IsRefused m (unamplified m words) depth refusal →
        IsRefused m words depth refusal ⊎ (refusal.reason ≡ WordLimit) }
{}

/// The canonical copy of an unamplified message has at most 4,097 words more than its segments. The
/// frame of the copy has at most 4,097 words more than the message's.
pub fn unamplified_copy_is_short()
    ensures words { (m : List (List ℕ)) (words : List ℕ) (limit : ℕ) (copy : HasCopy m words) →
        copy.charge ≤ unamplified m limit → length words ≤ sum (sizes_of m) + 4097 }
    ensures frame { (m : List (List ℕ)) (words : List ℕ) (limit : ℕ) (copy : HasCopy m words) →
        copy.charge ≤ unamplified m limit →
        length (frame_text (words ∷ [])) ≤ length (frame_text m) + 4097 }
{}

/// The canonical copy of an unamplified message may be amplified. The charge of some message is
/// within this limit for each word limit that it is within. That of its copy is within it for none.
pub fn copy_may_be_amplified()
    ensures { (m : List (List ℕ)) × (words : List ℕ) × (copy : HasCopy m words)
        × IsWithinEach m copy.charge × IsWithinNone (words ∷ []) }
{}
