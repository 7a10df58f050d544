//! Theorems about the JSON objects of the option --json: each line reads back as its fields, by what
//! `serde_json` reads. Each is the contract of a public function with an empty body.
#![tactic(auto)]

ghost use Rattle.cap_explain.specs.Meanings.{HasTrueReason};
ghost use Rattle.cap_json_laws.specs.JsonFields.{Fits, HasCycleNumbers, HasNumbers, HasDifferencePlace, IsLineOf, IsUnescaped, accepted_value, canonical_fields, check_value, explained_value, filter_fields, hash_value, no_form_value, verdict_value};
ghost use Rattle.cap_difference.specs.declared.difference.Difference.{Difference};
ghost use Rattle.cap_difference.specs.declared.reason.DifferenceReason.{DifferenceReason};
ghost use Rattle.cap_explain.specs.Sentences.{difference_sentence};
ghost use Rattle.cap_text.specs.DifferenceLines.{canonical_members};
ghost use Rattle.cap_text.specs.JsonLines.{accepted_json, check_json, explained_json, filter_member, hash_json, no_form_json, verdict_json};
ghost use Rattle.cap_spec.specs.SpecNames.{refused, strict_verdict};
ghost use Rattle.cap_spec.specs.Texts.{accepted};
ghost use Rattle.cap_spec.specs.declared.Step.{Step};
ghost use Rattle.cap_spec.specs.declared.StrictRefusal.{StrictRefusal};
ghost use Rattle.cap_trace.specs.declared.returning.Cycle.{Cycle};
ghost use Rattle.std.specs.List.{AllByRecursion};
ghost use Rattle.std.specs.Prelude.{Bool, List, Option, [], codes, ℕ, ◌++◌, ◌<◌};

/// The line of an accepted message reads back as its number, its verdict and the numbers of its
/// tree.
pub fn accepted_reads_back()
    ensures { (n c d p k : ℕ) → let v = accepted c d p k in Fits n → HasNumbers v →
        IsLineOf (verdict_json n v) (verdict_value n v) }
{}

/// The line of a refused message reads back as its number, its verdict, the name of the reason, and
/// the place and the number of the pointer, if one is refused.
pub fn refused_reads_back()
    ensures { (n : ℕ) (fault : StrictRefusal) → let v = strict_verdict fault in
        Fits n → HasNumbers v → IsLineOf (verdict_json n v) (verdict_value n v) }
{}

/// The line of a message that uses a word twice reads back in the same way.
pub fn overlap_reads_back()
    ensures { (n s w p : ℕ) → let v = refused (codes "Overlap") s w p in
        Fits n → HasNumbers v → IsLineOf (verdict_json n v) (verdict_value n v) }
{}

/// The line of `check` reads back as whether the message is canonical.
pub fn check_reads_back()
    ensures { (n : ℕ) (canonical : Bool) → Fits n →
        IsLineOf (check_json n canonical) (check_value n canonical) }
{}

/// The line of `hash` reads back as the digits of the hash.
pub fn hash_reads_back()
    ensures { (n : ℕ) (hash : List ℕ) → Fits n → AllByRecursion (λ b. b < 256) hash →
        IsLineOf (hash_json n hash) (hash_value n hash) }
{}

/// The line of a message without a canonical form reads back as the place of its first capability.
pub fn no_form_reads_back()
    ensures { (n s w : ℕ) → Fits n → Fits s → Fits w →
        IsLineOf (no_form_json n s w) (no_form_value n s w) }
{}

/// The line of `explain` about a refused message reads back as its fields, if its sentence has no byte
/// that JSON escapes. The fields are the number, the verdict, the name of the reason, and the place and
/// the number of the pointer. Then come the path to it, the sentence, and the last cycle of the path, if there
/// is one. If no pointer is refused, there is no place. There is no path if none is given, or if it has
/// more than 257 steps. JSON escapes no byte of a path.
pub fn explained_reads_back()
    ensures { (n : ℕ) (fault : StrictRefusal) (path : Option (List Step)) (sentence : List ℕ)
        (cycle : Option Cycle) → let v = strict_verdict fault in
        Fits n → HasNumbers v → IsUnescaped sentence → HasCycleNumbers cycle →
        IsLineOf (explained_json n v path sentence cycle) (explained_value n v path sentence cycle) }
{}

/// The line of `explain` about a message that uses a word twice reads back in the same way, with such a
/// sentence.
pub fn explained_overlap_reads_back()
    ensures { (n s w p : ℕ) (path : Option (List Step)) (sentence : List ℕ) →
        let v = refused (codes "Overlap") s w p in Fits n → HasNumbers v → IsUnescaped sentence →
        IsLineOf (explained_json n v path sentence None) (explained_value n v path sentence None) }
{}

/// The line of `explain` about an accepted message reads back as its number, its verdict, the numbers of
/// its tree, and the fields of the member `filter`. If `filter`, the guard and the libraries accept the
/// message, there is no such member. Its fields are those of a refusal, with such a sentence.
pub fn explained_accepted_reads_back()
    ensures passes { (n c d p k : ℕ) → Fits n → HasNumbers (accepted c d p k) →
        IsLineOf (accepted_json n c d p k []) (accepted_value n c d p k []) }
    ensures is_filtered { (n c d p k : ℕ) (fault : StrictRefusal) (path : Option (List Step))
        (sentence : List ℕ) → let v = strict_verdict fault in Fits n →
        HasNumbers (accepted c d p k) → HasNumbers v → IsUnescaped sentence →
        IsLineOf (accepted_json n c d p k (filter_member v path sentence))
        (accepted_value n c d p k (filter_fields v path sentence)) }
{}

/// The line of `explain --canonical` about an accepted message reads back in the same way, with
/// whether the message is canonical before the member `filter`. If it isn't, there are the fields
/// of the first difference: its reason, the place and the number of the pointer, the path to it and
/// a sentence.
pub fn explained_canonical_reads_back()
    ensures passes { (n c d p k : ℕ) (found : Option Difference) (path : Option (List Step))
        (sentence : List ℕ) → Fits n → HasNumbers (accepted c d p k) → HasDifferencePlace found →
        IsUnescaped sentence →
        IsLineOf (accepted_json n c d p k (canonical_members found path sentence ++ []))
        (accepted_value n c d p k (canonical_fields found path sentence)) }
    ensures is_filtered { (n c d p k : ℕ) (found : Option Difference) (path : Option (List Step))
        (sentence : List ℕ) (fault : StrictRefusal) (other : Option (List Step)) (why : List ℕ) →
        let v = strict_verdict fault in Fits n → HasNumbers (accepted c d p k) → HasDifferencePlace found →
        IsUnescaped sentence → HasNumbers v → IsUnescaped why →
        IsLineOf (accepted_json n c d p k (canonical_members found path sentence
        ++ filter_member v other why))
        (accepted_value n c d p k (canonical_fields found path sentence ++ filter_fields v other why)) }
{}

/// JSON escapes no byte of a sentence that `explain` gives as the reason.
pub fn sentences_are_unescaped()
    ensures { (m : List (List ℕ)) (words depth s w : ℕ) (lines : List ℕ) →
        (reason : HasTrueReason m words depth s w lines) → IsUnescaped reason.sentence }
{}

/// JSON escapes no byte of the sentence of a difference.
pub fn difference_sentences_are_unescaped()
    ensures { (reason : DifferenceReason) → IsUnescaped (difference_sentence reason) }
{}
