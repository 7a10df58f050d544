//! What the hashes of two messages say of their contents.

ghost use Rattle.cap_run.specs.Hashing.{ReportsHash};
ghost use Rattle.cap_run.specs.declared.engines.stream.Counted.{Counted};
ghost use Rattle.cap_spec.specs.Canonical.{layout, trim};
ghost use Rattle.cap_spec.specs.Denoting.{Denotes};
ghost use Rattle.cap_spec.specs.Plain.{plain_text};
ghost use Rattle.cap_spec.specs.Tree.{Tree};
ghost use Rattle.cap_spec.specs.Words.{IsWord};
ghost use Rattle.std.specs.List.{AllByRecursion};
ghost use Rattle.std.specs.Prelude.{◌<◌, ◌^◌, ◌≡◌, Bool, List, ℕ};

/// Two messages of one number whose trees, trimmed, are equal have the same line with a hash. The
/// limits may differ, and so may the words and segments.
pub fn equal_contents_have_one_line()
    ensures { (n w d v e : ℕ) (m k : List (List ℕ)) (text line : List ℕ) (c b : Counted)
        (a : Bool) (x : ReportsHash a w d n m text c) (y : ReportsHash a v e n k line b) →
        trim x.tree ≡ trim y.tree → text ≡ line }
{}

/// Two messages of words, of charges below 2^29, whose trees, trimmed, differ have other bytes under
/// the hash. So if their hashes are equal, these bytes are a collision of SHA-256.
pub fn other_contents_have_other_bytes()
    ensures { (m k : List (List ℕ)) (t u : Tree) (c d c' d' : ℕ) →
        AllByRecursion (AllByRecursion IsWord) m → AllByRecursion (AllByRecursion IsWord) k →
        Denotes m 0 0 t c d → Denotes k 0 0 u c' d' → c < 2 ^ 29 → c' < 2 ^ 29 →
        plain_text (layout (trim t)) ≡ plain_text (layout (trim u)) → trim t ≡ trim u }
{}
