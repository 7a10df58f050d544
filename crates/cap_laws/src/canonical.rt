//! Trimmed trees and their layouts: the canonical form.

ghost use Rattle.std.specs.Prelude.{ℕ, List, [], ◌∷◌, length, ◌≡◌, ◌≤◌, ◌<◌, ◌+◌, ◌^◌, ◌↔◌};
ghost use Rattle.std.specs.List.{AllByRecursion};
ghost use Rattle.cap_spec.specs.Words.{IsWord};
ghost use Rattle.cap_spec.specs.Tree.{Tree, IsTree, has_cap};
ghost use Rattle.cap_spec.specs.Denoting.{Denotes};
ghost use Rattle.cap_spec.specs.Canonical.{layout, list_word, offsets, struct_word, trim};
ghost use Rattle.cap_spec.specs.Pointers.{code, data_size, kind, list_size, middle, pointer_size};
ghost use Rattle.cap_spec.specs.Copies.{HasCopy, IsCanonical};
ghost use Rattle.cap_laws.specs.TrimmingLaws.{Extends};

/// A trimmed tree has nothing left to trim, so that a canonical copy is its own canonical copy.
pub fn trimmed_once_is_enough()
    ensures tree { (t : Tree) → trim (trim t) ≡ trim t }
    ensures words { (t : Tree) → layout (trim (trim t)) ≡ layout (trim t) }
{}

/// What is left of a tree after trimming is a tree, and has a capability where the tree has one.
pub fn trimmed_tree_is_a_tree()
    ensures tree { (t : Tree) → IsTree t → IsTree (trim t) }
    ensures caps { (t : Tree) → has_cap (trim t) ≡ has_cap t }
{}

/// Trimming cuts zero data words and null pointers at the ends of structs, and changes nothing else:
/// the tree is the trimmed tree with some of these after the words and pointers of each struct. The
/// elements of a list of structs have as many more each. And trimming cuts all of these: a tree with
/// more of them is trimmed to the same tree.
pub fn trimming_cuts_zeros_and_nulls()
    ensures nothing_else { (t : Tree) → IsTree t → Extends t (trim t) }
    ensures all { (t u : Tree) → IsTree u → Extends t u → trim t ≡ trim u }
{}

/// The layout of what a word denotes, trimmed, has at most one word more than the word's charge.
pub fn layout_is_charged()
    ensures { (m : List (List ℕ)) (s w : ℕ) (t : Tree) (c d : ℕ) →
        Denotes m s w t c d → length (layout (trim t)) ≤ c + 1 }
{}

/// The layout of what a word denotes, trimmed, is a message of one segment. Its root denotes the
/// trimmed tree, at a charge no greater and at the same depth. So it passes under the limits that
/// the word passes under. Charges below 2^29 words, twice the greatest limit, keep each offset
/// within its 30 bits. (It holds with capabilities too, though such a tree has no canonical form.)
pub fn layout_denotes_trimmed_tree()
    ensures { (m : List (List ℕ)) (s w : ℕ) (t : Tree) (c d : ℕ) →
        Denotes m s w t c d → c < 2 ^ 29 →
        (c' : ℕ) × Denotes (layout (trim t) ∷ []) 0 0 (trim t) c' d × (c' ≤ c) }
{}

/// Two layouts of what words denote, trimmed, at charges below 2^29, are equal exactly where the
/// trimmed trees are.
pub fn one_layout()
    ensures { (m n : List (List ℕ)) (s w s' w' : ℕ) (t u : Tree) (c d c' d' : ℕ) →
        Denotes m s w t c d → Denotes n s' w' u c' d' → c < 2 ^ 29 → c' < 2 ^ 29 →
        (layout (trim t) ≡ layout (trim u)) ↔ (trim t ≡ trim u) }
{}

/// The layout of what a word of a message of words denotes, trimmed, at a charge below 2^29, has
/// words alone: each number in it is below 2^64.
pub fn layout_is_words()
    ensures { (m : List (List ℕ)) (s w : ℕ) (t : Tree) (c d : ℕ) →
        AllByRecursion (AllByRecursion IsWord) m → Denotes m s w t c d → c < 2 ^ 29 →
        AllByRecursion IsWord (layout (trim t)) }
{}

/// A pointer word of a layout keeps the fields that it is made from, where each fits its bits. The word
/// of a struct has its offset and its two sizes, and that of a list its offset, its code and its size.
/// So no field runs into another.
pub fn pointer_fields_are_kept()
    ensures of_struct { (offset d p : ℕ) → offset < 2 ^ 30 → d < 2 ^ 16 → p < 2 ^ 16 →
        let q = struct_word offset d p in
        (kind q ≡ 0) × (middle q ≡ offset) × (data_size q ≡ d) × (pointer_size q ≡ p) }
    ensures of_list { (offset c n : ℕ) → offset < 2 ^ 30 → c < 8 → n < 2 ^ 29 →
        let q = list_word offset c n in
        (kind q ≡ 1) × (middle q ≡ offset) × (code q ≡ c) × (list_size q ≡ n) }
{}

/// Each pointer of the layout of what a word denotes, trimmed, at a charge below 2^29, is made from an
/// offset that fits 30 bits, one of which is the sign.
pub fn offsets_fit()
    ensures { (m : List (List ℕ)) (s w : ℕ) (t : Tree) (c d : ℕ) →
        Denotes m s w t c d → c < 2 ^ 29 →
        AllByRecursion (λ offset. offset < 2 ^ 29) (offsets (trim t)) }
{}

/// A message has at most one canonical copy.
pub fn one_copy()
    ensures { (m : List (List ℕ)) (xs ys : List ℕ) → HasCopy m xs → HasCopy m ys → xs ≡ ys }
{}

/// The canonical copy of a message, of a charge below 2^29, is a message of one segment that is
/// canonical.
pub fn copy_is_canonical()
    ensures { (m : List (List ℕ)) (words : List ℕ) (copy : HasCopy m words) →
        copy.charge < 2 ^ 29 → IsCanonical (words ∷ []) }
{}

/// Two messages of charges below 2^29 have equal canonical copies exactly where their trees, trimmed,
/// are equal.
pub fn equal_copies()
    ensures { (m n : List (List ℕ)) (xs ys : List ℕ) (x : HasCopy m xs) (y : HasCopy n ys) →
        x.charge < 2 ^ 29 → y.charge < 2 ^ 29 → (xs ≡ ys) ↔ (trim x.tree ≡ trim y.tree) }
{}
