//! What pointer words denote.

ghost use Rattle.std.specs.Prelude.{ℕ, List, ◌≡◌, ◌≤◌, ◌+◌};
ghost use Rattle.std.specs.List.{AllByRecursion};
ghost use Rattle.cap_spec.specs.Words.{IsWord};
ghost use Rattle.cap_spec.specs.Following.{Lead, Leads};
ghost use Rattle.cap_spec.specs.Tree.{Tree, Trees, IsTree, pointer_count};
ghost use Rattle.cap_spec.specs.Denoting.{Denotes, DenoteEach, AreElements};
ghost use Rattle.cap_spec.specs.Paths.{Costs};

/// A pointer word denotes at most one tree, at one charge and one depth.
pub fn one_tree()
    ensures word { (m : List (List ℕ)) (s w : ℕ) (t t' : Tree) (c d c' d' : ℕ) →
        Denotes m s w t c d → Denotes m s w t' c' d' → (t ≡ t') × (c ≡ c') × (d ≡ d') }
    ensures words { (m : List (List ℕ)) (ps : List (ℕ × ℕ)) (ts ts' : Trees) (c d c' d' : ℕ) →
        DenoteEach m ps ts c d → DenoteEach m ps ts' c' d' → (ts ≡ ts') × (c ≡ c') × (d ≡ d') }
    ensures elements { (m : List (List ℕ)) (t b ds ps n : ℕ) (es es' : Trees) (c d c' d' : ℕ) →
        AreElements m t b ds ps n es c d → AreElements m t b ds ps n es' c' d' →
        (es ≡ es') × (c ≡ c') × (d ≡ d') }
{}

/// What a word denotes is charged at least its pads, and at least what following the word costs;
/// and that cost is one number.
pub fn own_cost_is_charged()
    ensures pads { (m : List (List ℕ)) (s w : ℕ) (t : Tree) (c d k : ℕ) (r : Lead) →
        Denotes m s w t c d → Leads m s w k r → k ≤ c }
    ensures costs { (m : List (List ℕ)) (s w : ℕ) (t : Tree) (c d : ℕ) →
        Denotes m s w t c d → (cost : ℕ) × Costs m s w cost × (cost ≤ c) }
    ensures one { (m : List (List ℕ)) (s w x y : ℕ) → Costs m s w x → Costs m s w y → x ≡ y }
{}

/// The pointers of the tree that a word denotes are at most its charge and one: each below the
/// root is a word of some object.
pub fn pointers_are_charged()
    ensures { (m : List (List ℕ)) (s w : ℕ) (t : Tree) (c d : ℕ) →
        Denotes m s w t c d → pointer_count t ≤ c + 1 }
{}

/// What a message of words denotes is a tree: its words are words, its values fit their elements,
/// and the elements of a struct list have its sizes.
pub fn denoted_is_tree()
    ensures { (m : List (List ℕ)) (s w : ℕ) (t : Tree) (c d : ℕ) →
        AllByRecursion (AllByRecursion IsWord) m → Denotes m s w t c d → IsTree t }
{}
