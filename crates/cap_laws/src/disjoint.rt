//! When no word of a message is used by two of its pointers.

ghost use Rattle.std.specs.Prelude.{ℕ, List, ◌≡◌, ◌+◌, ◌<◌, ◌↔◌, sum};
ghost use Rattle.cap_spec.specs.declared.Step.{Step};
ghost use Rattle.cap_spec.specs.Denoting.{Denotes};
ghost use Rattle.cap_spec.specs.Frames.{sizes_of};
ghost use Rattle.cap_spec.specs.Occupying.{IsDisjoint, IsFirstOverlap, Occupies, Overlaps, empty_count};
ghost use Rattle.cap_spec.specs.Tree.{Tree};

/// Following a pointer word uses one list of places.
pub fn one_list_of_places()
    ensures { (m : List (List ℕ)) (s w : ℕ) (used other : List (ℕ × ℕ)) →
        Occupies m s w used → Occupies m s w other → used ≡ other }
{}

/// A message is disjoint exactly where no pointer overlaps: none that a path reaches uses a place
/// twice, that of the root word, or one that an earlier pointer uses.
pub fn disjoint_where_none_overlaps()
    ensures { (m : List (List ℕ)) → IsDisjoint m ↔ ((path : List Step) → ¬ Overlaps m path) }
{}

/// The first pointer in preorder that overlaps is one, and so is the number of pointer words up to it.
pub fn one_first_overlap()
    ensures { (m : List (List ℕ)) (s w n s' w' n' : ℕ) →
        IsFirstOverlap m s w n → IsFirstOverlap m s' w' n' → (s ≡ s') × (w ≡ w') × (n ≡ n') }
{}

/// What a disjoint message is charged, but for the elements that take no bits or no words, is less than
/// the words of all its segments.
pub fn charge_is_less_than_words()
    ensures { (m : List (List ℕ)) (t : Tree) (c d : ℕ) →
        Denotes m 0 0 t c d → IsDisjoint m → c < sum (sizes_of m) + empty_count t }
{}
