//! What a message's root denotes, and how a message may be refused.

ghost use Rattle.std.specs.Prelude.{ℕ, List, ◌≡◌, ◌≤◌, ◌<◌, ◌+◌, ◌↔◌};
ghost use Rattle.cap_spec.specs.Lists.{IsOneOf, AreDistinct};
ghost use Rattle.cap_spec.specs.declared.Step.{Step};
ghost use Rattle.cap_spec.specs.declared.Reason.{Reason};
ghost use Rattle.cap_spec.specs.declared.Refusal.{Refusal};
ghost use Rattle.cap_spec.specs.Accepting.{IsWithin};
ghost use Rattle.cap_spec.specs.Following.{Wrong};
ghost use Rattle.cap_spec.specs.Tree.{Tree};
ghost use Rattle.cap_spec.specs.Denoting.{Denotes, levels_below};
ghost use Rattle.cap_spec.specs.Paths.{Reaches, Rises};
ghost use Rattle.cap_spec.specs.Faults.{IsFaultAt, IsFirstFault, IsRefused};
ghost use Rattle.cap_spec.specs.Getting.{AreOnPath, AreShallow, Charges, IsRefusedOnPath};
ghost use Rattle.cap_spec.specs.Verdicts.{CostOf, Justified};
ghost use Rattle.cap_laws.specs.ReachingLaws.{ReachesObject, ReachesSome};

/// The charge of the root's tree is what following the pointer words that its paths reach costs,
/// each path counted once; so distinct paths cost at most the charge.
pub fn charge_is_cost_of_paths()
    ensures all { (m : List (List ℕ)) (t : Tree) (c d : ℕ) → Denotes m 0 0 t c d →
        (paths : List (List Step)) × Rises paths × CostOf m paths c
        × ((q : List Step) → IsOneOf q paths ↔ ReachesSome m q) }
    ensures some { (m : List (List ℕ)) (t : Tree) (c d : ℕ) → Denotes m 0 0 t c d →
        (paths : List (List Step)) (cost : ℕ) → AreDistinct paths → CostOf m paths cost → cost ≤ c }
{}

/// If the root denotes a tree, nothing is wrong at a pointer word that a path reaches. No path
/// leads to an object past the depth of the tree. Some path leads as deep, unless that is 0.
pub fn reached_pointers_of_tree()
    ensures right { (m : List (List ℕ)) (t : Tree) (c d : ℕ) → Denotes m 0 0 t c d →
        (p : List Step) (level s w : ℕ) (v : Reason) → Reaches m p level s w → ¬ Wrong m s w v }
    ensures shallow { (m : List (List ℕ)) (t : Tree) (c d : ℕ) → Denotes m 0 0 t c d →
        (p : List Step) (level q tag : ℕ) → ReachesObject m p level q tag →
        level + levels_below q tag ≤ d }
    ensures deepest { (m : List (List ℕ)) (t : Tree) (c d : ℕ) → Denotes m 0 0 t c d → 0 < d →
        (p : List Step) × (level q tag : ℕ) × ReachesObject m p level q tag
        × (d ≡ level + levels_below q tag) }
{}

/// A message whose root denotes a tree within the limits has no justified refusal.
pub fn tree_within_limits_is_not_refused()
    ensures { (m : List (List ℕ)) (words depth : ℕ) (refusal : Refusal) →
        IsWithin m words depth → ¬ Justified m words depth refusal }
{}

/// A refusal at the first fault is justified: its place is reached, and its reason holds there. The
/// paths before it in preorder keep to the limits, and a fault after such paths is the first.
pub fn refused_is_justified()
    ensures justified { (m : List (List ℕ)) (words depth : ℕ) (refusal : Refusal) →
        IsRefused m words depth refusal → Justified m words depth refusal }
    ensures kept { (m : List (List ℕ)) (words depth : ℕ) (refusal : Refusal) →
        (f : IsFirstFault m words depth refusal) →
        (f.fault.charge ≤ words) × AreShallow m depth f.fault.before }
    ensures first { (m : List (List ℕ)) (words depth : ℕ) (path : List Step) (refusal : Refusal) →
        (f : IsFaultAt m words depth path refusal) → f.charge ≤ words →
        AreShallow m depth f.before → refusal.pointers ≤ words + 1 →
        IsFirstFault m words depth refusal }
{}

/// A message isn't both accepted and refused under the same limits: where the root denotes a tree
/// within them, there is no first fault.
pub fn accepted_is_not_refused()
    ensures { (m : List (List ℕ)) (words depth : ℕ) (refusal : Refusal) →
        IsWithin m words depth → ¬ IsRefused m words depth refusal }
{}

/// A message is refused in one way: of two refusals under the same limits, each at the first fault,
/// the places, the reasons and the numbers of pointers are equal. So, with `one_tree` and
/// `one_tour`, the verdict is a function of the message and the limits.
pub fn refused_in_one_way()
    ensures { (m : List (List ℕ)) (words depth : ℕ) (r other : Refusal) →
        IsRefused m words depth r → IsRefused m words depth other → r ≡ other }
{}

/// The pointers on a path are one list: the beginnings of the path that reach a pointer word, the
/// shortest first.
pub fn pointers_on_path_are_one_list()
    ensures { (m : List (List ℕ)) (path : List Step) (ways other : List (List Step)) →
        AreOnPath m path ways → AreOnPath m path other → ways ≡ other }
{}

/// A path isn't both charged and refused: where the pointers on it, the root's among them, are within
/// a budget and a depth limit, there is no first fault on it.
pub fn charged_path_is_not_refused()
    ensures { (m : List (List ℕ)) (words depth : ℕ) (path : List Step) (left : ℕ)
        (refusal : Refusal) → Charges m words depth path left →
        ¬ IsRefusedOnPath m words depth path refusal }
{}
