//! The walk over an accepted message, in preorder: one pointer word a turn.

ghost use Rattle.cap_canon.specs.AtRuns.{AtRun};
ghost use Rattle.cap_canon.specs.CopyRuns.{copy_root_run};
ghost use Rattle.cap_canon.specs.CopyTurns.{IsTurn, TurnKeeps};
ghost use Rattle.cap_canon.specs.Kept.{Kept};
ghost use Rattle.cap_canon.specs.Laying.{Due};
ghost use Rattle.cap_canon.specs.NullTurns.{AreNullTurns, GoesPast, null_slots, with_first};
ghost use Rattle.cap_canon.specs.Roots.{ForTrimmed, HasTree};
ghost use Rattle.cap_spec.specs.Canonical.{layout};
ghost use Rattle.cap_spec.specs.Messages.{HasWord, segment_of};
ghost use Rattle.cap_spec.specs.Tree.{Tree};
ghost use Rattle.std.specs.Prelude.{◌+◌, ◌++◌, ◌<◌, ◌^◌, ◌≡◌, ◌≤◌, [], ◌∷◌, List, length, ℕ};

use crate::objects::{Object, leads_to_null, object_at};
use crate::run::{CopyRun, PointerPlace};
use crate::stack::{Stack, go_on, own_words, run_of};
use cap_frame::Segments;
use cap_vet::nulls;

/// What a walk does at each object.
pub(crate) trait Pass {
    // Holds between two turns: of the message and the trimmed tree of its root, of the word of the
    // copy that the contents go on from, and of the pointer words that are due.
    ghost state: { Self → List (List ℕ) → Tree → ℕ → List Due → Type 0 };

    // What no turn in a walk over this trimmed tree changes.
    ghost kept: { Self → Tree → Kept };

    /// Takes a turn: the pointer word at `place` leads to `object`, and a copy has the words of the
    /// object itself from `end` on.
    fn visit<M: Segments>(&mut self, message: &M, object: &Object, place: PointerPlace, end: u32)
        requires { let m = M.segments message.now in (whole tree : Tree) × (due : List Due)
            × IsTurn m whole object.now place end tree due
            × state self.old m whole end (record { slot = place.slot; tree = tree } ∷ due) }
        ensures goes_on { let m = M.segments message.now in
            TurnKeeps m object.now place end (state self.old m) (state self.new m) }
        ensures kept { let m = M.segments message.now in (u t : Tree) (due : List Due) →
            IsTurn m u object.now place end t due →
            state self.old m u end (record { slot = place.slot; tree = t } ∷ due) →
            kept self.new u ≡ kept self.old u };

    /// Takes the turns at `count` null pointer words in a row, which become those from `slot` on of
    /// the copy.
    fn visit_nulls(&mut self, slot: u32, count: u32)
        requires { (m : List (List ℕ)) × (whole : Tree) × (end : ℕ) × (due : List Due)
            × AreNullTurns whole slot count end
            × state self.old m whole end (null_slots slot count ++ due) }
        ensures goes_on { (m : List (List ℕ)) (whole : Tree) (end : ℕ) (due : List Due) →
            AreNullTurns whole slot count end →
            state self.old m whole end (null_slots slot count ++ due) →
            state self.new m whole end due }
        ensures kept { (m : List (List ℕ)) (u : Tree) (end : ℕ) (due : List Due) →
            AreNullTurns u slot count end →
            state self.old m u end (null_slots slot count ++ due) →
            kept self.new u ≡ kept self.old u };
}

/// Walks a message of this depth. Returns how many words its canonical copy has. Each message
/// initializes its runs, so a walk that can't be deep has few of them. It isn't inlined: a caller that
/// walks twice has the stack of one walk at a time.
#[inline(never)]
pub(crate) fn walk<M: Segments, P: Pass>(message: &M, depth: u32, pass: &mut P) -> u32
    requires tree { HasTree (M.segments message.now) depth }
    requires start { let m = M.segments message.now in
        ForTrimmed m (λ u. P.state pass.old m u 1 (record { slot = 0; tree = u } ∷ [])) }
    ensures done { let m = M.segments message.now in
        ForTrimmed m (λ u. (result ≡ length (layout u)) × P.state pass.new m u result []) }
    ensures kept { ForTrimmed (M.segments message.now) (λ u.
        P.kept pass.new u ≡ P.kept pass.old u) }
{
    if depth <= 8 {
        return walk_within::<M, P, 8>(message, depth, pass);
    }
    if depth <= 64 {
        return walk_within::<M, P, 64>(message, depth, pass);
    }
    walk_within::<M, P, 256>(message, depth, pass)
}

// The same with capacity for `N` runs. The current run is beside the stack, so that a word with
// nothing below it costs no push and no pop. Zero words have turns of their own, which make no
// object: most words of a list may be zero.
fn walk_within<M: Segments, P: Pass, const N: usize>(message: &M, depth: u32, pass: &mut P) -> u32
    requires capacity { (depth ≤ N) × (N ≤ 256) }
    requires tree { HasTree (M.segments message.now) depth }
    requires start { let m = M.segments message.now in
        ForTrimmed m (λ u. P.state pass.old m u 1 (record { slot = 0; tree = u } ∷ [])) }
    ensures done { let m = M.segments message.now in
        ForTrimmed m (λ u. (result ≡ length (layout u)) × P.state pass.new m u result []) }
    ensures kept { ForTrimmed (M.segments message.now) (λ u.
        P.kept pass.new u ≡ P.kept pass.old u) }
{
    let mut stack: Stack<N> = Stack::new();
    let mut run = root();
    let mut end = 1;
    'walk: loop {
        if leads_to_null(message, run.segment, run.at) {
            pass_nulls(message, &mut run, pass);
            if !go_on(&mut stack, &mut run, None) {
                return end;
            }
            continue;
        }
        let place = PointerPlace {
            segment: run.segment,
            word: run.at,
            slot: run.slot,
        };
        let object = object_at(message, place.segment, place.word);
        pass.visit(message, &object, place, end);
        let below = run_of(&object, end);
        end += own_words(&object);
        if !go_on(&mut stack, &mut run, below) {
            return end;
        }
    }
}

// Takes the turns at a zero word and at those that follow it in its row. The run is then at the last
// of them.
#[inline(always)]
fn pass_nulls<M: Segments, P: Pass>(message: &M, run: &mut CopyRun, pass: &mut P)
    requires at { let m = M.segments message.now in (depth end : ℕ) × (runs : List CopyRun)
        × AtRun m (P.state pass.old) depth runs run.old end }
    requires null { HasWord (M.segments message.now) run.old.segment run.old.at 0 }
    ensures goes_on { let m = M.segments message.now in
        GoesPast m (P.state pass.old) (with_first (P.state pass.new)) run.old run.new }
    ensures null { HasWord (M.segments message.now) run.new.segment run.new.at 0 }
    ensures kept { let m = M.segments message.now in
        (depth end : ℕ) (runs : List CopyRun) → AtRun m (P.state pass.old) depth runs run.old end →
        ForTrimmed m (λ u. P.kept pass.new u ≡ P.kept pass.old u) }
{
    let more = nulls_after(message, run);
    if more == 0 {
        pass.visit_nulls(run.slot, 1);
        return;
    }
    pass.visit_nulls(run.slot, more + 1);
    run.at += more;
    run.slot += more;
    run.left -= more;
}

// How many null words come after the first word of a run in its row.
#[inline(always)]
fn nulls_after<M: Segments>(message: &M, run: &CopyRun) -> u32
    requires full { 0 < run.now.left }
    requires short { 1 < run.now.left → run.now.at + 1 < 2 ^ 32 }
    requires exists { 1 < run.now.left → run.now.segment < length (M.segments message.now) }
    requires inside { 1 < run.now.left → let m = M.segments message.now in
        run.now.at + run.now.left ≤ length (segment_of m run.now.segment) }
    ensures few { result < run.now.left }
    ensures null { (k : ℕ) → k < result →
        HasWord (M.segments message.now) run.now.segment (run.now.at + 1 + k) 0 }
{
    if run.left < 2 {
        return 0;
    }
    nulls(message, run.segment, run.at + 1, run.left - 1)
}

// The root word alone.
#[inline(always)]
fn root() -> CopyRun
    ensures { result ≡ copy_root_run }
{
    CopyRun {
        segment: 0,
        at: 0,
        slot: 0,
        left: 1,
        more: 0,
        skip: 0,
        gap: 0,
        pointers: 0,
    }
}
