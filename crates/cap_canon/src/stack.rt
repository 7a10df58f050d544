//! The pointer words that a walk still has to look at.

ghost use Rattle.cap_canon.specs.CopyRuns.{AreShort, IsFull, OptionFull, option_places, places_of, copy_row_places, run_kept};
ghost use Rattle.cap_canon.specs.Laying.{below, own_size};
ghost use Rattle.cap_canon.specs.Objects.{IsObject, IsStructsObject};
ghost use Rattle.cap_canon.specs.StillToLay.{AreOwed, ContinuesCopy, longest_copy};
ghost use Rattle.cap_spec.specs.Messages.{IsMessage};
ghost use Rattle.cap_spec.specs.Tree.{Tree};
ghost use Rattle.std.specs.Option.{option_to_list};
ghost use Rattle.std.specs.Prelude.{◌+◌, ◌++◌, ◌≡◌, ◌≤◌, ◌<◌, IfSome, List, length, ℕ};

use crate::objects::{Object, Part};
use crate::run::CopyRun;
use arrayvec::ArrayVec;

/// The pointer words still to be looked at after those of the current run, the next ones last: one
/// run for each object on the way down that has some left. A walk to a depth of at most `N` has
/// capacity for all of them.
pub(crate) type Stack<const N: usize> = ArrayVec<CopyRun, N>;

/// Goes on after the first word of the run, first with the run below that word. `false` if no word
/// is left.
#[inline(always)]
pub(crate) fn go_on<const N: usize>(
    stack: &mut Stack<N>,
    run: &mut CopyRun,
    below: Option<CopyRun>,
) -> bool
    requires few { N ≤ 256 }
    requires capacity { IfSome below (λ _. length stack.old.items < N) }
    requires full { IsFull run.old }
    requires short { AreShort (places_of run.old) }
    ensures { ContinuesCopy result stack.old.items run.old below stack.new.items run.new }
{
    match below {
        Some(below) => {
            let more = run.advance();
            push_kept(stack, more, *run);
            *run = below;
            true
        }
        None => {
            if run.advance() {
                return true;
            }
            match stack.pop() {
                Some(next) => {
                    *run = next;
                    true
                }
                None => false,
            }
        }
    }
}

// One more run, where something is left of it.
#[inline(always)]
fn push_kept<const N: usize>(stack: &mut Stack<N>, more: bool, run: CopyRun)
    requires few { N ≤ 256 }
    requires capacity { length stack.old.items < N }
    ensures { stack.new.items ≡ stack.old.items ++ option_to_list (run_kept more run) }
{
    if more {
        stack.push(run);
    }
}

/// The pointer words of an object. The object's own words are laid from `end` on.
#[inline(always)]
pub(crate) fn run_of(object: &Object, end: u32) -> Option<CopyRun>
    requires { (m : List (List ℕ)) × (d s w : ℕ) × (tree : Tree) × IsMessage m
        × IsObject m d s w tree object.now
        × (end + own_size tree ≤ longest_copy) }
    ensures owed { (m : List (List ℕ)) (d s w depth n : ℕ) (tree : Tree)
        → IsObject m d s w tree object.now → d + n ≤ depth
        → AreOwed m depth (n + 1) (option_places result) (below end tree) }
    ensures full { OptionFull result }
{
    match *object {
        Object::Struct(part) => row_run(
            part.segment,
            part.start + part.data_words,
            end + part.data_left,
            part.pointers_left,
        ),
        Object::Pointers {
            segment,
            start,
            count,
        } => row_run(segment, start, end, count),
        Object::Structs { count, part } => structs_run(&part, count, end),
        Object::Null => None,
        Object::Cap { .. } => None,
        Object::Scalars { .. } => None,
    }
}

// Those of a list of `count` structs.
#[inline(always)]
fn structs_run(part: &Part, count: u32, end: u32) -> Option<CopyRun>
    requires { (m : List (List ℕ)) × (d s w : ℕ) × (tree : Tree) × IsMessage m
        × IsStructsObject m d s w tree count part.now × (end + own_size tree ≤ longest_copy) }
    ensures owed { (m : List (List ℕ)) (d s w depth n : ℕ) (tree : Tree)
        → IsStructsObject m d s w tree count part.now → d + n ≤ depth
        → AreOwed m depth n (option_places result) (below end tree) }
    ensures full { OptionFull result }
{
    if count == 0 || part.pointers_left == 0 {
        return None;
    }
    Some(CopyRun {
        segment: part.segment,
        at: part.start + part.data_words,
        slot: end + 1 + part.data_left,
        left: part.pointers_left,
        more: count - 1,
        skip: part.pointers - part.pointers_left + part.data_words,
        gap: part.data_left,
        pointers: part.pointers_left,
    })
}

// Pointer words that are in one row.
#[inline(always)]
fn row_run(segment: u32, at: u32, slot: u32, left: u32) -> Option<CopyRun>
    ensures places { option_places result ≡ copy_row_places segment at slot left }
    ensures full { OptionFull result }
{
    if left == 0 {
        return None;
    }
    Some(CopyRun {
        segment,
        at,
        slot,
        left,
        more: 0,
        skip: 0,
        gap: 0,
        pointers: 0,
    })
}

/// How many words an object has of its own in the copy.
#[inline(always)]
pub(crate) fn own_words(object: &Object) -> u32
    requires { (m : List (List ℕ)) × (d s w : ℕ) × (tree : Tree)
        × IsObject m d s w tree object.now × (own_size tree ≤ longest_copy) }
    ensures { (m : List (List ℕ)) (d s w : ℕ) (tree : Tree)
        → IsObject m d s w tree object.now → result ≡ own_size tree }
{
    match *object {
        Object::Null => 0,
        Object::Cap { .. } => 0,
        Object::Struct(part) => part.data_left + part.pointers_left,
        Object::Scalars { words, .. } => words,
        Object::Pointers { count, .. } => count,
        Object::Structs { count, part } => 1 + count * (part.data_left + part.pointers_left),
    }
}
