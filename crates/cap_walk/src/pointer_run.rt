//! The run of pointer words that a walk goes on with in an object.

ghost use Rattle.cap_ptr.specs.Levels.{levels_of};
ghost use Rattle.cap_ptr.specs.Shapes.{FindsTargetBy};
ghost use Rattle.cap_spec.specs.Messages.{IsMessage, segment_of};
ghost use Rattle.cap_walk.specs.Looking.{RunRises, object_places};
ghost use Rattle.cap_walk.specs.PointerRuns.{IsRest, LevelIs, OptionIn, RunIn, kept_run, option_spots, row_places};
ghost use Rattle.std.specs.Prelude.{◌+◌, ◌<◌, ◌^◌, ◌≡◌, ◌≤◌, List, length, ℕ};

use cap_ptr::{Shape, Target, levels_of_elements};

/// `left` pointer words from `at` on, and then those of `more` further elements. Each element has
/// `data_words` data words and then `pointers` pointers.
#[derive(Clone, Copy, Default)]
pub(crate) struct PointerRun {
    pub(crate) segment: u32,
    pub(crate) at: u32,
    pub(crate) left: u32,
    pub(crate) more: u32,
    pub(crate) data_words: u32,
    pub(crate) pointers: u32,
    /// The level of what these words lead to.
    pub(crate) level: u32,
}

impl PointerRun {
    /// Goes on after the first pointer word. `false` if nothing is left.
    #[inline(always)]
    pub(crate) fn advance(&mut self) -> bool
        requires { (m : List (List ℕ)) × IsMessage m × RunIn m self.old }
        ensures { IsRest self.old (kept_run result self.new) }
    {
        if self.left > 1 {
            self.at += 1;
            self.left -= 1;
            return true;
        }
        if self.more > 0 {
            self.at = self.at + 1 + self.data_words;
            self.left = self.pointers;
            self.more -= 1;
            return true;
        }
        false
    }
}

// The pointer words of an object of this level.
#[inline(always)]
pub(crate) fn run_of(target: &Target, level: u32) -> Option<PointerRun>
    requires found { (m : List (List ℕ)) × (s w q tag : ℕ) × IsMessage m
        × FindsTargetBy m s w q tag target.now }
    requires level { level < 2 ^ 31 }
    ensures places { let x = target.now in
        (m : List (List ℕ)) (s w q tag : ℕ) → FindsTargetBy m s w q tag x →
        option_spots result ≡ object_places q tag x.segment x.start level }
    ensures inside { (m : List (List ℕ)) (s w q tag : ℕ) →
        FindsTargetBy m s w q tag target.now → OptionIn m result }
    ensures rises { (depth : ℕ) → level + levels_of target.now.shape ≤ depth →
        RunRises level depth result }
{
    match target.shape {
        Shape::Struct {
            data_words,
            pointers,
        } => {
            let at = target.start + u32::from(data_words);
            row_run(target.segment, at, u32::from(pointers), level + 1)
        }
        Shape::Scalars { .. } => None,
        Shape::Pointers { count } => row_run(target.segment, target.start, count, level + 1),
        Shape::Structs {
            count,
            data_words,
            pointers,
            ..
        } => {
            if count == 0 || pointers == 0 {
                return None;
            }
            Some(PointerRun {
                segment: target.segment,
                at: target.start + 1 + u32::from(data_words),
                left: u32::from(pointers),
                more: count - 1,
                data_words: u32::from(data_words),
                pointers: u32::from(pointers),
                level: level + 1 + levels_of_elements(1),
            })
        }
    }
}

// The pointer words of a struct or of a list of pointers, which are in one row.
#[inline(always)]
pub(crate) fn row_run(segment: u32, at: u32, left: u32, level: u32) -> Option<PointerRun>
    ensures places { option_spots result ≡ row_places level segment at left }
    ensures inside { (m : List (List ℕ)) → segment < length m →
        at + left ≤ length (segment_of m segment) → OptionIn m result }
    ensures level { LevelIs level result }
{
    if left == 0 {
        return None;
    }
    Some(PointerRun {
        segment,
        at,
        left,
        more: 0,
        data_words: 0,
        pointers: 0,
        level,
    })
}
