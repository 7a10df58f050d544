//! The text of a path.

ghost use Rattle.cap_spec.specs.PathTexts.{path_text, step_text};
ghost use Rattle.std.specs.List.{flat_map};
ghost use Rattle.std.specs.Prelude.{◌+◌, ◌*◌, ◌++◌, ◌≡◌, ◌≤◌, length};

use crate::text_buffer::{DIGITS, FEW_DIGITS, TextBuffer};
use cap_spec::Step;

/// The most steps of a path for which a line has space.
pub const STEPS: usize = 257;

/// The space for the text of one step, in bytes.
pub const STEP: usize = FEW_DIGITS + 2;

impl<const N: usize> TextBuffer<N> {
    /// Appends the text of a step.
    fn push_step(&mut self, step: Step)
        requires { length self.old + DIGITS + 2 ≤ N }
        ensures items { self.new ≡ self.old ++ step_text step }
        ensures few { length self.new ≤ length self.old + STEP }
    {
        match step {
            Step::Ptr(index) => self.push_named(b"/p", u64::from(index)),
            Step::Item(index) => self.push_named(b"/i", u64::from(index)),
        }
    }

    /// Appends the texts of steps.
    pub fn push_steps(&mut self, steps: &[Step])
        requires { length self.old + STEP * length steps.now + DIGITS ≤ N }
        ensures items { self.new ≡ self.old ++ flat_map step_text steps.now }
        ensures few { length self.new ≤ length self.old + STEP * length steps.now }
    {
        for step in steps {
            self.push_step(*step);
        }
    }

    /// Appends the text of a path.
    pub fn push_path(&mut self, steps: &[Step])
        requires { length self.old + 1 + STEP * length steps.now + DIGITS ≤ N }
        ensures items { self.new ≡ self.old ++ path_text steps.now }
        ensures few { length self.new ≤ length self.old + 1 + STEP * length steps.now }
    {
        if steps.is_empty() {
            self.push_text(b"/");
        } else {
            self.push_steps(steps);
        }
    }
}
