//! A step on the way down to a pointer word, and the words that come after it.

ghost use Rattle.cap_trace.specs.Branches.{IsCounted, element_row, place_of, row_branch, skipped, step_of};
ghost use Rattle.std.specs.Prelude.{◌+◌, ◌-◌, ◌<◌, ◌^◌, ◌≡◌, ◌≤◌};

use cap_spec::Step;

/// What a search takes one after the other.
#[derive(Clone, Copy, Default)]
pub(crate) enum Form {
    /// The pointers of a struct, or of an element of a list of structs.
    #[default]
    Struct,
    /// The pointers of a list.
    Pointers,
    /// The elements of a list of structs.
    Structs,
}

/// The place of a pointer word.
#[derive(Clone, Copy, Drop)]
pub(crate) struct WordPlace {
    pub(crate) segment: u32,
    pub(crate) at: u32,
}

/// The pointers of an object, or the elements of a list of structs, in their order. The last one that
/// was taken is the step of a path. Pointers have no word between them: they are a row.
#[derive(Clone, Copy, Default)]
pub(crate) struct Branch {
    pub(crate) form: Form,
    pub(crate) segment: u32,
    /// The word where they start.
    pub(crate) start: u32,
    /// How many there are.
    pub(crate) count: u32,
    /// How many of them were taken. Nothing else changes.
    pub(crate) taken: u32,
    /// Of each element of a list of structs, in words.
    pub(crate) data_words: u16,
    /// Of each element of a list of structs.
    pub(crate) pointers: u16,
}

impl Branch {
    /// A row of `count` pointers from this word on, of which none is taken.
    pub(crate) fn row(form: Form, segment: u32, start: u32, count: u32) -> Branch
        ensures { result ≡ row_branch form segment start count }
    {
        Branch {
            form,
            segment,
            start,
            count,
            taken: 0,
            data_words: 0,
            pointers: 0,
        }
    }

    /// The row of the pointers of the next element.
    pub(crate) fn element(&self) -> Branch
        requires { (element_row self.now).start + self.now.pointers < 2 ^ 32 }
        ensures { result ≡ element_row self.now }
    {
        let (data_words, pointers) = (u32::from(self.data_words), u32::from(self.pointers));
        let start = self.start + self.taken * (data_words + pointers) + data_words;
        Branch::row(Form::Struct, self.segment, start, pointers)
    }

    /// The same branch after so many more are taken.
    pub(crate) fn taken_more(&self, more: u32) -> Branch
        requires { self.now.taken + more ≤ self.now.count }
        ensures { result ≡ skipped self.now more }
    {
        Branch {
            taken: self.taken + more,
            ..*self
        }
    }

    /// The place of the last word of a row that was taken.
    pub(crate) fn place(&self) -> WordPlace
        requires { self.now.start + (self.now.taken - 1) < 2 ^ 32 }
        ensures { result ≡ place_of self.now }
    {
        WordPlace {
            segment: self.segment,
            at: self.start + self.taken.saturating_sub(1),
        }
    }

    /// The step to the last one that was taken.
    pub(crate) fn step(&self) -> Step
        requires { IsCounted self.now.form self.now }
        ensures { result ≡ step_of self.now }
    {
        let number = self.taken.saturating_sub(1);
        match self.form {
            Form::Struct => Step::Ptr(number as u16),
            _ => Step::Item(number),
        }
    }
}
