//! The first steps that several paths have in common.

ghost use Rattle.cap_spec.specs.declared.Step.{Step};
ghost use Rattle.cap_vet.specs.PathEnds.{IsSomePathEnd};
ghost use Rattle.cap_walk.specs.Limits.{depth_of, words_of};
ghost use Rattle.std.specs.Prelude.{◌≡◌, ⊤, List};

use crate::nodes::getting::{along, follow_path, given};
use crate::nodes::path_end::PathEnd;
use crate::nodes::step_source::StepSource;
use crate::nodes::struct_elements::StructElements;
use crate::nodes::view::View;
use crate::strictness::path_strictness::strict_fault;
use cap_frame::Segments;
use cap_spec::{Kind, Step, StrictRefusal};
use cap_walk::{Demands, Limits, limits_under};
use std::alloc::AllocError;

/// The first steps of several paths in a message that needn't be vetted, and where they lead
/// (encoding: Security Considerations). The pointers on them are followed once for all of the paths.
pub struct PathStart<'m, M: Segments> {
    message: &'m M,
    demands: Demands,
    // The limits under the demands.
    words: u64,
    depth: u32,
    end: PathEnd,
    ghost leads: { IsSomePathEnd (M.segments message.now) words depth end },
}

impl<'m, M: Segments> Clone for PathStart<'m, M> {
    ghost is_clone = { λ s r. r ≡ s };

    ghost is_infallible = { λ _. ⊤ };

    fn clone(&self) -> Result<PathStart<'m, M>, AllocError> {
        Ok(*self)
    }
}

impl<'m, M: Segments> Copy for PathStart<'m, M> {}

impl<'m, M: Segments> PathStart<'m, M> {
    ghost use Rattle.cap_vet.specs.Views.{view_message};
    ghost use Rattle.cap_vet.specs.GivenPaths.{LeadsToElements, LeadsToStructs, GivesAfter, IsStart, elements_message, start_message};
    ghost use Rattle.std.specs.Prelude.{IfOk, IfSome, IsSome};

    /// Follows the first steps of several paths. The limits and demands are those of
    /// [`crate::get_with`], and apply to each of the paths by itself. Allocates nothing.
    pub fn new<S: StepSource + Copy>(
        message: &'m M,
        limits: Limits,
        demands: Demands,
        first: S,
    ) -> PathStart<'m, M>
        ensures start { let m = M.segments message.now in
            (steps : List Step) → S.gives first steps →
            IsStart demands m (words_of limits) (depth_of limits) steps result }
        ensures message { start_message result ≡ message.now }
    {
        let limits = limits_under(message, limits, demands);
        let words = limits.words();
        let depth = limits.depth();
        PathStart {
            message,
            demands,
            words,
            depth,
            end: follow_path(message, words, depth, first),
        }
    }

    /// The elements of the list of structs that the first steps lead to. After `None` they lead to no
    /// such list, or to none without a fault: [`PathStart::get`] then has to decide. Allocates nothing.
    pub fn elements(&self) -> Option<StructElements<'m, M>>
        ensures elements { let m = M.segments (start_message self.now) in
            IfSome result (LeadsToElements m self.now) }
        ensures found { let m = M.segments (start_message self.now) in
            LeadsToStructs m self.now → IsSome result }
        ensures message { IfSome result (λ e. elements_message e ≡ start_message self.now) }
    {
        let PathEnd::To(at) = self.end else {
            return None;
        };
        let Kind::Structs {
            count,
            data_words,
            pointers,
        } = at.found.kind
        else {
            return None;
        };
        match strict_fault(self.message, self.demands, at.lax) {
            Some(_) => None,
            None => Some(StructElements {
                message: self.message,
                segment: at.found.place.segment,
                first: at.found.place.start + 1,
                count,
                data_words,
                pointers,
                left: self.words - at.consumed,
                level: at.level + 2,
                depth: self.depth,
            }),
        }
    }

    /// Goes on with one step more and then with the `rest`, and gives what [`crate::get_with`] gives
    /// for the path of all the steps. Allocates nothing.
    ///
    /// # Errors
    ///
    /// Those of [`crate::get_with`] for that path.
    #[inline(always)]
    pub fn get<S: StepSource + Copy>(
        &self,
        step: Step,
        rest: S,
    ) -> Result<Option<View<'m, M>>, StrictRefusal>
        ensures given { let m = M.segments (start_message self.now) in
            (steps : List Step) → S.gives rest steps → GivesAfter m self.now step steps result }
        ensures message { IfOk result (λ o. IfSome o (λ v.
            view_message v ≡ start_message self.now)) }
    {
        let end = match self.end {
            PathEnd::To(at) => match at.step(self.message, self.words, self.depth, step) {
                Ok(Some(next)) => along(self.message, self.words, self.depth, next, rest),
                Ok(None) => PathEnd::Early(at),
                Err(refusal) => PathEnd::Refused(refusal),
            },
            PathEnd::Early(at) => PathEnd::Early(at),
            PathEnd::Refused(refusal) => PathEnd::Refused(refusal),
        };
        given(self.message, self.demands, end)
    }
}
