//! A message is vetted, and the node at a path is read.

ghost use Rattle.cap_read.specs.ReadNodes.{IsRead};
ghost use Rattle.cap_spec.specs.Denoting.{Denotes};
ghost use Rattle.cap_spec.specs.Faults.{IsRefused};
ghost use Rattle.cap_spec.specs.Tree.{Tree};
ghost use Rattle.cap_spec.specs.Verdicts.{Justified};
ghost use Rattle.cap_spec.specs.declared.Refusal.{Refusal};
ghost use Rattle.cap_vet.specs.Views.{shown, view_message, view_place};
ghost use Rattle.cap_walk.specs.Limits.{depth_of, words_of};
ghost use Rattle.std.specs.Option.{option_map};
ghost use Rattle.std.specs.Prelude.{◌≡◌, ◌≤◌, Err, IfErr, IfOk, IfSome, IsOk, ℕ};

use cap_frame::Segments;
use cap_vet::{Limits, Place, Refusal, Report, Step, View, vet};

/// What was read of an accepted message at a path.
#[derive(Drop)]
pub struct Reading<'m, M: Segments> {
    /// The charge, the depth, the pointers and the capabilities of the message's tree.
    pub report: Report,
    /// A view of the node at the path, or `None` where the tree has none there.
    pub view: Option<View<'m, M>>,
    /// The words of that node's object, or `None` where it has none.
    pub place: Option<Place>,
}

/// Vets a message within limits, and reads the node at a path of steps from its root. Allocates
/// nothing.
///
/// The message is accepted if its root denotes a finite tree within the limits. Then that is the
/// only such tree, and the report has its numbers. The view is the tree's node at the path, and its
/// words lie inside their segment. There is no view if the tree has no node at the path.
///
/// # Errors
///
/// - [`Refusal`]: the message isn't accepted (encoding: Security Considerations). The root reaches
///   the pointer word that it names, and its reason holds there. It is the first such word in
///   preorder, as [`vet`] reports it.
pub fn read<'m, M: Segments>(
    message: &'m M,
    limits: Limits,
    path: &[Step],
) -> Result<Reading<'m, M>, Refusal>
    ensures ok { let m = M.segments message.now in
        IfOk result (λ r. IsRead m (words_of limits) (depth_of limits) path.now r.report
        (option_map (λ v. shown v) r.view) r.place) }
    ensures message { IfOk result (λ r. IfSome r.view (λ v. view_message v ≡ message.now)) }
    ensures place { IfOk result (λ r. IfSome r.view (λ v. view_place v ≡ r.place)) }
    ensures justified { let m = M.segments message.now in
        IfErr result (Justified m (words_of limits) (depth_of limits)) }

    // It is the first fault in preorder, with its count of pointers.
    ensures err { let m = M.segments message.now in
        IfErr result (IsRefused m (words_of limits) (depth_of limits)) }

    // The other direction: a message that denotes a tree within the limits is read, and a first
    // fault is returned if there is one.
    ensures accepts { let m = M.segments message.now in (t : Tree) (c d : ℕ) → Denotes m 0 0 t c d →
        c ≤ words_of limits → d ≤ depth_of limits → IsOk result }
    ensures refuses { let m = M.segments message.now in
        (r : Refusal) → IsRefused m (words_of limits) (depth_of limits) r → result ≡ Err r }
{
    let vetted = match vet(message, limits) {
        Ok(vetted) => vetted,
        Err(refusal) => return Err(refusal),
    };
    let report = vetted.report();
    match vetted.get(path) {
        None => Ok(Reading {
            report,
            view: None,
            place: None,
        }),
        Some(node) => {
            let view = node.view();
            Ok(Reading {
                report,
                view: Some(view),
                place: view.place(),
            })
        }
    }
}
