//! A message in one buffer is vetted, and the bytes of the object at a path are returned.

ghost use Rattle.cap_spec.specs.Accepting.{IsWithin};
ghost use Rattle.cap_spec.specs.Denoting.{words_from};
ghost use Rattle.cap_spec.specs.Faults.{IsRefused};
ghost use Rattle.cap_spec.specs.Paths.{IsPlace};
ghost use Rattle.cap_spec.specs.Plain.{plain_text};
ghost use Rattle.cap_spec.specs.declared.Refusal.{Refusal};
ghost use Rattle.cap_walk.specs.Limits.{depth_of, words_of};
ghost use Rattle.cap_walk.specs.Reports.{IsAccepted};
ghost use Rattle.cap_walk.specs.declared.report.Report.{Report};
ghost use Rattle.std.specs.Prelude.{◌≡◌, [], Err, IfErr, IfOk, IsOk, ℕ};

use cap_frame::{ByteView, Segments};
use cap_vet::{Limits, Refusal, Step, vet};

/// Vets a message in one buffer within limits, and returns the bytes of the words at a path of
/// steps from its root: a part of the buffer, not a copy. Allocates nothing.
///
/// The words are those of the object at the path, with its tag and surplus words, or of the element
/// of a list of structs that the path ends at. The bytes are empty if there is no node at the path,
/// and for null and a capability. The whole message is vetted, whatever the path is.
///
/// # Errors
///
/// - [`Refusal`]: the message isn't accepted, as for [`vet`] (encoding: Security Considerations).
pub fn read_bytes<'b>(
    message: &ByteView<'b>,
    limits: Limits,
    path: &[Step],
) -> Result<&'b [u8], Refusal>
    ensures ok { let m = ⟦<ByteView<'b> as Segments>⟧.segments message.now in
        IfOk result (λ _. (r : Report) × IsAccepted m (words_of limits) (depth_of limits) r) }
    ensures bytes { let m = ⟦<ByteView<'b> as Segments>⟧.segments message.now in
        IfOk result (λ bytes. (t b n : ℕ) → IsPlace m path.now t b n →
        bytes.now ≡ plain_text (words_from m t b n)) }
    ensures empty { let m = ⟦<ByteView<'b> as Segments>⟧.segments message.now in
        IfOk result (λ bytes. ((t b n : ℕ) → ¬ IsPlace m path.now t b n) → bytes.now ≡ []) }
    ensures err { let m = ⟦<ByteView<'b> as Segments>⟧.segments message.now in
        IfErr result (IsRefused m (words_of limits) (depth_of limits)) }
    ensures accepts { let m = ⟦<ByteView<'b> as Segments>⟧.segments message.now in
        IsWithin m (words_of limits) (depth_of limits) → IsOk result }
    ensures refuses { let m = ⟦<ByteView<'b> as Segments>⟧.segments message.now in
        (r : Refusal) → IsRefused m (words_of limits) (depth_of limits) r → result ≡ Err r }
{
    let vetted = match vet(message, limits) {
        Ok(vetted) => vetted,
        Err(refusal) => return Err(refusal),
    };
    match vetted.get(path) {
        None => Ok(&[]),
        Some(node) => {
            let view = node.view();
            Ok(view.bytes())
        }
    }
}
