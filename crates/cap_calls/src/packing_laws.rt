//! What the packed text of a message unpacks to, and that a stream may be unpacked in pieces.

ghost use Rattle.cap_spec.specs.PackedFrames.{packed_frame};
ghost use Rattle.cap_calls.specs.UnpackingMessages.{CallsAgain, Unpacked, UnpacksTo, together};
ghost use Rattle.cap_calls.specs.declared.limits.CallLimits.{CallLimits};
ghost use Rattle.cap_calls.specs.declared.unpacking.Unpacking.{Unpacking};
ghost use Rattle.cap_spec.specs.Frames.{frame_text};
ghost use Rattle.cap_spec.specs.Messages.{IsMessage};
ghost use Rattle.cap_spec.specs.Unpacking.{Unpacks};
ghost use Rattle.cap_spec.specs.Words.{IsWord};
ghost use Rattle.std.specs.List.{AllByRecursion};
ghost use Rattle.std.specs.Prelude.{◌++◌, List, ℕ};

/// The packed text of a message unpacks to the words of its frame with zero padding.
pub fn packed_message_unpacks()
    ensures { (m : List (List ℕ)) → IsMessage m → AllByRecursion (AllByRecursion IsWord) m →
        Unpacks (packed_frame m) (frame_text m) }
{}

/// If a call of [`crate::unpack_message`] asks for more input, it and the next call return together
/// what one call over both pieces returns. The next call is over the bytes that the first one left,
/// and the next piece.
pub fn pieces_unpack_as_one()
    ensures { (l : CallLimits) (piece more old : List ℕ) (state : Unpacking) (u v : Unpacked) →
        UnpacksTo l piece old state u → CallsAgain l piece more u v →
        UnpacksTo l (piece ++ more) old state (together u v) }
{}
