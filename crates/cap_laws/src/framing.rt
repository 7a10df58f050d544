//! What words frame, and how reading a message from words ends.

ghost use Rattle.cap_laws.specs.Framing.{FramesByBytes, OneEnding, PartialElse, four_bytes};
ghost use Rattle.cap_spec.specs.Frames.{Frames, FramesZero, IsTable, Stream, frame_text, halves};
ghost use Rattle.cap_spec.specs.Messages.{IsMessage};
ghost use Rattle.cap_spec.specs.Plain.{plain_text};
ghost use Rattle.std.specs.List.{flat_map};
ghost use Rattle.std.specs.Prelude.{List, ℕ, ◌++◌, ◌≡◌, ◌↔◌};

/// Words begin with at most one table of segments. Two such tables are the same words, have the
/// same sizes, and are followed by the same words.
pub fn one_table()
    ensures { (a b x y m n : List ℕ) → IsTable a m → IsTable b n → a ++ x ≡ b ++ y →
        (a ≡ b) × (m ≡ n) × (x ≡ y) }
{}

/// Words begin with at most one frame. Two such frames are the same words, frame the same message,
/// and are followed by the same words.
pub fn one_frame()
    ensures { (a b x y : List ℕ) (m n : List (List ℕ)) → Frames a m → Frames b n → a ++ x ≡ b ++ y →
        (a ≡ b) × (m ≡ n) × (x ≡ y) }
{}

/// Words are frames, one after the other, of at most one list of messages.
pub fn one_stream()
    ensures { (words : List ℕ) (ms ns : List (List (List ℕ))) →
        Stream words ms → Stream words ns → ms ≡ ns }
{}

/// For the words still to come, exactly one of five things holds:
/// - a prefix of them frames a message within the limit;
/// - there are none, and the input ends between words;
/// - the first one announces more than 512 segments;
/// - they begin with a table whose sizes together are above the limit;
/// - they begin a frame of at most 512 segments, and end inside its first word, its table, or its
///   contents. The contents are then within the limit.
pub fn one_ending()
    ensures { OneEnding }
{}

/// The last of these five things is so just where none of the other four is: the words begin a frame
/// and end inside it.
pub fn partial_else()
    ensures { PartialElse }
{}

/// The frame with zero padding is one, its padding is zero, and it is the only frame of the message
/// with zero padding.
pub fn frame_text_frames()
    ensures frames { (m : List (List ℕ)) → IsMessage m → Frames (frame_text m) m }
    ensures zero_padding { (m : List (List ℕ)) (words : List ℕ) → IsMessage m →
        FramesZero words m ↔ (words ≡ frame_text m) }
{}

/// A half of a word is a number of four bytes, the lowest first: the plain encoding of words is
/// that of their halves.
pub fn halves_are_four_bytes()
    ensures { (words : List ℕ) → plain_text words ≡ flat_map four_bytes (flat_map halves words) }
{}

/// Words frame a message exactly if their bytes do: a table of numbers of four bytes, the lowest
/// first, then any padding up to the next word, and then the words of the segments.
pub fn frames_by_bytes()
    ensures { FramesByBytes }
{}
