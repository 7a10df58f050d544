//! Words and messages for tests.

use cap_frame::{ByteMessage, Segments, SizeLimit, WordMessage, read_byte_message, write_message};
use cap_words::{PlainSink, PlainWords, SliceIn, VecOut};
use std::alloc::{AllocError, Global};
use std::test::Fail;

/// The words of a stream, each read from its first byte on.
pub(crate) fn words(alloc: Global, encoded: &[u64]) -> Result<Vec<u64>, AllocError> {
    let mut words = Vec::with_capacity(alloc, encoded.len())?;
    for word in encoded {
        words.push(word.swap_bytes())?;
    }
    Ok(words)
}

/// The message whose segments have these words, each read from its first byte on.
pub(crate) fn message(alloc: Global, encoded: &[&[u64]]) -> Result<WordMessage, Fail> {
    let mut segments = Vec::new(alloc);
    for segment in encoded {
        segments.push(words(alloc, segment)?)?;
    }
    Ok(WordMessage::new(segments).ok_or("no message")?)
}

/// The same message in one buffer: it is written as a frame, and read from that.
pub(crate) fn in_bytes<M: Segments>(alloc: Global, message: &M) -> Result<ByteMessage, Fail> {
    let mut sink = PlainSink::new(VecOut::new(alloc));
    if write_message(&mut sink, message).is_err() {
        return Err("not written".into());
    }
    let frame = sink.into_inner();
    let mut source = PlainWords::new(SliceIn::new(frame.bytes()));
    let limit = SizeLimit::new(268435456).ok_or("no limit")?;
    match read_byte_message(alloc, &mut source, limit) {
        Ok(Some(message)) => Ok(message),
        _ => Err("not read".into()),
    }
}

/// A clone, by its bound alone.
pub(crate) fn cloned<T: Clone>(x: &T) -> Result<T, Fail> {
    Ok(x.clone()?)
}
