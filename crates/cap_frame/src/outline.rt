//! What is kept of a message whose other words are passed over.

ghost use Rattle.std.specs.Prelude.{◌≡◌, [], None, length, sum};

use crate::table::{Sizes, total};

/// How a message is cut into segments, and its root word: the first word of segment 0.
#[derive(Debug, Drop)]
pub struct Outline {
    pub(crate) sizes: Sizes,
    pub(crate) root: Option<u64>,
}

impl Outline {
    ghost use Rattle.cap_frame.specs.Outlines.{sizes_in, root_in};

    /// The outline of no message: no segments and no root word.
    pub fn new() -> Outline
        ensures sizes { sizes_in result ≡ [] }
        ensures root { root_in result ≡ None }
    {
        Outline {
            sizes: Sizes::new(),
            root: None,
        }
    }

    // Makes it the outline of no message again.
    pub(crate) fn clear(&mut self)
        ensures sizes { sizes_in self.new ≡ [] }
        ensures root { root_in self.new ≡ None }
    {
        let Outline { sizes, root } = self;
        sizes.clear();
        *root = None;
    }

    /// How many segments there are.
    pub fn count(&self) -> u32
        ensures { result ≡ length (sizes_in self.now) }
    {
        self.sizes.len() as u32
    }

    /// How many words each segment has.
    pub fn sizes(&self) -> &[u32]
        ensures { result.now ≡ sizes_in self.now }
    {
        self.sizes.as_slice()
    }

    /// How many words all segments have together.
    pub fn words(&self) -> u64
        ensures { result ≡ sum (sizes_in self.now) }
    {
        total(&self.sizes)
    }

    /// The root word, or `None` where segment 0 has no words or there are no segments.
    pub fn root(&self) -> Option<u64>
        ensures { result ≡ root_in self.now }
    {
        self.root
    }
}
