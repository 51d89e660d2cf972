//! Lists of items that are not closed yet.

use crate::items::ListKind;
use arrayvec::ArrayVec;
use std::default::Default;

/// A list of items that is not closed yet.
#[derive(Clone, Copy)]
pub struct Frame {
    /// What the list is for.
    pub kind: ListKind,
    /// How many bytes are left from the brackets around it on.
    pub opened: usize,
    /// How many are left from its own opening bracket on.
    pub opened_list: usize,
}

impl Default for Frame {
    fn default() -> Frame {
        Frame {
            kind: ListKind::First,
            opened: 0,
            opened_list: 0,
        }
    }
}

/// The lists that are not closed yet, of which there may be 32.
pub type Frames = ArrayVec<Frame, 32>;
