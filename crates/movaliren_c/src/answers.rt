//! What a call returns: the number of a reason, or a text in a buffer.
mod library;
pub mod reason;
pub mod room;
pub mod writer;
