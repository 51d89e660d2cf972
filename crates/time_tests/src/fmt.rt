//! Errors, trees of each kind, refusals within a text, and room.
mod deprecated;
mod errors;
mod parts;
mod refused;
mod room;
mod trees;
