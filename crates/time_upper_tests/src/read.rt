//! Texts that are read back: what is refused, where, and in words; and readers of plans.
mod completed;
mod moments;
mod plans;
mod steps;
mod words;
