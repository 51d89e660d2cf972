//! Configurations of ISO 8601, its parts by themselves, and stamps.
mod iso8601;
mod stamps;
