//! Texts of RFC 3339, RFC 2822, ISO 8601 and plans, and stamps, read back. No call allocates.
#![tactic(auto)]

/// The value of an `Ok`. An `Err` is returned as it is. Unlike `?` this calls no conversion of the
/// error, which makes the proof of a reader a third shorter.
macro_rules! ok {
    ($answer:expr) => {
        match $answer {
            Ok(value) => value,
            Err(fault) => return Err(fault),
        }
    };
}

// Fields, which stand at the front of a text: each returns its value and what follows it, or a
// fault.
mod component_name;
mod decimals;
mod digit_runs;
mod digits;
mod fault;
mod feed;
mod letters;
mod offset;
mod parts;
mod space;
mod tail;
mod zones;

// The values that fields determine.
mod days;
mod value;
mod values;

// Readers of whole texts.
pub mod iso8601;
pub mod laws;
mod mail;
mod places;
mod plan;
mod reading;
pub mod rfc2822;
pub mod rfc3339;
pub mod stamp;
mod written;

pub use component_name::ComponentName;
pub use fault::{Expected, MailPart, Mismatch, NoReader, NotRead, Profile};
pub use plan::{
    LiteralRef, ReadPlan, ReadStep, Reader, StepParts, StepsReader, readable_kinds,
    reader_by_kinds, reader_of_steps,
};
pub use values::Readable;
pub use values::kinds::Kinds;
