//! Descriptions of the command line.
ghost use Rattle.std.specs.Prelude.{◌≡◌, IfErr};
ghost use Rattle.std.specs.List.{list_all};
ghost use Rattle.movaliren_cli.specs.Refusal.{IsRefusalOf};
ghost use Rattle.movaliren_cli.specs.Word.{format_named, is_description, is_plain_in_json};

use std::alloc::Global;
use time_plan::{InvalidDescription, InvalidStrftime, Plan};

/// A format that has a name.
#[derive(Clone, Copy)]
pub enum NamedFormat {
    Rfc3339,
    Rfc2822,
    /// The date of HTTP, always in UTC.
    ImfFixdate,
    Iso8601,
    /// That of ISO 8601, always in UTC.
    Stamp,
    /// The seconds since 1970.
    Unix,
}

impl NamedFormat {
    /// The format of this name, if there is one.
    #[tactic(auto, unfolding(crate::specs::Word::format_named))]
    pub fn of_name(name: &str) -> Option<NamedFormat>
        ensures { result ≡ format_named name.now }
    {
        match name {
            "rfc3339" => Some(NamedFormat::Rfc3339),
            "rfc2822" => Some(NamedFormat::Rfc2822),
            "http" => Some(NamedFormat::ImfFixdate),
            "iso8601" => Some(NamedFormat::Iso8601),
            "stamp" => Some(NamedFormat::Stamp),
            "unix" => Some(NamedFormat::Unix),
            _ => None,
        }
    }
}

/// Whether the word is a description: the name of a format, or a text with a bracket or a percent
/// sign.
pub fn is_description(word: &str) -> bool
    ensures { result ≡ is_description word.now }
{
    let bytes = word.as_bytes();
    NamedFormat::of_name(word).is_some() || bytes.contains(&b'%') || bytes.contains(&b'[')
}

/// Whether the bytes can stand in a string of JSON as they are: no quote, no backslash, no control
/// character.
pub fn is_json_text(bytes: &[u8]) -> bool
    ensures { result ≡ list_all is_plain_in_json bytes.now }
{
    bytes
        .iter()
        .all(|byte| *byte >= b' ' && *byte != b'"' && *byte != b'\\')
}

/// Why a text is no description.
#[derive(Drop)]
pub enum Refusal {
    /// It has neither a bracket nor a percent sign, and is no name of a format.
    Name,
    /// It is wrong in the syntax of brackets, or there was no memory.
    Brackets(InvalidDescription),
    /// It is wrong in the syntax of strftime, or there was no memory.
    Strftime(InvalidStrftime),
}

/// The plan of a text: with a percent sign it is in the syntax of strftime, else with a bracket in
/// that of brackets. Any other text is refused as a name.
pub fn plan_of(alloc: Global, text: &str) -> Result<Plan, Refusal>
    ensures { IfErr result (IsRefusalOf text.now) }
{
    let bytes = text.as_bytes();
    if bytes.contains(&b'%') {
        match Plan::parse_strftime(alloc, bytes) {
            Ok(plan) => Ok(plan),
            Err(fault) => Err(Refusal::Strftime(fault)),
        }
    } else if bytes.contains(&b'[') {
        match Plan::parse(alloc, bytes) {
            Ok(plan) => Ok(plan),
            Err(fault) => Err(Refusal::Brackets(fault)),
        }
    } else {
        Err(Refusal::Name)
    }
}
