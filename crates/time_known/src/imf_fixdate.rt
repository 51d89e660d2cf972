//! The date of HTTP.
ghost use Rattle.std.specs.Prelude.{◌≡◌, IfErr, IfOk, OnOk, min, true};
ghost use Rattle.time_below.specs.Weekday.{days_from_monday};
ghost use Rattle.time_fmt.specs.Ends.{refusal_of};
ghost use Rattle.time_fmt.specs.Outcome.{done, refused};
ghost use Rattle.time_known.specs.Fields.{on_weekday};
ghost use Rattle.time_known.specs.Groups.{AreAllSupplied, at_groups};
ghost use Rattle.time_known.specs.ImfFixdate.{FillsImfFixdateWidth, ImfFixdateSpells};
ghost use Rattle.time_known.specs.ImfFixdate.{imf_fixdate_of_groups, imf_fixdate_outcome};
ghost use Rattle.time_known.specs.ImfFixdate.{imf_fixdate_text, imf_fixdate_width};
ghost use Rattle.time_known.specs.ReadBack.{ReadsAs};
ghost use Rattle.time_known.specs.Rfc2822Grammar.{to_whole_second};
ghost use Rattle.time_provide.specs.Real.{AreReal};

use crate::fields::{Fields, accepted_fields};
use crate::groups::Groups;
use crate::put::{put_clock, put_named_date};
use crate::sink::{Text, append};
use time_below::Weekday;
use time_fmt::writers::write;
use time_fmt::{ComputeMetadata, Format, Formattable, Metadata, Refused, Sink};
use time_provide::ComponentProvider;

/// The date of HTTP, `IMF-fixdate` (RFC 9110, section 5.6.7), as `Sun, 06 Nov 1994 08:49:37 GMT`,
/// of 29 bytes.
///
/// It needs a date, a time of day and an offset, and shows UTC alone: `to_utc` is for a value at
/// another offset. A year outside 0 to 9,999 is refused, then an offset with hours, seconds or
/// minutes, each before any byte. The fraction of a second is not written.
#[derive(Debug, Clone, Copy, PartialEq, Eq)]
pub struct ImfFixdate;

// The bytes of such a text.
const WIDTH: usize = 29;

impl ComputeMetadata for ImfFixdate {
    ghost width_of = { λ _. imf_fixdate_width };

    ghost is_guaranteed = { λ _. true };

    // The text of one value has as many bytes.
    #[tactic(auto, using(crate::proofs::GuaranteeLemmas::imf_fixdate_fills_its_width))]
    fn compute_metadata(&self) -> Metadata
        ensures width { result.max_bytes_needed ≡ min imf_fixdate_width usize.MAX }
        ensures text { result.guaranteed_utf8 ≡ true }
        ensures reached { FillsImfFixdateWidth }
    {
        Metadata {
            max_bytes_needed: WIDTH,
            guaranteed_utf8: true,
        }
    }
}

impl Formattable for ImfFixdate {
    ghost outcome_of = { λ _. imf_fixdate_outcome };

    ghost reads_as = { λ _. ReadsAs to_whole_second ImfFixdateSpells ImfFixdateSpells };

    fn write_into<V: ComponentProvider>(
        &self,
        output: &mut Vec<u8>,
        value: &V,
        state: &mut V::State,
    ) -> Result<usize, Format> {
        if !Groups::ALL.are_supplied_by::<V>() {
            return Err(Format::InsufficientTypeInformation);
        }
        let text = ImfFixdateText::accepted(value, state)?;
        Ok(append(output, &text))
    }
}

/// The text of fields in UTC, and of the weekday of their date.
#[derive(Clone, Copy)]
pub struct ImfFixdateText {
    weekday: Weekday,
    fields: Fields,
}

impl ImfFixdateText {
    /// Returns the text of a value in UTC whose year is from 0 to 9,999. Else returns the first
    /// component that has no place.
    pub fn accepted<V: ComponentProvider>(
        value: &V,
        state: &mut V::State,
    ) -> Result<ImfFixdateText, Refused>
        requires supplied { AreAllSupplied V.SUPPLIES_DATE V.SUPPLIES_TIME V.SUPPLIES_OFFSET }
        requires agrees { V.agrees state.old value.now }
        ensures accepted { IfOk result
            (λ t. at_groups imf_fixdate_of_groups (V.facts value.now)
            ≡ done (⟦<ImfFixdateText as Text>⟧.text t)) }
        ensures refused { IfErr result
            (λ reason. at_groups imf_fixdate_of_groups (V.facts value.now)
            ≡ refused (refusal_of reason)) }
        ensures real { OnOk result (AreReal (V.facts value.now)) }
        ensures agrees { V.agrees state.new value.now }
    {
        let fields = accepted_fields(0, 0, value, state)?;
        if fields.offset.as_hms().1 != 0 {
            return Err(Refused::InvalidOffsetMinute);
        }
        let weekday = value.weekday(state);
        Ok(ImfFixdateText { weekday, fields })
    }
}

impl Text for ImfFixdateText {
    ghost width = { λ _. imf_fixdate_width };

    ghost text = { λ t. imf_fixdate_text (on_weekday (days_from_monday t.weekday) t.fields)
        t.fields.time };

    #[tactic(auto, using(crate::proofs::LengthLemmas::one_by_one))]
    fn put_into<S: Sink>(&self, output: &mut S) {
        put_named_date(output, self.weekday, &self.fields);
        write(output, " ");
        put_clock(output, self.fields.time, ":");
        write(output, " GMT");
    }
}
