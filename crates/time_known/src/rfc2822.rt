//! RFC 2822.
ghost use Rattle.std.specs.Prelude.{◌≡◌, min, true};
ghost use Rattle.time_below.specs.Weekday.{days_from_monday};
ghost use Rattle.time_known.specs.Fields.{on_weekday};
ghost use Rattle.time_known.specs.Longest.{FillsRfc2822Width};
ghost use Rattle.time_known.specs.ReadBack.{ReadsAs};
ghost use Rattle.time_known.specs.Rfc2822.{rfc2822_text, rfc2822_outcome, rfc2822_width};
ghost use Rattle.time_known.specs.Rfc2822Grammar.{Rfc2822Spells, to_whole_second};

use crate::fields::{Fields, accepted_fields};
use crate::groups::Groups;
use crate::put::{put_clock, put_named_date, put_signed_offset};
use crate::sink::{Text, append};
use time_below::Weekday;
use time_fmt::writers::write;
use time_fmt::{ComputeMetadata, Format, Formattable, Metadata, Sink};
use time_provide::ComponentProvider;

/// The format of RFC 2822, section 3.3, as `Fri, 21 Nov 1997 09:55:06 -0600`, of 31 bytes.
///
/// It needs a date, a time of day and an offset. A year outside 1900 to 9,999 is refused, then an
/// offset with seconds, each before any byte. The fraction of a second is not written.
#[derive(Debug, Clone, Copy, PartialEq, Eq)]
pub struct Rfc2822;

// The bytes of such a text.
const WIDTH: usize = 31;

impl ComputeMetadata for Rfc2822 {
    ghost width_of = { λ _. rfc2822_width };

    ghost is_guaranteed = { λ _. true };

    // The text of one value has as many bytes.
    #[tactic(auto, using(crate::proofs::GuaranteeLemmas::rfc2822_fills_its_width))]
    fn compute_metadata(&self) -> Metadata
        ensures width { result.max_bytes_needed ≡ min rfc2822_width usize.MAX }
        ensures text { result.guaranteed_utf8 ≡ true }
        ensures reached { FillsRfc2822Width }
    {
        Metadata {
            max_bytes_needed: WIDTH,
            guaranteed_utf8: true,
        }
    }
}

impl Formattable for Rfc2822 {
    ghost outcome_of = { λ _. rfc2822_outcome };

    ghost reads_as = { λ _. ReadsAs to_whole_second Rfc2822Spells Rfc2822Spells };

    fn write_into<V: ComponentProvider>(
        &self,
        output: &mut Vec<u8>,
        value: &V,
        state: &mut V::State,
    ) -> Result<usize, Format> {
        if !Groups::ALL.are_supplied_by::<V>() {
            return Err(Format::InsufficientTypeInformation);
        }
        let fields = accepted_fields(1900, 25, value, state)?;
        let weekday = value.weekday(state);
        Ok(append(output, &Rfc2822Text { weekday, fields }))
    }
}

/// The text of fields of which nothing is refused, and of the weekday of their date.
#[derive(Clone, Copy)]
pub struct Rfc2822Text {
    /// The weekday.
    pub weekday: Weekday,
    /// The fields.
    pub fields: Fields,
}

impl Text for Rfc2822Text {
    ghost width = { λ _. rfc2822_width };

    ghost text = { λ t. rfc2822_text (on_weekday (days_from_monday t.weekday) t.fields)
        t.fields.time t.fields.offset };

    #[inline(always)]
    #[tactic(auto, using(crate::proofs::LengthLemmas::one_by_one))]
    fn put_into<S: Sink>(&self, output: &mut S) {
        put_named_date(output, self.weekday, &self.fields);
        write(output, " ");
        put_clock(output, self.fields.time, ":");
        write(output, " ");
        put_signed_offset(output, self.fields.offset, "");
    }
}
