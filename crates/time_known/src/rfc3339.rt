//! RFC 3339.
ghost use Rattle.std.specs.Prelude.{◌≡◌, min, true, Ok};
ghost use Rattle.time_fmt.specs.Ends.{Ends};
ghost use Rattle.time_fmt.specs.Outcome.{done};
ghost use Rattle.time_fmt.specs.Sink.{Fits};
ghost use Rattle.time_known.specs.Fields.{shown};
ghost use Rattle.time_known.specs.Longest.{FillsRfc3339Width};
ghost use Rattle.time_known.specs.ReadBack.{ReadsAs};
ghost use Rattle.time_known.specs.Rfc3339.{rfc3339_outcome, rfc3339_text, rfc3339_width};
ghost use Rattle.time_known.specs.Rfc3339.{full_time_text, full_time_width, second_text};
ghost use Rattle.time_known.specs.Rfc3339.{second_width};
ghost use Rattle.time_known.specs.Rfc3339.{time_secfrac_text, time_secfrac_width};
ghost use Rattle.time_known.specs.Rfc3339Grammar.{Rfc3339Spells, IsCanonicalRfc3339};

use crate::fields::{Fields, accepted_fields};
use crate::groups::Groups;
use crate::put::{put_clock, put_date, put_offset};
use crate::sink::{Text, append};
use time_below::{Time, UtcOffset};
use time_digits::ru32;
use time_fmt::writers::{write, write_fraction};
use time_fmt::{ComputeMetadata, Format, Formattable, Metadata, Sink};
use time_provide::ComponentProvider;

/// The format of RFC 3339, section 5.6, as `1985-04-12T23:20:50.52Z`, of at most 35 bytes.
///
/// It needs a date, a time of day and an offset. A year outside 0 to 9,999 is refused, then an
/// offset of more than 23 hours, then one with seconds, each before any byte. A fraction of a
/// second is written where there is one, by as many digits as it needs, and UTC by `Z`.
#[derive(Debug, Clone, Copy, PartialEq, Eq)]
pub struct Rfc3339;

// The most bytes of such a text.
const WIDTH: usize = 35;

impl ComputeMetadata for Rfc3339 {
    ghost width_of = { λ _. rfc3339_width };

    ghost is_guaranteed = { λ _. true };

    // The text of one value has as many bytes.
    #[tactic(auto, using(crate::proofs::GuaranteeLemmas::rfc3339_fills_its_width))]
    fn compute_metadata(&self) -> Metadata
        ensures width { result.max_bytes_needed ≡ min rfc3339_width usize.MAX }
        ensures text { result.guaranteed_utf8 ≡ true }
        ensures reached { FillsRfc3339Width }
    {
        Metadata {
            max_bytes_needed: WIDTH,
            guaranteed_utf8: true,
        }
    }
}

impl Formattable for Rfc3339 {
    ghost outcome_of = { λ _. rfc3339_outcome };

    ghost reads_as = { λ _. ReadsAs (λ v. v) Rfc3339Spells IsCanonicalRfc3339 };

    fn write_into<V: ComponentProvider>(
        &self,
        output: &mut Vec<u8>,
        value: &V,
        state: &mut V::State,
    ) -> Result<usize, Format> {
        if !Groups::ALL.are_supplied_by::<V>() {
            return Err(Format::InsufficientTypeInformation);
        }
        let fields = accepted_fields(0, 23, value, state)?;
        Ok(append(output, &Rfc3339Text { fields }))
    }
}

/// The text of fields of which nothing is refused.
#[derive(Clone, Copy)]
pub struct Rfc3339Text {
    /// The fields.
    pub fields: Fields,
}

impl Text for Rfc3339Text {
    ghost width = { λ _. rfc3339_width };

    ghost text = { λ t. rfc3339_text (shown t.fields).date t.fields.time t.fields.offset };

    #[inline(always)]
    #[tactic(auto, using(crate::proofs::LengthLemmas::one_by_one))]
    fn put_into<S: Sink>(&self, output: &mut S) {
        put_date(output, &self.fields, "-");
        write(output, "T");
        put_full_time(output, self.fields.time, self.fields.offset);
    }
}

/// The text of a second up to its decimals, as `1985-04-12T23:20:50.`, by fields of which nothing
/// is refused.
#[derive(Clone, Copy)]
pub struct SecondText {
    /// The fields, of which the nanosecond and the offset are not shown.
    pub fields: Fields,
}

impl Text for SecondText {
    ghost width = { λ _. second_width };

    ghost text = { λ t. second_text (shown t.fields).date t.fields.time };

    #[tactic(auto, using(crate::proofs::LengthLemmas::one_by_one))]
    fn put_into<S: Sink>(&self, output: &mut S) {
        put_date(output, &self.fields, "-");
        write(output, "T");
        put_clock(output, self.fields.time, ":");
        write(output, ".");
    }
}

/// Puts `full-time` (RFC 3339, section 5.6): the clock, the fraction of a second where there is
/// one, and the offset.
#[inline(always)]
#[tactic(auto, using(crate::proofs::LengthLemmas::one_by_one))]
pub fn put_full_time<S: Sink>(output: &mut S, time: Time, offset: UtcOffset)
    requires room { Fits (S.buffer output.old) full_time_width }
    ensures puts { Ends full_time_width (S.buffer output.old) (S.buffer output.new)
        (Ok tt) (done (full_time_text time offset)) }
{
    put_clock(output, time, ":");
    put_time_secfrac(output, time);
    put_offset(output, offset, ":");
}

// Puts `time-secfrac`, if there is a fraction of a second.
#[inline(always)]
#[tactic(auto, using(crate::proofs::LengthLemmas::fraction_lengths))]
fn put_time_secfrac<S: Sink>(output: &mut S, time: Time)
    requires room { Fits (S.buffer output.old) time_secfrac_width }
    ensures puts { Ends time_secfrac_width (S.buffer output.old) (S.buffer output.new)
        (Ok tt) (done (time_secfrac_text time.nanosecond)) }
{
    let (_, _, _, nanosecond) = time.as_hms_nano();
    if nanosecond != 0 {
        write(output, ".");
        write_fraction(output, ru32::within(nanosecond));
    }
}
