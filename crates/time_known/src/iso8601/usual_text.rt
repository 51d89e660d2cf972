//! The texts of the usual configurations, of fields of which nothing is refused.
#![tactic(auto, using(crate::proofs::LengthLemmas::joined_lengths))]

ghost use Rattle.std.specs.Prelude.{◌≡◌, MatchOption, OnSome, Ok, Some};
ghost use Rattle.time_fmt.specs.Outcome.{AppendsUpTo};
ghost use Rattle.time_fmt.specs.Room.{HasRoom};
ghost use Rattle.time_known.specs.Config.{default_choices};
ghost use Rattle.time_known.specs.Fields.{shown};
ghost use Rattle.time_known.specs.Groups.{AreAllSupplied};
ghost use Rattle.time_known.specs.Iso8601.{iso8601_outcome};
ghost use Rattle.time_known.specs.Iso8601Width.{iso8601_width};
ghost use Rattle.time_known.specs.Stamps.{stamp_length};
ghost use Rattle.time_known.specs.UsualText.{choices_of, usual_text};
ghost use Rattle.time_known.specs.Values.{utc};
ghost use Rattle.time_provide.specs.Real.{AreReal};

use crate::fields::{Fields, accepted_fields};
use crate::iso8601::config::{DecimalSign, Usual};
use crate::iso8601::time::put_to_second;
use crate::put::{put_date, put_offset};
use crate::sink::{Text, append};
use time_digits::ru8;
use time_fmt::Sink;
use time_fmt::writers::write;
use time_provide::ComponentProvider;

/// Appends the text by these choices, and returns the number of its bytes. Appends nothing where the
/// year or the offset has no place in it.
///
/// Without this path the row "ISO 8601 by default" is more than a fifth dearer.
pub(super) fn append_usual<V: ComponentProvider>(
    output: &mut Vec<u8>,
    usual: Usual,
    value: &V,
    state: &mut V::State,
) -> Option<usize>
    requires supplied { AreAllSupplied V.SUPPLIES_DATE V.SUPPLIES_TIME V.SUPPLIES_OFFSET }
    requires room { HasRoom output.old (iso8601_width (choices_of usual)) }
    requires agrees { V.agrees state.old value.now }
    ensures appends { MatchOption result (output.new ≡ output.old)
        (λ count. AppendsUpTo (iso8601_width (choices_of usual)) output.old output.new (Ok count)
        (iso8601_outcome (choices_of usual) (V.facts value.now))) }
    ensures real { OnSome result (AreReal (V.facts value.now)) }
    ensures agrees { V.agrees state.new value.now }
{
    match accepted_fields(0, 25, value, state) {
        Ok(fields) => Some(append(output, &SeparatedText { usual, fields })),
        Err(_) => None,
    }
}

/// The text by the choices of [`Usual`], of fields of which nothing is refused.
#[derive(Clone, Copy)]
pub struct SeparatedText {
    /// The decimals and their sign.
    pub usual: Usual,
    /// The fields.
    pub fields: Fields,
}

impl Text for SeparatedText {
    ghost width = { λ t. iso8601_width (choices_of t.usual) };

    ghost text = { λ t. usual_text (choices_of t.usual) t.usual.decimal_digits
        (shown t.fields).date t.fields.time t.fields.offset };

    #[inline(always)]
    fn put_into<S: Sink>(&self, output: &mut S) {
        let Usual {
            decimal_digits,
            decimal_sign,
        } = self.usual;
        put_date(output, &self.fields, "-");
        write(output, "T");
        put_to_second(output, self.fields.time, decimal_sign, decimal_digits);
        put_offset(output, self.fields.offset, ":");
    }
}

/// The stamp of a date and a time of day in UTC, by fields of which nothing is refused.
#[derive(Clone, Copy)]
pub struct StampText {
    /// The fields, of which the offset is not shown.
    pub fields: Fields,
}

impl Text for StampText {
    ghost width = { λ _. stamp_length };

    ghost text = { λ t. usual_text default_choices (Some 9) (shown t.fields).date t.fields.time
        utc };

    #[inline(always)]
    fn put_into<S: Sink>(&self, output: &mut S) {
        let nine = Some(ru8::within(9));
        put_date(output, &self.fields, "-");
        write(output, "T");
        put_to_second(output, self.fields.time, DecimalSign::Point, nine);
        write(output, "Z");
    }
}
