//! Values that are formatted by the calls of `time`.
ghost use Rattle.std.specs.Prelude.{◌≡◌, ◌≢◌, ◌+◌, ◌<◌, ◌≤◌, None, OnOk, IfOk, IfErr, IsSomeAnd};
ghost use Rattle.std.specs.Prelude.{IsTrue, IsUtf8, string_bytes, vec_len, vec_capacity};
ghost use Rattle.time_fmt.specs.Guarantee.{IsTextIf};
ghost use Rattle.time_fmt.specs.Lossy.{lossy_text};
ghost use Rattle.time_fmt.specs.Outcome.{Names, Appends, Adds, is_out_of_memory};
ghost use Rattle.time_fmt.specs.Room.{HasRoom, Reserves};

use std::alloc::Global;
use std::default::Default;
use time_fmt::{Format, Formattable};
use time_provide::ComponentProvider;

/// A value, which any description formats.
///
/// Nothing is cached between two calls. The calls of `Formattable` take a state, and cache the
/// costly components of a value in it for the next text.
pub trait FormatValue: ComponentProvider
where
    Self::State: Drop,
{
    /// Appends the text of the value, and returns the number of bytes appended.
    ///
    /// Reserves once if the spare capacity is below the maximum length: the capacity becomes what
    /// is needed, or twice what it was if that is more.
    ///
    /// # Errors
    ///
    /// A component that the value does not supply, or that the format cannot represent, ends the
    /// text. The bytes appended before it stay. If the reservation fails, or the maximum length has
    /// reached the greatest `usize`, the error is `OutOfMemory`, and the output is unchanged.
    ///
    /// # Examples
    ///
    /// ```text
    /// let mut line = Vec::new(rt.alloc());
    /// moment.format_into(&mut line, &Rfc3339)?; // 2026-11-22T09:55:06.12-06:00
    /// ```
    #[inline(always)]
    final fn format_into<F: Formattable>(
        &self,
        output: &mut Vec<u8>,
        format: &F,
    ) -> Result<usize, Format>
        ensures appends { result ≢ Err Format.OutOfMemory → Adds output.old output.new result
            (F.outcome_of format.now (Self.facts self.now)) }
        ensures spelled { IfOk result (λ _. F.reads_as format.now (Self.facts self.now)
            (F.outcome_of format.now (Self.facts self.now)).bytes) }
        ensures within { vec_len output.new ≤ vec_len output.old + F.width_of format.now }
        ensures text { result ≢ Err Format.OutOfMemory → IsTextIf (F.is_guaranteed format.now)
            (F.outcome_of format.now (Self.facts self.now)) }
        ensures reserves { Reserves output.old (F.width_of format.now) (vec_capacity output.new)
            (is_out_of_memory result) }

        // `OutOfMemory` changes nothing, and is never returned if the maximum length fits.
        ensures unchanged { result ≡ Err Format.OutOfMemory → output.new.items ≡ output.old.items }
        ensures too_wide { usize.MAX ≤ F.width_of format.now → result ≡ Err Format.OutOfMemory }
        ensures room { HasRoom output.old (F.width_of format.now)
            → F.width_of format.now < usize.MAX
            → result ≢ Err Format.OutOfMemory }
    {
        format.format_into(output, self, &mut Self::State::default())
    }

    /// Appends the text of the value, and allocates nothing.
    ///
    /// The output needs spare capacity for the maximum length, which must be below the greatest
    /// `usize`. Returns the number of bytes appended.
    ///
    /// # Errors
    ///
    /// A component that the value does not supply, or that the format cannot represent, ends the
    /// text. The bytes appended before it stay.
    #[inline(always)]
    final fn write_into<F: Formattable>(
        &self,
        output: &mut Vec<u8>,
        format: &F,
    ) -> Result<usize, Format>
        requires room { HasRoom output.old (F.width_of format.now) }
        requires width { F.width_of format.now < usize.MAX }
        ensures appends { Appends output.old output.new result
            (F.outcome_of format.now (Self.facts self.now)) }
        ensures spelled { IfOk result (λ _. F.reads_as format.now (Self.facts self.now)
            (F.outcome_of format.now (Self.facts self.now)).bytes) }
        ensures within { vec_len output.new ≤ vec_len output.old + F.width_of format.now }
        ensures text { IsTextIf (F.is_guaranteed format.now)
            (F.outcome_of format.now (Self.facts self.now)) }
    {
        format.write_into(output, self, &mut Self::State::default())
    }

    /// Returns the text of the value, after one reservation.
    ///
    /// Bytes that are not UTF-8, which only byte literals make, are read as a whole with U+FFFD for
    /// each ill-formed part.
    ///
    /// # Errors
    ///
    /// A component that the value does not supply, or that the format cannot represent, is refused.
    /// The error is `OutOfMemory` if an allocation fails, for the text or for reading bytes that
    /// are not UTF-8, or if the maximum length has reached the greatest `usize`.
    ///
    /// # Examples
    ///
    /// ```text
    /// let day = moment.format(rt.alloc(), &text!(WEEKDAY, b", ", DAY, b" ", MONTH_LONG))?;
    /// ```
    #[inline(always)]
    final fn format<F: Formattable>(&self, alloc: Global, format: &F) -> Result<String, Format>
        ensures text { IfOk result (λ text. string_bytes text
            ≡ lossy_text (F.outcome_of format.now (Self.facts self.now)).bytes) }
        ensures valid { IfOk result (λ text.
            IsUtf8 (F.outcome_of format.now (Self.facts self.now)).bytes
            → string_bytes text ≡ (F.outcome_of format.now (Self.facts self.now)).bytes) }
        ensures exact { IfOk result (λ text. IsTrue (F.is_guaranteed format.now)
            → string_bytes text ≡ (F.outcome_of format.now (Self.facts self.now)).bytes) }
        ensures guaranteed { result ≢ Err Format.OutOfMemory
            → IsTextIf (F.is_guaranteed format.now)
            (F.outcome_of format.now (Self.facts self.now)) }
        ensures spelled { IfOk result (λ _. F.reads_as format.now (Self.facts self.now)
            (F.outcome_of format.now (Self.facts self.now)).bytes) }
        ensures complete { OnOk result
            ((F.outcome_of format.now (Self.facts self.now)).refusal ≡ None) }
        ensures named { IfErr result (λ e. e ≢ Format.OutOfMemory
            → IsSomeAnd (F.outcome_of format.now (Self.facts self.now)).refusal (Names e)) }

        // `OutOfMemory` is certain if the maximum length is too great, and is never returned if
        // nothing is needed.
        ensures too_wide { usize.MAX ≤ F.width_of format.now → result ≡ Err Format.OutOfMemory }
        ensures nothing_needed { F.width_of format.now ≡ 0 → result ≢ Err Format.OutOfMemory }
    {
        format.format(alloc, self, &mut Self::State::default())
    }
}

impl<V: ComponentProvider> FormatValue for V
where
    V::State: Drop,
{}
