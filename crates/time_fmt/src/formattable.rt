//! Descriptions of a text.
ghost use Rattle.std.specs.Prelude.{◌≡◌, ◌≢◌, ℕ, List, ◌+◌, ◌<◌, ◌≤◌, None, IsOk, is_err, OnOk};
ghost use Rattle.std.specs.Prelude.{IfOk, IfErr, IfSome, IsSome, IsSomeAnd, IsTrue, [], IsUtf8};
ghost use Rattle.std.specs.Prelude.{string_bytes, vec_len, vec_capacity};
ghost use Rattle.time_below.specs.Facts.{Facts};
ghost use Rattle.time_fmt.specs.Outcome.{Outcome, Names, Appends, Adds, is_out_of_memory};
ghost use Rattle.time_fmt.specs.Guarantee.{IsTextIf};
ghost use Rattle.time_fmt.specs.Lossy.{lossy_text, IsRefusedOrText};
ghost use Rattle.time_fmt.specs.Room.{HasRoom, Reserves};

mod engine;
mod lists;
mod parts;
mod trees;

use crate::error::Format;
use crate::metadata::ComputeMetadata;
use bstr::ByteVec;
pub use lists::{BorrowedItems, OwnedItems};
pub use parts::Literal;
use std::alloc::{AllocError, Global};
use time_below::format_description::Metadata;
use time_provide::ComponentProvider;
pub use trees::v3_write_into;

/// A description, by which any value is formatted.
///
/// The state that its methods take is a default one, or what earlier calls for the same value left
/// in it.
pub trait Formattable: ComputeMetadata {
    /// What is written for a value with these components.
    ghost outcome_of: { Self → Facts → Outcome };

    /// What a completed text says of a value with these components, where the description is a
    /// format with a grammar; of others nothing is said.
    ghost reads_as: { Self → Facts → List ℕ → Type 0 } = { λ _ _ _. Unit {0} };

    /// Appends the text of the value, and allocates nothing.
    ///
    /// The output needs spare capacity for the maximum length, which must be below the greatest
    /// `usize`. Returns the number of bytes appended.
    ///
    /// # Errors
    ///
    /// A component that the value does not supply, or that the description cannot represent, ends
    /// the text. The bytes appended before it stay.
    fn write_into<V: ComponentProvider>(
        &self,
        output: &mut Vec<u8>,
        value: &V,
        state: &mut V::State,
    ) -> Result<usize, Format>
        requires room { HasRoom output.old (Self.width_of self.now) }
        requires width { Self.width_of self.now < usize.MAX }
        requires agrees { V.agrees state.old value.now }
        ensures appends { Appends output.old output.new result
            (outcome_of self.now (V.facts value.now)) }
        ensures spelled { IfOk result (λ _. reads_as self.now (V.facts value.now)
            (outcome_of self.now (V.facts value.now)).bytes) }
        ensures within { vec_len output.new ≤ vec_len output.old + Self.width_of self.now }
        ensures text { IsTextIf (Self.is_guaranteed self.now)
            (outcome_of self.now (V.facts value.now)) }
        ensures agrees { V.agrees state.new value.now };

    /// Appends the text of the value, and returns the number of bytes appended.
    ///
    /// Reserves once if the spare capacity is below the maximum length: the capacity becomes what
    /// is needed, or twice what it was if that is more.
    ///
    /// # Errors
    ///
    /// A component that the value does not supply, or that the description cannot represent, ends
    /// the text. The bytes appended before it stay. If the reservation fails, or the maximum length
    /// has reached the greatest `usize`, the error is `OutOfMemory`, and output and state are
    /// unchanged.
    ///
    /// # Examples
    ///
    /// ```text
    /// let mut state = DateState::default();
    /// let count = Rfc3339.format_into(&mut line, &moment, &mut state)?;
    /// ```
    fn format_into<V: ComponentProvider>(
        &self,
        output: &mut Vec<u8>,
        value: &V,
        state: &mut V::State,
    ) -> Result<usize, Format>
        requires agrees { V.agrees state.old value.now }
        ensures appends { result ≢ Err Format.OutOfMemory
            → Adds output.old output.new result (outcome_of self.now (V.facts value.now)) }
        ensures spelled { IfOk result (λ _. reads_as self.now (V.facts value.now)
            (outcome_of self.now (V.facts value.now)).bytes) }
        ensures within { vec_len output.new ≤ vec_len output.old + Self.width_of self.now }
        ensures text { result ≢ Err Format.OutOfMemory
            → IsTextIf (Self.is_guaranteed self.now) (outcome_of self.now (V.facts value.now)) }
        ensures agrees { V.agrees state.new value.now }
        ensures reserves { Reserves output.old (Self.width_of self.now) (vec_capacity output.new)
            (is_out_of_memory result) }

        // `OutOfMemory` changes nothing, and is never returned if the maximum length fits.
        ensures unchanged { result ≡ Err Format.OutOfMemory → output.new.items ≡ output.old.items }
        ensures same_state { result ≡ Err Format.OutOfMemory → state.new ≡ state.old }
        ensures too_wide { usize.MAX ≤ Self.width_of self.now → result ≡ Err Format.OutOfMemory }
        ensures room { HasRoom output.old (Self.width_of self.now)
            → Self.width_of self.now < usize.MAX
            → result ≢ Err Format.OutOfMemory }
    {
        let width = self.compute_metadata().max_bytes_needed;
        if width == usize::MAX || make_room(output, width).is_err() {
            return Err(Format::OutOfMemory);
        }
        self.write_into(output, value, state)
    }

    /// Returns the text of the value, after one reservation.
    ///
    /// Bytes that are not UTF-8, which only byte literals make, are read as a whole with U+FFFD for
    /// each ill-formed part.
    ///
    /// # Errors
    ///
    /// A component that the value does not supply, or that the description cannot represent, is
    /// refused. The error is `OutOfMemory` if an allocation fails, for the text or for reading
    /// bytes that are not UTF-8, or if the maximum length has reached the greatest `usize`.
    final fn format<V: ComponentProvider>(
        &self,
        alloc: Global,
        value: &V,
        state: &mut V::State,
    ) -> Result<String, Format>
        requires agrees { V.agrees state.old value.now }
        ensures text { IfOk result (λ text. string_bytes text
            ≡ lossy_text (outcome_of self.now (V.facts value.now)).bytes) }
        ensures valid { IfOk result (λ text. IsUtf8 (outcome_of self.now (V.facts value.now)).bytes
            → string_bytes text ≡ (outcome_of self.now (V.facts value.now)).bytes) }
        ensures exact { IfOk result (λ text. IsTrue (Self.is_guaranteed self.now)
            → string_bytes text ≡ (outcome_of self.now (V.facts value.now)).bytes) }
        ensures guaranteed { result ≢ Err Format.OutOfMemory
            → IsTextIf (Self.is_guaranteed self.now) (outcome_of self.now (V.facts value.now)) }
        ensures spelled { IfOk result (λ _. reads_as self.now (V.facts value.now)
            (outcome_of self.now (V.facts value.now)).bytes) }
        ensures complete { OnOk result ((outcome_of self.now (V.facts value.now)).refusal ≡ None) }
        ensures named { IfErr result (λ e. e ≢ Format.OutOfMemory
            → IsSomeAnd (outcome_of self.now (V.facts value.now)).refusal (Names e)) }
        ensures agrees { V.agrees state.new value.now }

        // `OutOfMemory` leaves the state unchanged where the outcome has a refusal or is UTF-8.
        ensures same_state { result ≡ Err Format.OutOfMemory
            → IsRefusedOrText (outcome_of self.now (V.facts value.now)) → state.new ≡ state.old }
        ensures too_wide { usize.MAX ≤ Self.width_of self.now → result ≡ Err Format.OutOfMemory }
        ensures nothing_needed { Self.width_of self.now ≡ 0 → result ≢ Err Format.OutOfMemory }
    {
        let Metadata {
            max_bytes_needed: width,
            guaranteed_utf8: is_text,
        } = self.compute_metadata();
        let Some(mut output) = with_room(alloc, width) else {
            return Err(Format::OutOfMemory);
        };
        match self.write_into(&mut output, value, state) {
            Ok(_) if is_text => Ok(text_of(output)),
            Ok(_) => into_text(output),
            Err(refusal) => Err(refusal),
        }
    }
}

/// Reserves spare capacity for this many bytes if it is missing.
///
/// One reservation at least doubles the capacity. If it fails, the vector is unchanged.
pub fn make_room(output: &mut Vec<u8>, width: usize) -> Result<(), AllocError>
    ensures items { output.new.items ≡ output.old.items }
    ensures len { vec_len output.new ≡ vec_len output.old }
    ensures room { OnOk result (HasRoom output.new width) }
    ensures fits { HasRoom output.old width → IsOk result }
    ensures reserves { Reserves output.old width (vec_capacity output.new) (is_err result) }
{
    if width <= output.capacity() - output.len() {
        return Ok(());
    }
    grow(output, width)
}

/// Reserves spare capacity for this many bytes, of which some are missing. A call of its own keeps
/// the fast path free of what this one needs.
#[cold]
fn grow(output: &mut Vec<u8>, width: usize) -> Result<(), AllocError>
    requires missing { vec_capacity output.old < vec_len output.old + width }
    ensures items { output.new.items ≡ output.old.items }
    ensures len { vec_len output.new ≡ vec_len output.old }
    ensures room { OnOk result (HasRoom output.new width) }
    ensures reserves { Reserves output.old width (vec_capacity output.new) (is_err result) }
{
    let (len, capacity) = (output.len(), output.capacity());
    output.reserve_exact(width.max(capacity.saturating_add(capacity - len)))
}

/// An empty vector with room for so many bytes, if they are fewer than the greatest `usize` and are
/// there.
fn with_room(alloc: Global, width: usize) -> Option<Vec<u8>>
    ensures items { IfSome result (λ v. v.items ≡ []) }
    ensures len { IfSome result (λ v. vec_len v ≡ 0) }
    ensures room { IfSome result (λ v. width ≤ vec_capacity v) }
    ensures narrow { IfSome result (λ _. width < usize.MAX) }
    ensures nothing_needed { width ≡ 0 → IsSome result }
{
    if width == usize::MAX {
        return None;
    }
    Vec::with_capacity(alloc, width).ok()
}

/// The bytes as a text, which they are known to be.
fn text_of(bytes: Vec<u8>) -> String
    requires { IsUtf8 bytes.items }
    ensures text { string_bytes result ≡ lossy_text bytes.items }
    ensures exact { string_bytes result ≡ bytes.items }
{
    unsafe { String::from_utf8_unchecked(bytes) }
}

/// The bytes as a text, with U+FFFD for what is no character; valid bytes are not copied.
fn into_text(bytes: Vec<u8>) -> Result<String, Format>
    ensures text { IfOk result (λ text. string_bytes text ≡ lossy_text bytes.items) }
    ensures exact { IfOk result (λ text. IsUtf8 bytes.items → string_bytes text ≡ bytes.items) }
    ensures succeeds { IsUtf8 bytes.items → IsOk result }
    ensures memory { IfErr result (λ e. e ≡ Format.OutOfMemory) }
{
    match bytes.into_string_lossy() {
        Ok(text) => Ok(text),
        Err(_) => Err(Format::OutOfMemory),
    }
}
