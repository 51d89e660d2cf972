//! Reading the texts of a description.
ghost use Rattle.std.specs.Prelude.{◌≡◌, ◌≤◌, IfErr, IfNone, IfOk, length};
ghost use Rattle.time_below.specs.Facts.{Facts};
ghost use Rattle.time_fmt.specs.Outcome.{Outcome, done};
ghost use Rattle.time_read.specs.Described.{BeginsWith};

use crate::fault::{Expected, NotRead, Unexpected, not_read};
use crate::values::Readable;
use crate::values::kinds::Kinds;
use crate::values::text_fields::TextFields;
use crate::written::no_value;
use std::marker::PhantomData;
use time_fmt::ComponentProvider;

/// A description whose texts are read: the fields of a text, and the comparison of a text with that
/// of a value.
pub(crate) trait Described {
    /// What is written of a value.
    ghost outcome_of: { Self → Facts → Outcome };

    /// Reads a text into the fields, and returns what follows. Of a text that is none of the
    /// description the fields have the place.
    fn read_fields<'a>(&self, text: &'a [u8], fields: &mut TextFields) -> Option<&'a [u8]>;

    /// The first byte at which a text is not that of the value, if there is one.
    fn difference<V: ComponentProvider>(&self, text: &[u8], value: &V) -> Option<Unexpected>
    where
        V::State: Drop,
        ensures { IfNone result (outcome_of self.now (V.facts value.now) ≡ done text.now) };
}

/// Which components of a type's values are read, and the numbers that complete them.
#[derive(Drop)]
pub(crate) struct Reading<V> {
    pub(crate) kinds: Kinds,
    pub(crate) base: TextFields,
    value: PhantomData<V>,
}

/// The fault of a text that is none of the description, or whose numbers are those of no value.
#[cold]
#[inline(never)]
fn fault_of(text: &[u8], fields: &TextFields) -> NotRead
    ensures { result.at ≤ length text.now }
{
    not_read(text, fields.stop.unwrap_or(no_value(text)))
}

/// The fault of a text by that of its front.
#[cold]
#[inline(never)]
fn fault_of_front(front: &[u8], text: &[u8], fault: Unexpected) -> NotRead
    ensures { result.at ≤ length text.now }
{
    let behind = text.len().saturating_sub(front.len());
    let left = fault.left.saturating_add(behind);
    not_read(text, Unexpected { left, ..fault })
}

impl<V: Readable> Reading<V> {
    /// The reading of these components, which are completed by these numbers.
    pub(crate) fn new(kinds: Kinds, base: TextFields) -> Reading<V> {
        Reading {
            kinds,
            base,
            value: PhantomData,
        }
    }

    /// The value that is written as this text, or the first fault of the text.
    #[inline(always)]
    pub(crate) fn read<D: Described>(&self, described: &D, text: &[u8]) -> Result<V, NotRead>
    where
        V::State: Drop,
        V: Drop,
        ensures written { IfOk result (λ value.
            D.outcome_of described.now (V.facts value) ≡ done text.now) }
        ensures inside { IfErr result (λ fault. fault.at ≤ length text.now) }
    {
        let mut fields = self.base;
        let Some(rest) = described.read_fields(text, &mut fields) else {
            return Err(fault_of(text, &fields));
        };
        if !rest.is_empty() {
            let left = rest.len();
            let expected = Expected::End;
            return Err(not_read(text, Unexpected { left, expected }));
        }
        self.value_of(described, text, text, &fields)
    }

    /// The value of the numbers of this text, if there is one. It may be written otherwise.
    #[inline(always)]
    pub(crate) fn candidate<D: Described>(&self, described: &D, text: &[u8]) -> Option<V> {
        let mut fields = self.base;
        match described.read_fields(text, &mut fields) {
            Some([]) => V::of_fields(&fields, self.kinds),
            _ => None,
        }
    }

    /// The value that is written as the front of this text, and the rest of the text, or the
    /// first fault.
    ///
    /// A number takes all digits that stand there and that it can have.
    pub(crate) fn read_front<'t, D: Described>(
        &self,
        described: &D,
        text: &'t [u8],
    ) -> Result<(V, &'t [u8]), NotRead>
    where
        V::State: Drop,
        V: Drop,
        ensures written { IfOk result (λ read. BeginsWith
            (D.outcome_of described.now (V.facts read.0)) text.now read.1.now) }
        ensures inside { IfErr result (λ fault. fault.at ≤ length text.now) }
    {
        let mut fields = self.base;
        let Some(left) = described.read_fields(text, &mut fields) else {
            return Err(fault_of(text, &fields));
        };
        let (front, rest) = text.split_at(text.len().saturating_sub(left.len()));
        match self.value_of(described, front, text, &fields) {
            Ok(value) => Ok((value, rest)),
            Err(fault) => Err(fault),
        }
    }

    /// The value of the numbers that were read at the front of a text, if that is written as the
    /// front.
    #[inline(always)]
    fn value_of<D: Described>(
        &self,
        described: &D,
        front: &[u8],
        text: &[u8],
        fields: &TextFields,
    ) -> Result<V, NotRead>
    where
        V::State: Drop,
        V: Drop,
        ensures written { IfOk result (λ value.
            D.outcome_of described.now (V.facts value) ≡ done front.now) }
        ensures inside { IfErr result (λ fault. fault.at ≤ length text.now) }
    {
        let Some(value) = V::of_fields(fields, self.kinds) else {
            return Err(fault_of(text, fields));
        };
        match described.difference(front, &value) {
            None => Ok(value),
            Some(fault) => Err(fault_of_front(front, text, fault)),
        }
    }
}
