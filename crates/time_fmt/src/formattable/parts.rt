//! Descriptions that are known at compile time: a text, the choices of a component, and a pair of
//! descriptions.
ghost use Rattle.std.specs.Char.{is_ascii};
ghost use Rattle.std.specs.List.{list_all};
ghost use Rattle.std.specs.Prelude.{◌≡◌, ◌+◌, ◌&&◌, length, true};
ghost use Rattle.time_below.specs.Width.{component_width};
ghost use Rattle.time_fmt.specs.Description.{component_outcome};
ghost use Rattle.time_fmt.specs.Outcome.{done, join};

use crate::error::Format;
use crate::formattable::{Formattable, make_room};
use crate::metadata::ComputeMetadata;
use crate::modifier::{Modifier, write_part};
use crate::writers::{put_back, take_out, write_each};
use time_below::format_description::{Metadata, component_width};
use time_provide::ComponentProvider;

/// A text as it is, of this many bytes. It is guaranteed to be UTF-8 if it is ASCII.
#[derive(Clone, Copy)]
pub struct Literal<const N: usize>(pub [u8; N]);

impl<const N: usize> ComputeMetadata for Literal<N> {
    ghost width_of = { λ text. length text.0 };

    ghost is_guaranteed = { λ text. list_all is_ascii text.0 };

    fn compute_metadata(&self) -> Metadata {
        Metadata {
            max_bytes_needed: N,
            guaranteed_utf8: is_text(self.0.as_slice()),
        }
    }
}

impl<const N: usize> Formattable for Literal<N> {
    ghost outcome_of = { λ text _. done text.0 };

    fn write_into<V: ComponentProvider>(
        &self,
        output: &mut Vec<u8>,
        _value: &V,
        _state: &mut V::State,
    ) -> Result<usize, Format> {
        Ok(write_each(output, self.0.as_slice()))
    }
}

// Whether the bytes are ASCII.
fn is_text(bytes: &[u8]) -> bool
    ensures { result ≡ list_all is_ascii bytes.now }
{
    bytes.iter().all(|byte| byte.is_ascii())
}

/// One description after the other.
impl<A: ComputeMetadata, B: ComputeMetadata> ComputeMetadata for (A, B) {
    ghost width_of = { λ both. A.width_of both.0 + B.width_of both.1 };

    ghost is_guaranteed = { λ both. A.is_guaranteed both.0 && B.is_guaranteed both.1 };

    fn compute_metadata(&self) -> Metadata {
        self.0.compute_metadata() + self.1.compute_metadata()
    }
}

impl<A: Formattable, B: Formattable> Formattable for (A, B) {
    ghost outcome_of = { λ both facts.
        join (A.outcome_of both.0 facts) (B.outcome_of both.1 facts) };

    #[inline(always)]
    fn write_into<V: ComponentProvider>(
        &self,
        output: &mut Vec<u8>,
        value: &V,
        state: &mut V::State,
    ) -> Result<usize, Format> {
        match self.0.write_into(output, value, state) {
            Ok(first) => match self.1.write_into(output, value, state) {
                Ok(second) => Ok(first + second),
                Err(refusal) => Err(refusal),
            },
            Err(refusal) => Err(refusal),
        }
    }

    // This becomes part of the caller, where the choices are known. The vector is taken out
    // meanwhile, so that its address and length stay in registers.
    #[inline(always)]
    fn format_into<V: ComponentProvider>(
        &self,
        output: &mut Vec<u8>,
        value: &V,
        state: &mut V::State,
    ) -> Result<usize, Format> {
        let width = self.compute_metadata().max_bytes_needed;
        if width == usize::MAX || make_room(output, width).is_err() {
            return Err(Format::OutOfMemory);
        }
        let mut taken = take_out(output);
        let begin = taken.len();
        let written = self.write_into(&mut taken, value, state);
        let end = taken.len();
        put_back(output, taken);
        match written {
            Ok(_) => Ok(end - begin),
            Err(refusal) => Err(refusal),
        }
    }
}

/// The choices of one component.
impl<M: Modifier> ComputeMetadata for M {
    ghost width_of = { λ part. component_width (M.component_of part) };

    ghost is_guaranteed = { λ _. true };

    fn compute_metadata(&self) -> Metadata {
        Metadata {
            max_bytes_needed: component_width(&self.component()),
            guaranteed_utf8: true,
        }
    }
}

impl<M: Modifier> Formattable for M {
    ghost outcome_of = { λ part. component_outcome (M.component_of part) };

    #[inline(always)]
    #[tactic(auto, using(crate::proofs::EndLemmas::answered))]
    fn write_into<V: ComponentProvider>(
        &self,
        output: &mut Vec<u8>,
        value: &V,
        state: &mut V::State,
    ) -> Result<usize, Format> {
        let begin = output.len();
        write_part(*self, output, value, state)?;
        Ok(output.len() - begin)
    }
}
