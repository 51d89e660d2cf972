//! Plans of descriptions that are texts.
ghost use Rattle.std.specs.Prelude.{length, IfOk, IfErr};
ghost use Rattle.std.specs.Result.{IsOkAnd};
ghost use Rattle.time_describe.specs.Description.{tree_of, IsWithin, Says, SaysFault};
ghost use Rattle.time_describe.specs.Reading as reading;
ghost use Rattle.time_describe.specs.Strftime as strftime;
ghost use Rattle.time_fmt.specs.Laws.{Means};

use crate::plan::Plan;
use std::alloc::Global;
use time_describe::{Brackets, InvalidDescription, InvalidStrftime, Strftime, Syntax, parse};
use time_fmt::{ComputeMetadata, Formattable};

/// The plan of a text in a syntax.
fn plan_of<S: Syntax>(alloc: Global, text: &[u8]) -> Result<Plan, InvalidDescription<S::Reason>>
    ensures means { IfOk result (λ plan. IsOkAnd (tree_of (S.described text.now))
        (Means
        (⟦<Plan as Formattable>⟧.outcome_of plan)
        (⟦<Plan as ComputeMetadata>⟧.width_of plan)
        (⟦<Plan as ComputeMetadata>⟧.is_guaranteed plan))) }
    ensures says { IfErr result (Says (length text.now) (S.described text.now)) }
    ensures inside { IfErr result (IsWithin (length text.now)) }
    ensures says_fault { IfErr result (SaysFault (S.described text.now)) }
{
    match parse::<S>(alloc, text) {
        Ok(item) => match Plan::of(alloc, &item) {
            Ok(plan) => Ok(plan),
            Err(_) => Err(InvalidDescription::OutOfMemory),
        },
        Err(error) => Err(error),
    }
}

impl Plan {
    /// Returns the plan of a text in the syntax of `time`'s format descriptions, version 2.
    ///
    /// # Errors
    ///
    /// The error is that of `parse_owned` of `time_describe`: the first fault, with the index of
    /// its byte. A failed allocation is the error only of a text without a fault.
    ///
    /// # Examples
    ///
    /// ```text
    /// let plan = Plan::parse(alloc, b"[year]-[month]-[day]")?;
    /// moment.format_into(&mut line, &plan)?;
    /// ```
    pub fn parse(alloc: Global, text: &[u8]) -> Result<Plan, InvalidDescription>
        ensures means { IfOk result (λ plan. IsOkAnd (tree_of (reading.described text.now))
            (Means
            (⟦<Plan as Formattable>⟧.outcome_of plan)
            (⟦<Plan as ComputeMetadata>⟧.width_of plan)
            (⟦<Plan as ComputeMetadata>⟧.is_guaranteed plan))) }
        ensures says { IfErr result (Says (length text.now) (reading.described text.now)) }
        ensures inside { IfErr result (IsWithin (length text.now)) }
        ensures says_fault { IfErr result (SaysFault (reading.described text.now)) }
    {
        plan_of::<Brackets>(alloc, text)
    }

    /// Returns the plan of a text in the syntax of `strftime`.
    ///
    /// # Errors
    ///
    /// The error is the first fault, with the index of its byte. A failed allocation is the error
    /// only of a text without a fault.
    ///
    /// # Examples
    ///
    /// ```text
    /// let plan = Plan::parse_strftime(alloc, b"%Y-%m-%d")?;
    /// ```
    pub fn parse_strftime(alloc: Global, text: &[u8]) -> Result<Plan, InvalidStrftime>
        ensures means { IfOk result (λ plan. IsOkAnd (tree_of (strftime.described text.now))
            (Means
            (⟦<Plan as Formattable>⟧.outcome_of plan)
            (⟦<Plan as ComputeMetadata>⟧.width_of plan)
            (⟦<Plan as ComputeMetadata>⟧.is_guaranteed plan))) }
        ensures says { IfErr result (Says (length text.now) (strftime.described text.now)) }
        ensures inside { IfErr result (IsWithin (length text.now)) }
        ensures says_fault { IfErr result (SaysFault (strftime.described text.now)) }
    {
        plan_of::<Strftime>(alloc, text)
    }
}
