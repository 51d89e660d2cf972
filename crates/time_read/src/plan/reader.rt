//! Readers of the texts of a plan, and of steps of any kind.
ghost use Rattle.std.specs.Prelude.{◌≡◌, ◌≤◌, IfErr, IfOk, length, map};
ghost use Rattle.time_below.specs.Tree.{trees};
ghost use Rattle.time_fmt.specs.Description.{trees_outcome};
ghost use Rattle.time_fmt.specs.Outcome.{done};
ghost use Rattle.time_read.specs.Described.{BeginsWith};

use crate::fault::{NoReader, NotRead};
use crate::plan::any_step::{ReadStep, shown_by};
use crate::plan::behind::StepsFrom;
use crate::plan::described::Steps;
use crate::reading::Reading;
use crate::values::Readable;
use crate::values::clock::clear_finer_time;
use crate::values::kinds::Kinds;
use crate::values::moments::clear_finer_offset;
use crate::values::text_fields::TextFields;
use std::default::Default;
use time_below::format_description::Group;
use time_fmt::{ComponentProvider, Formattable};
use time_plan::{Plan, Run, Shown, Step};

/// Reads the texts of a plan as values of a type.
///
/// What is read is written by the plan as the very text. So a text is refused that no value has by
/// the plan, as one with another weekday than that of its date, or with zeros or spaces that the
/// plan does not write.
#[derive(Drop)]
pub struct Reader<'a, V> {
    /// The plan.
    pub plan: &'a Plan,
    reading: Reading<V>,
}

/// Reads the texts of steps of any kind as values of a type, as a `Reader` those of a plan.
#[derive(Drop)]
pub struct StepsReader<'a, T, V> {
    /// The steps.
    pub steps: &'a [T],
    /// What their literals lie in.
    pub texts: &'a [u8],
    reading: Reading<V>,
}

/// The readers of a plan.
pub trait ReadPlan {
    /// The reader of texts of the plan as values of a type. What no text shows is zero.
    ///
    /// Refused are plans whose texts do not determine a value, or show what no value of the type
    /// has, and numbers of no certain width before digits whose number is not certain either.
    fn reader<V: Readable>(&self) -> Result<Reader<'_, V>, NoReader>;

    /// The reader of texts of the plan as values of a type. What no text shows is taken from a base
    /// value.
    ///
    /// Where the texts show a part of the time of day, or of the offset, what is finer is zero. A
    /// part of a date is completed by the base's year, century, month, day or weekday.
    fn reader_from<V: Readable>(&self, base: &V) -> Result<Reader<'_, V>, NoReader>;
}

impl ReadPlan for Plan {
    fn reader<V: Readable>(&self) -> Result<Reader<'_, V>, NoReader>
        ensures plan { IfOk result (λ reader. reader.plan.now ≡ self.now) }
    {
        let kinds = shown_by(self.steps(), &[]);
        if !V::is_determined(kinds) {
            return Err(NoReader::Undetermined);
        }
        reader_of(self, kinds, TextFields::default())
    }

    fn reader_from<V: Readable>(&self, base: &V) -> Result<Reader<'_, V>, NoReader>
        ensures plan { IfOk result (λ reader. reader.plan.now ≡ self.now) }
    {
        let shown = shown_by(self.steps(), &[]);
        let mut fields = base.fields();
        clear_finer_time(&mut fields, shown);
        clear_finer_offset(&mut fields, shown);
        reader_of(self, V::completed(shown), fields)
    }
}

/// The reader of these components, which completes them by these numbers.
fn reader_of<V: Readable>(
    plan: &Plan,
    kinds: Kinds,
    base: TextFields,
) -> Result<Reader<'_, V>, NoReader>
    ensures plan { IfOk result (λ reader. reader.plan.now ≡ plan.now) }
{
    match refusal_of::<Step, V>(plan.steps(), &[]) {
        Some(refused) => Err(refused),
        None => Ok(Reader {
            plan,
            reading: Reading::new(kinds, base),
        }),
    }
}

/// Returns the reader of texts of these steps, whose literals may lie in other bytes, as values of
/// a type. What no text shows is zero.
///
/// Refused are steps as the plans of which `ReadPlan::reader` has no reader.
pub fn reader_of_steps<'a, T: ReadStep, V: Readable>(
    steps: &'a [T],
    texts: &'a [u8],
) -> Result<StepsReader<'a, T, V>, NoReader>
    ensures steps { IfOk result (λ reader. reader.steps.now ≡ steps.now) }
    ensures texts { IfOk result (λ reader. reader.texts.now ≡ texts.now) }
{
    match readable_kinds::<T, V>(steps, texts) {
        Ok(kinds) => Ok(reader_by_kinds(steps, texts, kinds)),
        Err(refused) => Err(refused),
    }
}

/// Returns what `reader_by_kinds` takes to read texts of these steps as values of a type, or why
/// `reader_of_steps` has no reader.
pub fn readable_kinds<T: ReadStep, V: Readable>(
    steps: &[T],
    texts: &[u8],
) -> Result<Kinds, NoReader> {
    let kinds = shown_by(steps, texts);
    if !V::is_determined(kinds) {
        return Err(NoReader::Undetermined);
    }
    match refusal_of::<T, V>(steps, texts) {
        Some(refused) => Err(refused),
        None => Ok(kinds),
    }
}

/// Returns the reader of `reader_of_steps`, by what `readable_kinds` returned for the same steps
/// and type.
///
/// By other kinds of components it refuses texts that the steps write. What it reads is written by
/// the steps as the very text all the same.
#[inline(always)]
pub fn reader_by_kinds<'a, T: ReadStep, V: Readable>(
    steps: &'a [T],
    texts: &'a [u8],
    kinds: Kinds,
) -> StepsReader<'a, T, V>
    ensures steps { result.steps.now ≡ steps.now }
    ensures texts { result.texts.now ≡ texts.now }
{
    StepsReader {
        steps,
        texts,
        reading: Reading::new(kinds, TextFields::default()),
    }
}

/// The first step by which texts are not read.
fn refusal_of<T: ReadStep, V: Readable>(steps: &[T], texts: &[u8]) -> Option<NoReader> {
    let mut left = steps;
    let mut index = 0usize;
    'steps: while let [step, others @ ..] = left {
        if !supplies::<V>(&step.parts(texts).shown) {
            return Some(NoReader::Unsupplied(index));
        }
        let here = StepsFrom {
            step,
            others,
            texts,
        };
        if here.are_ambiguous() {
            return Some(NoReader::Ambiguous(index));
        }
        index = index.saturating_add(1);
        left = others;
    }
    None
}

/// Whether the values of a type have what a step shows.
fn supplies<V: Readable>(shown: &Shown) -> bool {
    match shown {
        Shown::Nothing => true,
        Shown::Run(Run::Date(_)) => V::SUPPLIES_DATE,
        Shown::Run(Run::Time(_)) => V::SUPPLIES_TIME,
        Shown::Component(component) => match component.group() {
            Group::Date => V::SUPPLIES_DATE,
            Group::Time => V::SUPPLIES_TIME,
            Group::Offset => V::SUPPLIES_OFFSET,
            Group::Timestamp => V::SUPPLIES_TIMESTAMP,
            Group::None => true,
        },
    }
}

impl<V: Readable> Reader<'_, V> {
    /// Returns the value that the plan writes as this text, or the first fault of the text.
    pub fn read(&self, text: &[u8]) -> Result<V, NotRead>
    where
        V::State: Drop,
        V: Drop,
        ensures written { IfOk result (λ value.
            ⟦<Plan as Formattable>⟧.outcome_of self.now.plan.now (V.facts value) ≡ done text.now) }
        ensures inside { IfErr result (λ fault. fault.at ≤ length text.now) }
    {
        self.reading.read(self.plan, text)
    }

    /// Returns the value that the plan writes as the front of this text, and the rest of the text,
    /// or the first fault.
    ///
    /// A number takes all digits that stand there and that it can have.
    pub fn read_front<'t>(&self, text: &'t [u8]) -> Result<(V, &'t [u8]), NotRead>
    where
        V::State: Drop,
        V: Drop,
        ensures written { IfOk result (λ read. BeginsWith
            (⟦<Plan as Formattable>⟧.outcome_of self.now.plan.now
            (V.facts read.0)) text.now read.1.now) }
        ensures inside { IfErr result (λ fault. fault.at ≤ length text.now) }
    {
        self.reading.read_front(self.plan, text)
    }
}

impl<T: ReadStep, V: Readable> StepsReader<'_, T, V> {
    /// Returns the value that the steps write as this text, or the first fault of the text.
    pub fn read(&self, text: &[u8]) -> Result<V, NotRead>
    where
        V::State: Drop,
        V: Drop,
        ensures written { IfOk result (λ value.
            trees_outcome (trees (map (T.tree_of self.now.texts.now) self.now.steps.now))
            (V.facts value)
            ≡ done text.now) }
        ensures inside { IfErr result (λ fault. fault.at ≤ length text.now) }
    {
        let described = Steps(self.steps, self.texts);
        self.reading.read(&described, text)
    }

    /// Returns the value of the numbers of this text, if there is one. It is for callers that write
    /// it themselves to see whether it is written as this text.
    #[inline(always)]
    pub fn candidate(&self, text: &[u8]) -> Option<V> {
        self.reading.candidate(&Steps(self.steps, self.texts), text)
    }
}
