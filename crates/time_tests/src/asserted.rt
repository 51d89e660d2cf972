//! What tests assert. No helper hands on a clause, so that a test proves no more than it compares.
use std::alloc::Global;
use std::default::Default;
use std::fmt::{Debug, Display};
use std::process::Abort;
use time_fmt::{ComponentProvider, Format, Formattable};

/// One comparison for all types, so that no test proves it again.
pub(crate) fn assert_same<T: PartialEq + Debug + Copy>(rt: &impl Abort, found: T, wanted: T) {
    assert_eq!(rt; found, wanted);
}

/// Asserts a condition, by one function for all tests.
pub(crate) fn assert_that(rt: &impl Abort, is_so: bool) {
    assert!(rt; is_so);
}

/// What is there.
pub(crate) fn some<T>(rt: &impl Abort, found: Option<T>) -> T {
    match found {
        Some(value) => value,
        None => panic!(rt; "no value"),
    }
}

/// Compares a displayed text.
pub(crate) fn assert_displays<T: Display>(rt: &impl Abort, alloc: Global, value: &T, text: &str) {
    let Ok(displayed) = value.to_string(alloc) else {
        panic!(rt; "no memory");
    };
    assert_same(rt, displayed.as_str(), text);
}

/// Compares a text for debugging.
pub(crate) fn assert_debugs<T: Debug>(rt: &impl Abort, alloc: Global, value: &T, text: &str) {
    let Ok(shown) = format!(in alloc; "{value:?}") else {
        panic!(rt; "no memory");
    };
    assert_same(rt, shown.as_str(), text);
}

/// Appends the text. Of the clauses of the call a test hands on the one that a second call needs.
pub(crate) fn append<D: Formattable, V: ComponentProvider>(
    output: &mut Vec<u8>,
    item: &D,
    value: &V,
    state: &mut V::State,
) -> Result<usize, Format>
    requires { V.agrees state.old value.now }
    ensures { V.agrees state.new value.now }
{
    item.format_into(output, value, state)
}

/// Makes the text by a fresh state.
fn make<D: Formattable, V: ComponentProvider>(
    alloc: Global,
    item: &D,
    value: &V,
) -> Result<String, Format>
where
    V::State: Drop,
{
    item.format(alloc, value, &mut V::State::default())
}

/// Compares the text of a description with its count, appended to an empty vector and made as a
/// text, and the maximum length.
pub(crate) fn assert_formats<D: Formattable, V: ComponentProvider>(
    rt: &impl Abort,
    alloc: Global,
    item: &D,
    value: &V,
    (text, width): (&str, usize),
)
where
    V::State: Drop,
{
    let mut output = Vec::new(alloc);
    let appended = append(&mut output, item, value, &mut V::State::default());
    let (Ok(count), Ok(made)) = (appended, make(alloc, item, value)) else {
        panic!(rt; "{text} is refused");
    };
    assert_same(rt, output.as_slice(), text.as_bytes());
    assert_same(rt, made.as_str(), text);
    assert_same(rt, count, text.len());
    assert_same(rt, item.compute_metadata().max_bytes_needed, width);
}

/// Compares a refusal by its variant and by what it holds, as `Debug` shows them.
pub(crate) fn assert_refusal<T>(
    rt: &impl Abort,
    alloc: Global,
    answer: &Result<T, Format>,
    variant: &str,
) {
    match answer {
        Ok(_) => panic!(rt; "a text, and not {variant}"),
        Err(refusal) => assert_debugs(rt, alloc, refusal, variant),
    }
}
