//! Readers of plans: what is refused, where and in words, and which plans have no reader.
use crate::asserted::{answered, assert_refused, assert_same, assert_that};
use std::alloc::Global;
use std::process::Abort;
use std::test::Fail;
use time_below::{Date, OffsetDateTime, PlainDateTime, Time};
use time_plan::Plan;
use time_read::{NoReader, ReadPlan, Readable, Reader};

/// The plan of conversions. Fails where they are none.
pub(super) fn plan(rt: &impl Abort, alloc: Global, conversions: &str) -> Plan {
    answered(rt, Plan::parse_strftime(alloc, conversions.as_bytes()))
}

/// The plan of a description in brackets. Fails where it is none.
pub(super) fn plan_in_brackets(rt: &impl Abort, alloc: Global, description: &str) -> Plan {
    answered(rt, Plan::parse(alloc, description.as_bytes()))
}

/// The reader of a plan. Fails where it has none.
pub(super) fn reader<'a, V: Readable>(rt: &impl Abort, plan: &'a Plan) -> Reader<'a, V> {
    match plan.reader() {
        Ok(reader) => reader,
        Err(refused) => panic!(rt; "{refused}"),
    }
}

/// Rows of a text and its fault.
macro_rules! faults {
    ($($text:literal $words:literal,)+) => { &[$(($text, $words)),+] };
}

const FAULTS: &[(&[u8], &str)] = faults! {
    b"31/Feb/2000:13:55:36 -0700" "byte 0: expected another [day], since no value has this one",
    b"10/oct/2000:13:55:36 -0700" "byte 3: expected [month repr:short]",
    b"10/Oct/2000 13:55:36 -0700" "byte 11: expected `:`",
    b"10/Oct/2000:24:55:36 -0700" "byte 12: expected another [hour], since no value has this one",
    b"10/Oct/2000:13:5 " "byte 15: expected [minute]",
    b"10/Oct/2000:13:55:36 -0700 " "byte 26: expected the end",
    b"10/Oct/2000:13:55:36 -0000" "byte 21: expected `+`",
    b"" "byte 0: expected [day]",
};

#[test]
fn a_text_that_is_none_of_a_plan_has_its_place(rt: HostRuntime) {
    let plan = plan(&rt, rt.alloc(), "%d/%b/%Y:%H:%M:%S %z");
    let reader = reader::<OffsetDateTime>(&rt, &plan);
    let moment = answered(&rt, reader.read(b"10/Oct/2000:13:55:36 -0700"));
    assert_same(&rt, moment.unix_timestamp(), 971_211_336);
    for (text, words) in FAULTS {
        assert_refused(&rt, rt.alloc(), reader.read(text), words);
    }
}

/// Each component as a description that is one spells it.
const COMPONENTS: &str = "[day] | [month repr:short] | [month repr:long] | [month] | [ordinal] | \
    [weekday repr:short] | [weekday] | [weekday repr:sunday] | [weekday repr:monday] | \
    [week_number] | [week_number repr:sunday] | [week_number repr:monday] | [hour repr:12] | \
    [hour] | [minute] | [period] | [second] | [subsecond] | [offset_hour] | [offset_minute] | \
    [offset_second] | [unix_timestamp] | [unix_timestamp precision:millisecond] | [year] | \
    [year repr:century] | [year repr:last_two] | [year base:iso_week] | \
    [year base:iso_week repr:century] | [year base:iso_week repr:last_two]";

#[test]
fn a_fault_names_each_component_as_a_description_does(rt: HostRuntime) -> Result<(), Fail> {
    let alloc = rt.alloc();
    for name in COMPONENTS.split(" | ") {
        let plan = plan_in_brackets(&rt, alloc, name);
        let wanted = format!(in alloc; "byte 0: expected {name}")?;
        let reader = answered(&rt, plan.reader_from(&OffsetDateTime::UNIX_EPOCH));
        assert_refused(&rt, alloc, reader.read(b""), wanted.as_str());
    }
    Ok(())
}

/// Fails where the plan of conversions has a reader, or has none for another reason.
fn assert_no_reader<V: Readable>(
    rt: &impl Abort,
    alloc: Global,
    conversions: &str,
    wanted: NoReader,
) {
    match plan(rt, alloc, conversions).reader::<V>() {
        Ok(_) => panic!(rt; "{conversions} is read"),
        Err(why) => assert_same(rt, why, wanted),
    }
}

#[test]
fn a_plan_that_is_not_read_says_why(rt: HostRuntime) {
    let alloc = rt.alloc();
    assert_no_reader::<Time>(&rt, alloc, "%I:%M", NoReader::Undetermined);
    assert_no_reader::<Date>(&rt, alloc, "%Y-%m-%d %H", NoReader::Unsupplied(1));
    assert_no_reader::<Date>(&rt, alloc, "%-d%-m%Y", NoReader::Ambiguous(0));
}

#[test]
fn the_front_of_a_line_is_read(rt: HostRuntime) {
    let plan = plan(&rt, rt.alloc(), "%Y-%m-%d %H:%M:%S");
    let reader = reader::<PlainDateTime>(&rt, &plan);
    match reader.read_front(b"2026-11-28 13:30:00 started") {
        Ok((local, rest)) => {
            assert_same(&rt, local.as_hms(), (13, 30, 0));
            assert_same(&rt, rest, b" started".as_slice());
        }
        Err(_) => assert_that(&rt, false),
    }
}

/// Texts of more than 64 bytes are compared with what the plan writes component by component.
#[test]
fn a_plan_of_any_width_is_read(rt: HostRuntime) -> Result<(), Fail> {
    let alloc = rt.alloc();
    let description = "%Y-%m-%d at the hour of the second ".repeat(alloc, 20)?;
    let mut text = b"2026-11-28 at the hour of the second ".repeat(alloc, 20)?;
    let plan = plan(&rt, alloc, description.as_str());
    let reader = reader::<Date>(&rt, &plan);
    assert_same(&rt, answered(&rt, reader.read(text.as_slice())).day(), 28);
    text.push(b' ')?;
    let answer = reader.read(text.as_slice());
    assert_refused(&rt, alloc, answer, "byte 740: expected the end");
    Ok(())
}
