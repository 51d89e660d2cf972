//! The texts that `read` looks for.
use crate::description::{Refusal, plan_of};
use std::alloc::Global;
use time_below::{Date, Timestamp};
use time_lines::{Form, FormRow, NoForm};
use time_plan::Plan;
use time_read::ReadPlan;

/// The name of the texts that are read where nothing else is asked for.
pub const USUAL: &str = "rfc3339";

/// The texts of a name: each of these texts, with each of these decimals and each of these offsets.
struct NameRow {
    name: &'static str,
    texts: &'static [&'static str],
    decimals: &'static [&'static str],
    /// An empty one is none, and `Z` that of UTC.
    offsets: &'static [&'static str],
}

/// Decimals of a second behind a point, the longest first, or none.
const AFTER_POINT: &[&str] = &[".%9N", ".%6N", ".%3N", ""];

/// The same behind a point or a comma.
const AFTER_POINT_OR_COMMA: &[&str] = &[".%9N", ".%6N", ".%3N", ",%9N", ",%6N", ",%3N", ""];

/// Those behind a point in brackets, as has the offset in hours alone, which `strftime` does not have.
const AFTER_POINT_IN_BRACKETS: &[&str] = &[
    ".[subsecond digits:9]",
    ".[subsecond digits:6]",
    ".[subsecond digits:3]",
    "",
];

const HOURS: &[&str] = &["[offset_hour sign:mandatory]"];

const NAMES: &[NameRow] = &[
    NameRow {
        name: "rfc3339",
        texts: &["%Y-%m-%dT%H:%M:%S", "%Y-%m-%d %H:%M:%S"],
        decimals: AFTER_POINT,
        offsets: &["%:z", "%z", "Z"],
    },
    NameRow {
        name: "rfc3339",
        texts: &[
            "[year]-[month]-[day]T[hour]:[minute]:[second]",
            "[year]-[month]-[day] [hour]:[minute]:[second]",
        ],
        decimals: AFTER_POINT_IN_BRACKETS,
        offsets: HOURS,
    },
    NameRow {
        name: "clf",
        texts: &["%d/%b/%Y:%H:%M:%S"],
        decimals: &[""],
        offsets: &[" %z"],
    },
    NameRow {
        name: "syslog",
        texts: &["%b %e %H:%M:%S"],
        decimals: &[""],
        offsets: &[""],
    },
    NameRow {
        name: "log4j",
        texts: &["%Y-%m-%d %H:%M:%S"],
        decimals: &[",%3N"],
        offsets: &[""],
    },
    NameRow {
        name: "rfc2822",
        texts: &[
            "%a, %d %b %Y %H:%M:%S",
            "%a, %-d %b %Y %H:%M:%S",
            "%d %b %Y %H:%M:%S",
            "%-d %b %Y %H:%M:%S",
        ],
        decimals: &[""],
        offsets: &[" %z"],
    },
    NameRow {
        name: "iso8601",
        texts: &["%Y-%m-%dT%H:%M:%S"],
        decimals: AFTER_POINT_OR_COMMA,
        offsets: &["%:z", "%z", "Z"],
    },
    NameRow {
        name: "iso8601",
        texts: &["[year]-[month]-[day]T[hour]:[minute]:[second]"],
        decimals: &[
            ".[subsecond digits:9]",
            ".[subsecond digits:6]",
            ".[subsecond digits:3]",
            ",[subsecond digits:9]",
            ",[subsecond digits:6]",
            ",[subsecond digits:3]",
            "",
        ],
        offsets: HOURS,
    },
    NameRow {
        name: "iso8601",
        texts: &["%Y-%m-%dT%H:%M:%S"],
        decimals: AFTER_POINT_OR_COMMA,
        offsets: &[""],
    },
];

/// The plans of what is asked for.
#[derive(Drop)]
pub struct Plans {
    plans: Vec<Plan>,
    /// Plans whose texts are in UTC.
    in_utc: Vec<Plan>,
}

/// Why a text is not read by.
#[derive(Drop)]
pub enum NotReadBy {
    /// It is no description.
    Refusal(Refusal),
    /// Its texts have no moments.
    Form(NoForm),
    Memory,
}

/// Adds the plan of a description.
fn push_plan(alloc: Global, plans: &mut Vec<Plan>, text: &str) -> Result<(), NotReadBy> {
    let plan = match plan_of(alloc, text) {
        Ok(plan) => plan,
        Err(refusal) => return Err(NotReadBy::Refusal(refusal)),
    };
    match plans.push(plan) {
        Ok(()) => Ok(()),
        Err(_) => Err(NotReadBy::Memory),
    }
}

impl Plans {
    /// No plan.
    fn none(alloc: Global) -> Plans {
        Plans {
            plans: Vec::new(alloc),
            in_utc: Vec::new(alloc),
        }
    }

    /// Adds the plans of a text with these decimals and each of these offsets.
    fn push_each(
        &mut self,
        alloc: Global,
        text: &str,
        decimals: &str,
        offsets: &[&str],
    ) -> Result<(), NotReadBy> {
        for offset in offsets {
            let Ok(description) = format!(in alloc; "{text}{decimals}{offset}") else {
                return Err(NotReadBy::Memory);
            };
            let plans = if *offset == "Z" {
                &mut self.in_utc
            } else {
                &mut self.plans
            };
            push_plan(alloc, plans, description.as_str())?;
        }
        Ok(())
    }

    /// Adds the plans of a row.
    fn push_texts(&mut self, alloc: Global, row: &NameRow) -> Result<(), NotReadBy> {
        for text in row.texts {
            for decimals in row.decimals {
                self.push_each(alloc, text, decimals, row.offsets)?;
            }
        }
        Ok(())
    }

    /// The plans of a name, or of a description.
    pub fn of(alloc: Global, word: &str) -> Result<Plans, NotReadBy> {
        let mut plans = Plans::none(alloc);
        for row in NAMES {
            if row.name == word {
                plans.push_texts(alloc, row)?;
            }
        }
        if plans.plans.is_empty() {
            push_plan(alloc, &mut plans.plans, word)?;
        }
        Ok(plans)
    }

    /// The forms of the plans. Where texts show a part of the year, the other part is that of the
    /// date.
    pub fn forms(&self, alloc: Global, base: Date) -> Result<Vec<FormRow<'_>>, NotReadBy> {
        let mut forms = Vec::new(alloc);
        for plan in &self.in_utc {
            match plan.reader::<Timestamp>() {
                Ok(reader) => push_row(&mut forms, FormRow::new(Form::AtMoment(reader)))?,
                Err(refused) => return Err(NotReadBy::Form(NoForm::NoReader(refused))),
            }
        }
        for plan in &self.plans {
            match Form::of(plan, base) {
                Ok(form) => push_row(&mut forms, FormRow::new(form))?,
                Err(refused) => return Err(NotReadBy::Form(refused)),
            }
        }
        Ok(forms)
    }
}

fn push_row<'a>(forms: &mut Vec<FormRow<'a>>, row: FormRow<'a>) -> Result<(), NotReadBy> {
    match forms.push(row) {
        Ok(()) => Ok(()),
        Err(_) => Err(NotReadBy::Memory),
    }
}

/// Whether texts of the forms show no offset.
pub fn are_local(forms: &[FormRow<'_>]) -> bool {
    forms.iter().any(|row| matches!(row.form, Form::Local(_) | Form::Yearless(_)))
}

/// Whether texts of the forms show no year.
pub fn are_yearless(forms: &[FormRow<'_>]) -> bool {
    forms
        .iter()
        .any(|row| matches!(row.form, Form::Yearless(_)))
}
