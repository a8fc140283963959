//! The time of a line, by RFC 3339.

use std::fmt;

const DAY: u64 = 86400;

/// From 1 March of the year 0 to the first day of 1970.
const DAYS_BEFORE: u64 = 719468;

/// The days of 400 years.
const DAYS_OF_ERA: u64 = 146097;

/// Seconds from the first day of 1970 on.
#[derive(Clone, Copy)]
pub(crate) struct Stamp(pub(crate) u64);

/// A day of the calendar.
#[derive(Clone, Copy)]
struct Date {
    year: u64,
    month: u64,
    day: u64,
}

// The date `days` days after the first of 1970: years begin in March, so that a leap day is the last one of its year.
fn date_of(days: u64) -> Date {
    let days = days.saturating_add(DAYS_BEFORE);
    let (era, day) = (days / DAYS_OF_ERA, days % DAYS_OF_ERA);
    let leaps = (day / 36524).saturating_sub(day / 146096);
    let year = day.saturating_sub(day / 1460).saturating_add(leaps) / 365;
    let before = (365 * (year % 400))
        .saturating_add(year / 4)
        .saturating_sub(year / 100);
    let day = day.saturating_sub(before);
    let month = day.saturating_mul(5).saturating_add(2) / 153;
    let first = month.saturating_mul(153).saturating_add(2) / 5;
    let is_late = month >= 10;
    Date {
        year: era
            .saturating_mul(400)
            .saturating_add(year)
            .saturating_add(u64::from(is_late)),
        month: if is_late {
            month.saturating_sub(9)
        } else {
            month.saturating_add(3)
        },
        day: day.saturating_sub(first).saturating_add(1),
    }
}

impl fmt::Display for Stamp {
    fn fmt<W: fmt::Write>(&self, f: &mut fmt::Formatter<W>) -> fmt::Result {
        let Date { year, month, day } = date_of(self.0 / DAY);
        let second = self.0 % DAY;
        let (hour, minute) = (second / 3600, second / 60 % 60);
        let second = second % 60;
        write!(
            f,
            "{year:04}-{month:02}-{day:02}T{hour:02}:{minute:02}:{second:02}Z"
        )
    }
}
