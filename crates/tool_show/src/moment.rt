//! Moments as dates and times of day in UTC.

ghost use Rattle.std.specs.Prelude.{◌≡◌, ◌≤◌, ◌<◌, ◌+◌, ◌-◌, IfOk, string_bytes};
ghost use Rattle.tool_show.specs.Moments.{IsMomentWord, IsUtc, clock_words, date_words, days_of_months};
ghost use Rattle.tool_show.specs.Moments.{days_of_years, is_leap, month_length, two_digits, utc_words, year_length};

use std::alloc::{AllocError, Global};

/// The seconds of a day.
const DAY: u64 = 86_400;

/// The years after which the calendar repeats itself, and their days.
const CYCLE: u64 = 400;

const CYCLE_DAYS: u64 = 146_097;

/// A date and a time of day in UTC.
#[derive(Clone, Copy, Debug)]
pub struct UtcTime {
    /// The year.
    pub year: u64,
    /// The month, from 1 on.
    pub month: u64,
    /// The day of the month, from 1 on.
    pub day: u64,
    /// The hour.
    pub hour: u64,
    /// The minute.
    pub minute: u64,
    /// The second.
    pub second: u64,
}

/// Whether a year is a leap year of the Gregorian calendar.
fn is_leap(year: u64) -> bool
    ensures { result ≡ is_leap year }
{
    year % 4 == 0 && (year % 100 != 0 || year % 400 == 0)
}

/// The days of a year.
fn year_length(year: u64) -> u64
    ensures { result ≡ year_length year }
{
    if is_leap(year) { 366 } else { 365 }
}

/// The days of a month, which is 1 to 12.
fn month_length(year: u64, month: u64) -> u64
    ensures { result ≡ month_length year month }
{
    match month {
        2 if is_leap(year) => 29,
        2 => 28,
        4 | 6 | 9 | 11 => 30,
        _ => 31,
    }
}

/// The year of a day, which is counted from the beginning of 1970, and the days of that year before it. It takes at
/// most 400 steps, since whole cycles of the calendar are passed over.
fn year_of(days: u64) -> (u64, u64)
    ensures before { days_of_years (result.0 - 1970) + result.1 ≡ days }
    ensures since { 1970 ≤ result.0 }
    ensures within { result.1 < year_length result.0 }
{
    let mut count = days / CYCLE_DAYS * CYCLE;
    let mut rest = days % CYCLE_DAYS;
    let mut length = year_length(1970 + count);
    while rest >= length {
        rest -= length;
        count += 1;
        length = year_length(1970 + count);
    }
    (1970 + count, rest)
}

/// The month of a day of a year, whose days are counted from 0, and the days of that month before it.
fn month_of(year: u64, day: u64) -> (u64, u64)
    requires { day < year_length year }
    ensures before { days_of_months year (result.0 - 1) + result.1 ≡ day }
    ensures first { 1 ≤ result.0 }
    ensures last { result.0 ≤ 12 }
    ensures within { result.1 < month_length year result.0 }
{
    let mut month = 1;
    let mut rest = day;
    let mut length = month_length(year, month);
    while rest >= length {
        rest -= length;
        month += 1;
        length = month_length(year, month);
    }
    (month, rest)
}

/// The date and the time of day of a moment.
fn utc_of(moment: u64) -> UtcTime
    ensures { IsUtc moment result }
{
    let (year, day_of_year) = year_of(moment / DAY);
    let (month, day_of_month) = month_of(year, day_of_year);
    let second = moment % DAY;
    UtcTime {
        year,
        month,
        day: day_of_month + 1,
        hour: second / 3600,
        minute: second / 60 % 60,
        second: second % 60,
    }
}

/// A number below 100 in two digits.
fn two_digits(alloc: Global, number: u64) -> Result<String, AllocError>
    ensures { IfOk result (λ digits. string_bytes digits ≡ two_digits number) }
{
    let (tens, ones) = (number / 10, number % 10);
    format!(in alloc; "{tens}{ones}")
}

/// A date, as `2026-11-28`.
fn date_words(alloc: Global, time: &UtcTime) -> Result<String, AllocError>
    ensures { IfOk result (λ words. string_bytes words ≡ date_words time.now) }
{
    let year = time.year;
    let month = two_digits(alloc, time.month)?;
    let day = two_digits(alloc, time.day)?;
    format!(in alloc; "{year}-{month}-{day}")
}

/// A time of day, as `09:00:00`.
fn clock_words(alloc: Global, time: &UtcTime) -> Result<String, AllocError>
    ensures { IfOk result (λ words. string_bytes words ≡ clock_words time.now) }
{
    let hour = two_digits(alloc, time.hour)?;
    let minute = two_digits(alloc, time.minute)?;
    let second = two_digits(alloc, time.second)?;
    format!(in alloc; "{hour}:{minute}:{second}")
}

/// A date and a time of day, as `2026-11-28T09:00:00Z`.
fn utc_words(alloc: Global, time: &UtcTime) -> Result<String, AllocError>
    ensures { IfOk result (λ words. string_bytes words ≡ utc_words time.now) }
{
    let date = date_words(alloc, time)?;
    let clock = clock_words(alloc, time)?;
    format!(in alloc; "{date}T{clock}Z")
}

/// The word of a moment, or `-` if there is none.
pub(crate) fn moment_word(alloc: Global, moment: Option<u64>) -> Result<String, AllocError>
    ensures { IfOk result (λ word. IsMomentWord moment (string_bytes word)) }
{
    match moment {
        None => format!(in alloc; "-"),
        Some(moment) => utc_words(alloc, &utc_of(moment)),
    }
}
