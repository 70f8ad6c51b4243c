//! The text of a time.

ghost use Rattle.std.specs.Prelude.{◌≡◌, ◌<◌, ◌≤◌, OnOk, string_bytes};
ghost use Rattle.eos_text.specs.Adding.{Adds};
ghost use Rattle.eos_sought.specs.Moments.{year_of_era, day_of_year, march_month, month_of, years_begun, date_of, zero_before, zeros_before, two, date_text, clock_text, moment_text, time_text};

use eos_text::{push_text, push_value};
use std::alloc::AllocError;

/// The last millisecond of the year 9999.
const LAST: u64 = 253_402_300_799_999;

/// A day of the calendar.
#[derive(Clone, Copy)]
pub(crate) struct Date {
    year: u64,
    month: u64,
    day: u64,
}

/// Of 400 years that begin in March the one that a day of theirs lies in.
fn year_of_era(day: u64) -> u64
    requires { day < 146_097 }
    ensures is { result ≡ year_of_era day }
    ensures most { result < 500 }
{
    (day - day / 1_460 + day / 36_524 - day / 146_096) / 365
}

/// The day of that year.
fn day_of_year(day: u64, year: u64) -> u64
    requires day { day < 146_097 }
    requires year { year < 500 }
    ensures is { result ≡ day_of_year day year }
    ensures most { result < 146_097 }
{
    day.saturating_sub(365 * year + year / 4 - year / 100)
}

/// The month of such a day, where 0 is March.
fn march_month(day: u64) -> u64
    requires { day < 146_097 }
    ensures is { result ≡ march_month day }
    ensures most { result < 5_000 }
{
    (5 * day + 2) / 153
}

fn month_of(march: u64) -> u64
    requires { march < 5_000 }
    ensures { result ≡ month_of march }
{
    if march < 10 { march + 3 } else { march - 9 }
}

/// January and February are of the year that began after March.
fn years_begun(month: u64) -> u64
    ensures is { result ≡ years_begun month }
    ensures most { result ≤ 1 }
{
    if month <= 2 { 1 } else { 0 }
}

/// A day, counted from 1970-01-01 on.
fn date_of(days: u64) -> Date
    requires { days < 3_000_000 }
    ensures { result ≡ date_of days }
{
    let eras = (days + 719_468) / 146_097;
    let of_era = (days + 719_468) % 146_097;
    let year = year_of_era(of_era);
    let day = day_of_year(of_era, year);
    let march = march_month(day);
    let month = month_of(march);
    Date {
        year: year + 400 * eras + years_begun(month),
        month,
        day: day.saturating_sub((153 * march + 2) / 5) + 1,
    }
}

// ---- the text

fn zero_before(number: u64) -> &'static str
    ensures { result.now ≡ zero_before number }
{
    if number < 10 { "0" } else { "" }
}

fn zeros_before(number: u64) -> &'static str
    ensures { result.now ≡ zeros_before number }
{
    if number < 10 {
        return "00";
    }
    if number < 100 { "0" } else { "" }
}

/// Adds two digits behind a label.
fn push_two(out: &mut String, label: &str, number: u64) -> Result<(), AllocError>
    ensures { OnOk result (Adds (string_bytes out.old) (string_bytes out.new) (two label.now number)) }
{
    push_text(out, label)?;
    push_value(out, zero_before(number), &number)?;
    Ok(())
}

fn push_date(out: &mut String, date: Date) -> Result<(), AllocError>
    ensures { OnOk result (Adds (string_bytes out.old) (string_bytes out.new) (date_text date)) }
{
    push_value(out, "", &date.year)?;
    push_two(out, "-", date.month)?;
    push_two(out, "-", date.day)?;
    Ok(())
}

/// Adds the time of a day, in milliseconds.
fn push_clock(out: &mut String, ms: u64) -> Result<(), AllocError>
    ensures { OnOk result (Adds (string_bytes out.old) (string_bytes out.new) (clock_text ms)) }
{
    push_two(out, "T", ms / 3_600_000)?;
    push_two(out, ":", ms / 60_000 % 60)?;
    push_two(out, ":", ms / 1_000 % 60)?;
    push_text(out, ".")?;
    push_value(out, zeros_before(ms % 1_000), &(ms % 1_000))?;
    Ok(())
}

fn push_moment(out: &mut String, ms: u64) -> Result<(), AllocError>
    requires { ms ≤ 253_402_300_799_999 }
    ensures { OnOk result (Adds (string_bytes out.old) (string_bytes out.new) (moment_text ms)) }
{
    push_date(out, date_of(ms / 86_400_000))?;
    push_clock(out, ms % 86_400_000)?;
    push_text(out, "Z")?;
    Ok(())
}

/// Adds a time, which is milliseconds since 1970-01-01T00:00:00Z; before that, and past the year 9999, its number.
pub fn push_time(out: &mut String, time: i64) -> Result<(), AllocError>
    ensures { OnOk result (Adds (string_bytes out.old) (string_bytes out.new) (time_text time)) }
{
    if time < 0 || time.unsigned_abs() > LAST {
        return push_value(out, "", &time);
    }
    push_moment(out, time.unsigned_abs())
}
