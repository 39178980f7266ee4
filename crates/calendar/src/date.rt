// Dates as numbers: whether one is real, its number of days since 1 January 2000, and windows of days.
ghost use Rattle.std.specs.Prelude.{◌≡◌, true, ◌&&◌, ◌+◌, ◌<◌, leb};
ghost use Rattle.calendar.specs.Calendar.{leap, month_length, real, days_of_months, days_of_years, day_number, in_window};
ghost use Rattle.calendar.specs.Reading.{date_of_digits};

use text::number;

// The number that a date's eight digits yyyymmdd write.
#[repr(C)]
#[derive(Clone, Copy, PartialEq, Eq, PartialOrd, Ord, Debug)]
pub struct Date(pub u64);

// The days of a common year's first months, from none of them to eleven.
const DAYS_OF_MONTHS: [u64; 12] = [0, 31, 59, 90, 120, 151, 181, 212, 243, 273, 304, 334];

// Is there such a date?
// Kept: 4a: tried, and slower: with the day by `contains` 6.4 nanoseconds a date, as two tests 5.5.
#[tactic(auto, unfolding(crate::specs::Calendar::real))]
pub fn is_real(date: Date) -> bool
    ensures { result ≡ real date.0 }
{
    let year = date.0 / 10000;
    let month = date.0 / 100 % 100;
    let day = date.0 % 100;
    (2000..=2099).contains(&year)
        && (1..=12).contains(&month)
        && 1 <= day
        && day <= month_length(is_leap(year), month)
}

// The date that a text of exactly eight digits writes.
#[tactic(auto, unfolding(crate::specs::Reading::date_of_digits, crate::specs::Reading::date_of_number, crate::specs::Reading::date_of))]
pub fn read_digits(s: &[u8]) -> Option<Date>
    ensures { result ≡ date_of_digits s.now }
{
    number::read(s, 8, 8)
        .map(Date)
        .filter(|date| is_real(*date))
}

// Is the date real, and from `before` days before to `after` days after a real today?
// Kept: 5b: a window of its own is no plainer than two numbers, which each caller writes once.
#[tactic(auto, unfolding(crate::specs::Calendar::in_window))]
pub fn is_in_window(date: Date, today: Date, before: u64, after: u64) -> bool
    ensures { result ≡ in_window before after today.0 date.0 }
{
    is_real(today)
        && is_real(date)
        && is_within(number_of_real(today), number_of_real(date), before, after)
}

// How many days the month has.
#[tactic(auto, unfolding(crate::specs::Calendar::month_length))]
fn month_length(in_leap_year: bool, month: u64) -> u64
    ensures { result ≡ month_length in_leap_year month }
{
    match month {
        2 if in_leap_year => 29,
        2 => 28,
        4 | 6 | 9 | 11 => 30,
        _ => 31,
    }
}

// Is the year a leap year?
#[tactic(auto, unfolding(crate::specs::Calendar::leap))]
fn is_leap(year: u64) -> bool
    ensures { result ≡ leap year }
{
    year % 4 == 0 && (year % 100 != 0 || year % 400 == 0)
}

// Is a day from `before` days before to `after` days after today, by their numbers?
// Kept: 5b: a window of its own is no plainer than two numbers, which each caller writes once.
fn is_within(today: u64, day: u64, before: u64, after: u64) -> bool
    ensures { result ≡ (leb today (day + before) && leb day (today + after)) }
{
    (today.saturating_sub(before)..=today.saturating_add(after)).contains(&day)
}

// The number of a date that is real.
#[tactic(auto, using(crate::proofs::Parts::parts_of_lem, crate::proofs::Sums::years_by_fours, crate::proofs::Sums::in_a_year), unfolding(crate::specs::Calendar::day_number))]
fn number_of_real(date: Date) -> u64
    requires { real date.0 ≡ true }
    ensures { result ≡ day_number date.0 }
{
    let year = date.0 / 10000;
    let month = date.0 / 100 % 100;
    let day = date.0 % 100;
    days_of_years(year - 2000) + days_of_months(is_leap(year), month as usize - 1) + (day - 1)
}

// The days of the first years from 2000 on.
#[tactic(auto, using(crate::proofs::Sums::years_by_fours))]
fn days_of_years(years: u64) -> u64
    requires { years < 100 }
    ensures { result ≡ days_of_years years }
{
    365 * years + (years + 3) / 4
}

// The days of a year's first months.
#[tactic(auto, using(crate::proofs::Sums::months_by_table))]
fn days_of_months(in_leap_year: bool, months: usize) -> u64
    requires { months < 12 }
    ensures { result ≡ days_of_months in_leap_year months }
{
    DAYS_OF_MONTHS[months] + u64::from(in_leap_year & (2 <= months))
}
