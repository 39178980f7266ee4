// Times of day.
ghost use Rattle.std.specs.Prelude.{◌≡◌};
ghost use Rattle.calendar.specs.Time.{clock_time, time_of_day};

use text::number;

// Is the text exactly six digits that write a time of day?
#[tactic(auto, unfolding(crate::specs::Time::time_of_day, crate::specs::Time::time_of_number))]
pub fn is_time(s: &[u8]) -> bool
    ensures { result ≡ time_of_day s.now }
{
    number::read(s, 6, 6).is_some_and(is_clock_time)
}

// Does the number write a time of day, hhmmss?
#[tactic(auto, unfolding(crate::specs::Time::clock_time))]
pub fn is_clock_time(n: u64) -> bool
    ensures { result ≡ clock_time n }
{
    n / 10000 <= 23 && n / 100 % 100 <= 59 && n % 100 <= 59
}
