// What the header states: the questions 905, 907 and 102 to 131, and the number of orders, the sum and the kind that it gives.
ghost use Rattle.std.specs.Prelude.{◌≡◌, ◌&&◌, ◌≤◌, eqb, leb, ltb, length, take, drop, is_some};
ghost use Rattle.text.specs.Bytes.{letters_or_digits};
ghost use Rattle.text.specs.Number.{number};
ghost use Rattle.money.specs.Text.{sum_text};
ghost use Rattle.calendar.specs.Reading.{date_of_digits, date_in_window};
ghost use Rattle.calendar.specs.Time.{time_of_day};
ghost use Rattle.epe.specs.Questions.{first_no, verdict_of, verdict_beside, read_of};
ghost use Rattle.epe.specs.File.{header, field};
ghost use Rattle.contents.specs.Contents.{date_questions, stated_count, stated_sum, stated_questions, header_questions, stated_kind};
ghost use Rattle.contents.specs.Steps.{stated_in, stated_of};

use calendar::date::{Date, is_in_window, read_digits};
use calendar::time::is_time;
use epe::file::header_of;
use epe::line::Line;
use epe::profile::{KINDS, Profile, judge_profile, terms_of};
use epe::refusal::{Refusal, RefusedWith, read_beside};
use fee::Terms;
use money::{Amount, Grosze};
use text::bytes::{are_letters_or_digits, first, rest};
use text::number;

// What the header states of the records: how many orders, their sum, and the terms of their fees.
#[derive(Clone, Copy, PartialEq, Eq, Debug)]
pub struct Stated {
    pub count: u64,
    pub sum: u64,
    pub terms: Terms,
}

// The questions 905, 907 and 102 to 131 of a profile and the header, and what the header states of the records.
#[tactic(auto, unfolding(crate::specs::Steps::stated_of))]
pub fn judge_stated(profile: Profile, file: &[u8]) -> Result<Stated, RefusedWith<Stated>>
    ensures verdict { verdict_beside result ≡ first_no (header_questions profile (header file.now)) }
    ensures stated { read_of result ≡ stated_of profile file.now }
{
    let line = Line::of(header_of(file));
    let judged = judge_header(profile, &line);
    let stated = read_stated(profile, &line);
    read_beside(stated, judged)
}

// The first of the questions 905, 907 and 102 to 131 that is answered no.
#[tactic(auto, using(epe::proofs::Asking::join_no, epe::proofs::Asking::join_yes))]
fn judge_header(profile: Profile, line: &Line<'_>) -> Result<(), Refusal>
    ensures { verdict_of result ≡ first_no (header_questions profile line.now.text.now) }
{
    judge_profile(profile)?;
    judge_dates(line, profile.today)?;
    judge_count_and_sum(line)
}

// What a header states: how many orders, their sum in grosze, and the terms that the profile sets.
#[tactic(auto, using(money::proofs::Reading::amount_or_none), unfolding(crate::specs::Steps::stated_in))]
fn read_stated(profile: Profile, line: &Line<'_>) -> Stated
    ensures { result ≡ stated_in profile line.now.text.now }
{
    Stated {
        count: number::read(line.nth(11), 1, 6).unwrap_or(0),
        sum: Amount::read_sum(line.nth(12)).unwrap_or(Amount::sum(0)).0,
        terms: terms_of(profile, stated_kind(line)),
    }
}

// The questions 102 to 125.
#[tactic(auto, using(epe::proofs::Asking::asking, text::proofs::Branches::branches), unfolding(crate::specs::Contents::date_questions))]
fn judge_dates(line: &Line<'_>, today: Date) -> Result<(), Refusal>
    ensures { verdict_of result ≡ first_no (date_questions today line.now.text.now) }
{
    if line.nth(7).is_empty() {
        return Err(Refusal::CreatedEmpty);
    }
    if !is_created(line, today) {
        return Err(Refusal::Created);
    }
    if line.nth(6).is_empty() {
        return Err(Refusal::UnitEmpty);
    }
    if !is_unit(line) {
        return Err(Refusal::Unit);
    }
    if !is_near(line.nth(8), today, 30, 30) {
        return Err(Refusal::BenefitDate);
    }
    Ok(())
}

// Is field 7 a date near today, and a time of day?
#[tactic(auto, using(text::proofs::Branches::branches))]
fn is_created(line: &Line<'_>, today: Date) -> bool
    ensures { result ≡ (date_in_window 60 10 today (date_of_digits (take 8 (field 7 line.now.text.now))) && time_of_day (drop 8 (field 7 line.now.text.now))) }
{
    let s = line.nth(7);
    is_near(first(s, 8), today, 60, 10) && is_time(rest(s, 8))
}

// Is a text a date from `before` days before to `after` days after today?
// Kept: 5b: a window of its own is no plainer than two numbers, which each caller writes once.
#[tactic(auto, unfolding(calendar::specs::Reading::date_in_window))]
fn is_near(s: &[u8], today: Date, before: u64, after: u64) -> bool
    ensures { result ≡ date_in_window before after today (date_of_digits s.now) }
{
    read_digits(s).is_some_and(|date| is_in_window(date, today, before, after))
}

// Is field 6 six letters or digits?
#[tactic(auto, using(text::proofs::Branches::branches))]
fn is_unit(line: &Line<'_>) -> bool
    ensures { result ≡ (eqb (length (field 6 line.now.text.now)) 6 && letters_or_digits (field 6 line.now.text.now)) }
{
    let s = line.nth(6);
    s.len() == 6 && are_letters_or_digits(s)
}

// The questions 126 to 131.
#[tactic(auto, using(epe::proofs::Asking::asking, crate::proofs::Stating::stating), unfolding(crate::specs::Contents::stated_questions))]
fn judge_count_and_sum(line: &Line<'_>) -> Result<(), Refusal>
    ensures { verdict_of result ≡ first_no (stated_questions line.now.text.now) }
{
    let Some(count) = number::read(line.nth(11), 1, 6) else {
        return Err(Refusal::Count);
    };
    if count == 0 {
        return Err(Refusal::CountZero);
    }
    let Some(sum) = Amount::read_sum(line.nth(12)) else {
        return Err(Refusal::Sum);
    };
    if sum.0 == 0 {
        return Err(Refusal::SumZero);
    }
    Ok(())
}

// The kind that the header states; what is no digit is none.
// Kept: 1d, 1f: a kind is a digit of a file, and what is no digit is one that the profile sets nothing for, as its definition has it.
fn stated_kind(line: &Line<'_>) -> u64
    ensures { result ≡ stated_kind line.now.text.now }
{
    number::read(line.nth(10), 1, 1).unwrap_or(KINDS)
}
