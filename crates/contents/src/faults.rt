// The first fault of an order, by its fields in one text or two and by what is said of its extra field.
ghost use Rattle.std.specs.Prelude.{◌≡◌, not, ◌&&◌, ◌+◌, ◌≤◌, drop};
ghost use Rattle.epe.specs.File.{field};
ghost use Rattle.contents.specs.Faults.{fault_number, first_of, placed, housed, unspaced, fault_questions, first_fault, fault_of};
ghost use Rattle.contents.specs.Around.{field_around};
ghost use Rattle.contents.specs.Inner.Parts.{field_of_two, questions_of_two};

use crate::extra::{ExtraSaid, judge_extra};
use crate::field::{is_postcode, is_sized, is_spaced};
use epe::line::Line;

// A fault of an order, with its number, in document 01's words.
#[derive(Clone, Copy, PartialEq, Eq, Debug)]
pub enum Fault {
    // "surname (field 4) not 1 to 31 long"
    Surname = 1,

    // "first name (5) not 1 to 22"
    FirstName = 2,

    // "post town (6) not 1 to 35"
    PostTown = 3,

    // "postcode (7) not dd-ddd"
    Postcode = 4,

    // "town (8) or street (9) above 35, or town, street and extra (12) all empty"
    Place = 5,

    // "house number (10) above 11, or empty while extra is empty"
    House = 6,

    // "extra not empty and not `PR`, nor `SP_` or `PP_` with 1 to 5 digits"
    Extra = 7,

    // "benefit identifier (14) not 1 to 20"
    Benefit = 8,

    // "period (15) not 1 to 35"
    Period = 9,

    // "one of fields 4 to 19 starts or ends with a space"
    Spaced = 10,
}

impl From<Fault> for u64 {
    ghost from_gives = { λ fault number. number ≡ fault_number fault };

    // Kept: 4d: what is cast is an enum, whose number nothing else gives.
    fn from(fault: Fault) -> u64 {
        fault as u64
    }
}

// The number of a fault, 0 for none.
// Kept: 1f: across the C interface a fault is a number, and 0 for none.
pub fn number_of(fault: Option<Fault>) -> u64
    ensures { result ≡ first_of fault }
{
    fault.map_or(0, u64::from)
}

// An order's fields, and what is said of its extra field. The front has those up to the eleventh. The back has those behind the extra field:
// field n of the order is its field n - shift. A whole line is both, and the shift is 0.
#[derive(Drop)]
pub struct Record<'a> {
    front: &'a Line<'a>,
    back: &'a Line<'a>,
    shift: usize,
    extra: ExtraSaid,
    ghost shifted: { shift ≤ 11 },
}

impl<'a> Record<'a> {
    // The order of a whole line.
    #[tactic(auto, using(crate::proofs::FaultLaws::whole_fault))]
    pub fn of(line: &'a Line<'a>) -> Record<'a>
        ensures { first_fault (questions_of_two result.front.now.text.now result.back.now.text.now result.shift result.extra) ≡ fault_of line.now.text.now }
    {
        Record {
            front: line,
            back: line,
            shift: 0,
            extra: judge_extra(line.nth(12)),
        }
    }

    // The order that has such bytes before and after an extra field of which so much is said.
    pub fn around(said: ExtraSaid, before: &'a Line<'a>, after: &'a Line<'a>) -> Record<'a>
        ensures { questions_of_two result.front.now.text.now result.back.now.text.now result.shift result.extra ≡ fault_questions (field_around before.now.text.now after.now.text.now) said }
    {
        Record {
            front: before,
            back: after,
            shift: 11,
            extra: said,
        }
    }

    // The first fault.
    #[tactic(auto, using(epe::proofs::Asking::asking), unfolding(crate::specs::Faults::fault_questions))]
    pub fn first_fault(&self) -> Option<Fault>
        ensures { first_of result ≡ first_fault (questions_of_two self.now.front.now.text.now self.now.back.now.text.now self.now.shift self.now.extra) }
    {
        if !is_sized(self.front.nth(4), 1, 31) {
            return Some(Fault::Surname);
        }
        if !is_sized(self.front.nth(5), 1, 22) {
            return Some(Fault::FirstName);
        }
        if !is_sized(self.front.nth(6), 1, 35) {
            return Some(Fault::PostTown);
        }
        if !is_postcode(self.front.nth(7)) {
            return Some(Fault::Postcode);
        }
        self.address_fault()
    }

    // The first fault from the fifth on.
    #[tactic(auto, using(epe::proofs::Asking::asking), unfolding(crate::specs::Faults::fault_questions))]
    fn address_fault(&self) -> Option<Fault>
        ensures { first_of result ≡ first_fault (drop 4 (questions_of_two self.now.front.now.text.now self.now.back.now.text.now self.now.shift self.now.extra)) }
    {
        let absent = self.extra.empty;
        if !is_place(self.front.nth(8), self.front.nth(9), absent) {
            return Some(Fault::Place);
        }
        if !is_house(self.front.nth(10), absent) {
            return Some(Fault::House);
        }
        if self.extra.fails {
            return Some(Fault::Extra);
        }
        self.benefit_fault()
    }

    // The first fault from the eighth on.
    #[tactic(auto, using(epe::proofs::Asking::asking), unfolding(crate::specs::Faults::fault_questions))]
    fn benefit_fault(&self) -> Option<Fault>
        ensures { first_of result ≡ first_fault (drop 7 (questions_of_two self.now.front.now.text.now self.now.back.now.text.now self.now.shift self.now.extra)) }
    {
        if !is_sized(self.back.nth(14 - self.shift), 1, 20) {
            return Some(Fault::Benefit);
        }
        if !is_sized(self.back.nth(15 - self.shift), 1, 35) {
            return Some(Fault::Period);
        }
        if !self.has_no_spaces() {
            return Some(Fault::Spaced);
        }
        None
    }

    // Do none of the fields 4 to 19 start or end with a space?
    #[tactic(auto, using(text::proofs::Branches::branches, crate::proofs::FaultLaws::back_unspaced), unfolding(crate::specs::Faults::unspaced))]
    fn has_no_spaces(&self) -> bool
        ensures { result ≡ (unspaced 8 4 (field_of_two self.now.front.now.text.now self.now.back.now.text.now self.now.shift) && (not self.now.extra.spaced && unspaced 7 13 (field_of_two self.now.front.now.text.now self.now.back.now.text.now self.now.shift))) }
    {
        are_unspaced(self.front, 4, 8)
            && (!self.extra.spaced && are_unspaced(self.back, 13 - self.shift, 7))
    }
}

// Are town and street no longer than they may be, and is there one of them or an extra?
#[tactic(auto, using(text::proofs::Branches::branches), unfolding(crate::specs::Faults::placed))]
fn is_place(town: &[u8], street: &[u8], absent: bool) -> bool
    ensures { result ≡ placed town.now street.now absent }
{
    is_sized(town, 0, 35)
        && (is_sized(street, 0, 35) && !(town.is_empty() && (street.is_empty() && absent)))
}

// Is a house number no longer than it may be, and is there one or an extra?
#[tactic(auto, using(text::proofs::Branches::branches), unfolding(crate::specs::Faults::housed))]
fn is_house(house: &[u8], absent: bool) -> bool
    ensures { result ≡ housed house.now absent }
{
    is_sized(house, 0, 11) && !(house.is_empty() && absent)
}

// Do none of n fields from one on start or end with a space?
#[tactic(auto, unfolding(crate::specs::Faults::unspaced))]
fn are_unspaced(line: &Line<'_>, from: usize, n: usize) -> bool
    requires { (1 ≤ from) × (from + n ≤ 33) }
    ensures { result ≡ unspaced n from (λ k. field k line.now.text.now) }
{
    (from..from + n).all(|at| !is_spaced(line.nth(at)))
}
