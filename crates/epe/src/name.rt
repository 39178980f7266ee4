// The name of an order file, and the title of a transfer.
ghost use Rattle.std.specs.Prelude.{◌≡◌, ◌&&◌, ◌||◌, List, ℕ, ◌+◌, ◌-◌, ◌≤◌, eqb, leb, length, get_or, take, is_some};
ghost use Rattle.std.specs.Option.{unwrap_or};
ghost use Rattle.text.specs.Bytes.{same};
ghost use Rattle.text.specs.Quoted.{bytes};
ghost use Rattle.text.specs.Number.{number};
ghost use Rattle.text.specs.Fields.{fields};
ghost use Rattle.calendar.specs.Calendar.{real};
ghost use Rattle.epe.specs.Questions.{first_no, is_passed, verdict_of};
ghost use Rattle.epe.specs.Ident.{identifier};
ghost use Rattle.epe.specs.Name.{name_part, name_ident, name_questions, name_of, title_name, title_of, title_questions, title_verdict, title_said};
ghost use Rattle.epe.specs.Inner.Ending.{ending_money};
ghost use Rattle.epe.specs.Inner.Dated.{Dated, dated_questions, dated_name};

use crate::ident::{Ident, ident_of, is_identifier};
use crate::refusal::Refusal;
use calendar::date::{Date, is_real};
use money::Money;
use text::bytes::{byte_at, first, rest};
use text::fields::Fields;
use text::number::read;

// A name and where its hyphens stand, whose parts are four.
pub type Parts<'a> = Fields<'a, b'-', 4>;

// The parts of a name.
// Kept: 1d: a name in lent memory that is not judged yet has any byte for its payment and its kind, and is told of as it is.
#[derive(Clone, Copy, PartialEq, Eq, Debug)]
pub struct Name {
    pub ident: Ident,
    pub date: Date,
    pub payment: u8,
    pub kind: u64,
}

// What a title says: the name of a shipment, and a money.
#[derive(Clone, Copy, PartialEq, Eq, Debug)]
pub struct Title {
    pub name: Name,
    pub money: Money,
}

// What is no title, which is 11, with what it says all the same.
#[derive(Clone, Copy, PartialEq, Eq, Debug)]
pub struct NoTitle {
    pub said: Title,
}

impl From<NoTitle> for u64 {
    ghost from_gives = { λ none number. number ≡ 11 };

    fn from(_none: NoTitle) -> u64 {
        11
    }
}

// The first question of a name that is answered no.
#[tactic(auto, unfolding(crate::specs::Name::name_questions, crate::specs::Inner::Dated::dated_questions))]
pub fn judge_name(name: &Parts<'_>) -> Result<(), Refusal>
    ensures { verdict_of result ≡ first_no (name_questions name.now.text.now) }
{
    judge_parts(name, name.nth(2))
}

// The parts of a name, as far as it has them.
#[tactic(auto, unfolding(crate::specs::Name::name_of, crate::specs::Inner::Dated::dated_name))]
pub fn name_of(name: &Parts<'_>) -> Name
    ensures { result ≡ name_of name.now.text.now }
{
    read_parts(name, name.nth(2))
}

// What a title says, also where it is none.
#[tactic(auto, using(crate::proofs::TitleLaws::ending_kept, crate::proofs::TitleLaws::no_title, crate::proofs::TitleLaws::a_title, crate::proofs::TitleLaws::said_is))]
pub fn read_title(title: &[u8]) -> Result<Title, NoTitle>
    ensures verdict { title_verdict result ≡ first_no (title_questions title.now) }
    ensures said { title_said result ≡ title_of title.now }
{
    let ending = rest(title, ending_at(title));
    let name = Parts::of(first(title, ending_at(title)));
    let date = title_date(title, &name);
    let money = money_of(ending);
    let said = Title {
        name: read_parts(&name, date),
        money: money.unwrap_or(Money::O),
    };
    if !is_title(judge_parts(&name, date), money) {
        return Err(NoTitle { said });
    }
    Ok(said)
}

// Is it a title: did its name's questions come to no refusal, and does its ending name a money?
#[tactic(auto, using(text::proofs::Branches::branches, crate::proofs::TitleLaws::passes))]
fn is_title(named: Result<(), Refusal>, money: Option<Money>) -> bool
    ensures { result ≡ (is_passed (verdict_of named) && is_some money) }
{
    named.is_ok() && money.is_some()
}

// The first question that is answered no of a name with this second part.
#[tactic(auto, using(crate::proofs::Asking::asking), unfolding(crate::specs::Inner::Dated::dated_questions))]
fn judge_parts(name: &Parts<'_>, date: &[u8]) -> Result<(), Refusal>
    ensures { verdict_of result ≡ first_no (dated_questions name.now.text.now date.now) }
{
    if !name.has(4) {
        return Err(Refusal::NameHyphens);
    }
    if !starts_epe(name) {
        return Err(Refusal::NameEpe);
    }
    if !has_z(name) {
        return Err(Refusal::NameZ);
    }
    if !has_identifier(name) {
        return Err(Refusal::NameIdentifier);
    }
    if !is_date(date) {
        return Err(Refusal::NameDate);
    }
    if !has_payment(name) {
        return Err(Refusal::NamePayment);
    }
    if !has_kind(name) {
        return Err(Refusal::NameKind);
    }
    Ok(())
}

// The parts of a name with this second part.
#[tactic(auto, unfolding(crate::specs::Inner::Dated::dated_name))]
fn read_parts(name: &Parts<'_>, date: &[u8]) -> Name
    ensures { result ≡ dated_name name.now.text.now date.now }
{
    Name {
        ident: ident_of(identifier_in(name)),
        date: date_of(date),
        payment: byte_at(name.nth(3), 0),
        kind: read(name.nth(4), 1, 1).unwrap_or(0),
    }
}

// The rest of its first part, behind EPEZ.
pub fn identifier_in<'a>(name: &Parts<'a>) -> &'a [u8]
    ensures { result.now ≡ name_ident name.now.text.now }
{
    rest(name.nth(1), 4)
}

// Does the name start EPE?
fn starts_epe(name: &Parts<'_>) -> bool
    ensures { result ≡ same (take 3 name.now.text.now) (bytes "EPE") }
{
    first(name.text(), 3) == b"EPE".as_slice()
}

// Has it a Z then?
fn has_z(name: &Parts<'_>) -> bool
    ensures { result ≡ eqb (get_or name.now.text.now 3 0) 0x5A }
{
    byte_at(name.text(), 3) == b'Z'
}

// Is the rest of its first part an identifier?
fn has_identifier(name: &Parts<'_>) -> bool
    ensures { result ≡ identifier (name_ident name.now.text.now) }
{
    is_identifier(identifier_in(name))
}

// The date 20yymmdd of a second part.
fn date_of(part: &[u8]) -> Date
    ensures { result.0 ≡ 20000000 + unwrap_or (number 6 6 part.now) 0 }
{
    Date(20_000_000 + read(part, 6, 6).unwrap_or(0))
}

// Is a second part six digits, a real date 20yymmdd?
#[tactic(auto, using(text::proofs::Branches::branches))]
fn is_date(part: &[u8]) -> bool
    ensures { result ≡ (is_some (number 6 6 part.now) && real (20000000 + unwrap_or (number 6 6 part.now) 0)) }
{
    read(part, 6, 6).is_some() && is_real(date_of(part))
}

// Is its third part A or B?
#[tactic(auto, using(text::proofs::Branches::branches))]
fn has_payment(name: &Parts<'_>) -> bool
    ensures { result ≡ (same (name_part 3 name.now.text.now) (bytes "A") || same (name_part 3 name.now.text.now) (bytes "B")) }
{
    let part = name.nth(3);
    part == b"A".as_slice() || part == b"B".as_slice()
}

// Is its fourth part one digit 0 to 4?
#[tactic(auto, using(text::proofs::Branches::branches))]
fn has_kind(name: &Parts<'_>) -> bool
    ensures { result ≡ (is_some (number 1 1 (name_part 4 name.now.text.now)) && leb (unwrap_or (number 1 1 (name_part 4 name.now.text.now)) 0) 4) }
{
    read(name.nth(4), 1, 1).is_some_and(|kind| kind <= 4)
}

// The second part of what stands before a title's ending, without its 20 where that makes it a long one.
fn title_date<'a>(title: &'a [u8], name: &Parts<'a>) -> &'a [u8]
    ensures { name.now.text.now ≡ take (length title.now - 2) title.now → Dated name.now.text.now result.now (title_name title.now) }
{
    let date = name.nth(2);
    if is_long_date(second_part(title, name)) {
        return rest(date, 2);
    }
    date
}

// The second part of a title: that of what stands before its ending, where another part follows it there.
#[tactic(auto, using(crate::proofs::TitleLaws::second_kept))]
fn second_part<'a>(title: &'a [u8], name: &Parts<'a>) -> &'a [u8]
    ensures { name.now.text.now ≡ take (length title.now - 2) title.now → result.now ≡ name_part 2 title.now }
{
    if 2 <= name.cuts() {
        return name.nth(2);
    }
    let title = Parts::of(title);
    title.nth(2)
}

// Is a second part eight bytes that begin 20?
#[tactic(auto, using(text::proofs::Branches::branches))]
fn is_long_date(part: &[u8]) -> bool
    ensures { result ≡ (eqb (length part.now) 8 && same (take 2 part.now) (bytes "20")) }
{
    part.len() == 8 && first(part, 2) == b"20".as_slice()
}

// Where the ending of a title starts: its last two bytes.
fn ending_at(title: &[u8]) -> usize
    ensures { result ≡ length title.now - 2 }
{
    title.len().saturating_sub(2)
}

// The money that an ending `-K` or `-O` names.
#[tactic(auto, using(text::proofs::Branches::branches), unfolding(crate::specs::Inner::Ending::ending_money))]
fn money_of(ending: &[u8]) -> Option<Money>
    ensures { result ≡ ending_money ending.now }
{
    if ending == b"-K".as_slice() {
        Some(Money::K)
    } else if ending == b"-O".as_slice() {
        Some(Money::O)
    } else {
        None
    }
}
