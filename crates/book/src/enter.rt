// An order file taken in: it is judged whole, then entered behind the last shipment.
ghost use Rattle.std.specs.Prelude.{◌≡◌, true, [], map, ◌+◌, ◌≤◌, length};
ghost use Rattle.fee.specs.Fee.{TermsFit};
ghost use Rattle.epe.specs.Name.{name_in_form};
ghost use Rattle.epe.specs.Questions.{Passed, first_no};
ghost use Rattle.epe.specs.File.{header};
ghost use Rattle.epe.specs.Profile.{profile_questions, terms_for};
ghost use Rattle.contents.specs.Contents.{stated_terms, contents_questions, orders, faulty_count};
ghost use Rattle.contents.specs.Steps.{stated_of, stated_verdict};
ghost use Rattle.contents.specs.Accepted.{EachInRange, EachCharged};
ghost use Rattle.contents.specs.Kept.{orders_in};
ghost use Rattle.model.specs.Shipment.{most_shipments, most_rows};
ghost use Rattle.model.specs.Calls.{Intake};
ghost use Rattle.model.specs.Book.{entered_row, new_shipment, entered};
ghost use Rattle.memory.specs.Layout.{IsMemory};
ghost use Rattle.memory.specs.Read.{shipments_in, sound_in};
ghost use Rattle.acts.specs.Inner.Place.{RowsStored};
ghost use Rattle.book.specs.Acceptance.{acceptance_of};
ghost use Rattle.book.specs.Does.{Does};
ghost use Rattle.book.specs.Inner.Entering.{kept_row, Fits, ShipmentEntered, Opened, Counted, DoesEnter};

use crate::refusal::IntakeRefusal;
use acts::place::find_called;
use acts::rows::rows_of;
use contents::judge::{Accepted, judge_records};
use contents::kept::order_in;
use contents::stated::{Stated, judge_stated};
use epe::file::open;
use epe::name::Name;
use epe::profile::Profile;
use fee::Terms;
use memory::enter::{enter_head, enter_order};
use memory::place::Place;
use memory::{MOST_ROWS, MOST_SHIPMENTS, Memory, store_shipments};

// Takes in an order file into a sound book.
#[tactic(auto, using(crate::proofs::IntakeActs::takes_files))]
pub fn take_file(
    memory: &mut [u8],
    profile: Profile,
    name: &[u8],
    file: &[u8],
) -> Result<Accepted, IntakeRefusal>
    requires { (first_no (profile_questions profile) ≡ Passed) × (sound_in memory.old ≡ true) }
    ensures { Does memory.old (Intake profile name.now file.now) (acceptance_of result) memory.new }
{
    let parts = open(name, file)?;
    let lent = Memory::lent(memory);
    let i = lent.shipments();
    if find_called(&lent, parts.ident, i).is_some() {
        return Err(IntakeRefusal::Known);
    }
    take_in(memory, i, profile, parts, file)
}

// Judges the contents of a file, and enters it behind the i shipments that there are.
fn take_in(
    memory: &mut [u8],
    i: usize,
    profile: Profile,
    name: Name,
    file: &[u8],
) -> Result<Accepted, IntakeRefusal>
    requires { (first_no (profile_questions profile) ≡ Passed) × (sound_in memory.old ≡ true) × (i ≡ shipments_in memory.old) × (name_in_form name ≡ true) × (stated_terms profile (header file.now) ≡ terms_for profile name.kind) }
    ensures { DoesEnter (contents_questions profile file.now) (entered profile name (orders file.now)) (length (orders file.now)) (faulty_count (orders file.now)) memory.old (acceptance_of result) memory.new }
{
    let stated = judge_stated(profile, file)?;
    take_records(memory, i, profile, name, stated, file)
}

// Judges the records of a file whose header has passed, and enters it behind the i shipments that there are.
#[tactic(auto, using(crate::proofs::IntakeActs::takes_records))]
fn take_records(
    memory: &mut [u8],
    i: usize,
    profile: Profile,
    name: Name,
    stated: Stated,
    file: &[u8],
) -> Result<Accepted, IntakeRefusal>
    requires { (first_no (profile_questions profile) ≡ Passed) × (sound_in memory.old ≡ true) × (i ≡ shipments_in memory.old) × (name_in_form name ≡ true) × (stated_terms profile (header file.now) ≡ terms_for profile name.kind) × (stated_verdict profile file.now ≡ Passed) × (stated ≡ stated_of profile file.now) }
    ensures { DoesEnter (contents_questions profile file.now) (entered profile name (orders file.now)) (length (orders file.now)) (faulty_count (orders file.now)) memory.old (acceptance_of result) memory.new }
{
    let mut kept = [0u64; MOST_ROWS];
    let accepted = judge_records(profile.fields, stated, file, &mut kept)?;
    enter_behind(memory, i, name, stated.terms, accepted, &kept)
}

// Enters a shipment of the first n orders that a table keeps behind the i that there are, if there is room.
// Kept: 6d: an order is kept as one number, so that 2,048 of them stand in 32 KiB of stack with all else.
#[tactic(auto, using(crate::proofs::IntakeActs::enters_behind))]
fn enter_behind(
    memory: &mut [u8],
    i: usize,
    name: Name,
    terms: Terms,
    accepted: Accepted,
    kept: &[u64],
) -> Result<Accepted, IntakeRefusal>
    requires { Opened memory.old i name terms × Counted terms accepted.orders kept.now }
    ensures { DoesEnter [] (new_shipment name terms (map (entered_row terms) (orders_in kept.now 0 accepted.orders))) accepted.orders accepted.faulty memory.old (acceptance_of result) memory.new }
{
    let n = accepted.orders;
    if MOST_SHIPMENTS <= i {
        return Err(IntakeRefusal::Shipments);
    }
    let k = rows_of(&Memory::lent(memory), i);
    if ((MOST_ROWS - k) as u64) < n {
        return Err(IntakeRefusal::Rows);
    }
    enter(memory, Place { head: i, row: k }, name, terms, n, kept);
    Ok(accepted)
}

// Enters a shipment of the first n orders that a table keeps at a place.
// Kept: 6d: an order is kept as one number, so that 2,048 of them stand in 32 KiB of stack with all else.
#[tactic(auto, using(crate::proofs::Entering::shipment_entered))]
fn enter(memory: &mut [u8], place: Place, name: Name, terms: Terms, n: u64, kept: &[u64])
    requires { Fits memory.old place.head place.row name terms n kept.now }
    ensures { ShipmentEntered (new_shipment name terms (map (entered_row terms) (orders_in kept.now 0 n))) memory.old memory.new }
{
    enter_orders(memory, place.row, n as usize, terms, kept);
    enter_head(memory, place.head, name, terms, n);
    store_shipments(memory, place.head + 1);
}

// Enters the first n orders that a table keeps, in the rows from the k-th on.
// Kept: 6d: an order is kept as one number, so that 2,048 of them stand in 32 KiB of stack with all else.
#[tactic(auto, using(crate::proofs::Entering::enters))]
fn enter_orders(memory: &mut [u8], k: usize, n: usize, terms: Terms, kept: &[u64])
    requires { (k + n ≤ most_rows) × IsMemory memory.old × TermsFit terms × EachInRange (orders_in kept.now 0 n) × EachCharged terms (orders_in kept.now 0 n) }
    ensures { RowsStored (kept_row terms k kept.now) k n memory.old memory.new }
{
    for done in 0..n {
        enter_order(memory, k + done, terms, order_in(kept, done));
    }
}
