// Document 01's worked shipment ZS1, run through the calls of the book in lent memory: a line for each call, with what it answers.
// The number before a call is its line in document 01's table (crates/model/specs/Zs1.antt); line 0 is what comes before it.
#![tactic(auto)]

ghost use Rattle.std.specs.Prelude.{◌≤◌, length, IfOk};

use acts::answer::{Pairing, Returned};
use acts::refusal::Refusal;
use book::refusal::IntakeRefusal;
use calendar::date::Date;
use contents::judge::Accepted;
use epe::ident::Ident;
use epe::profile::Profile;
use fee::Rate;
use memory::SIZE;
use model::Route;
use money::{Amount, Fee, Grosze, Money, Sum};
use std::fs::File;
use std::io;
use std::io::Read;

// The line of a call, for each form that an answer has.
// Kept: 1e, 2a, 4f: what a line says of an answer is this program's own; a `Display` of it would need a type around each answer, since those are of acts.
fn say_completion(rt: &impl Print, call: &str, completion: Result<(), Refusal>) -> io::Result<()> {
    // Kept: 7a: a line for what is answered, and one for a refusal.
    match completion {
        Ok(()) => println!(rt; "{call}: done"),
        Err(refusal) => say_refused(rt, call, u64::from(refusal)),
    }
}

// Kept: 1e, 2a, 4f: what a line says of an answer is this program's own; a `Display` of it would need a type around each answer, since those are of acts.
fn say_acceptance(
    rt: &impl Print,
    call: &str,
    acceptance: Result<Accepted, IntakeRefusal>,
) -> io::Result<()> {
    // Kept: 7a: a line for what is answered, and one for a refusal.
    match acceptance {
        Ok(accepted) => {
            println!(rt;
                "{call}: accepted, orders {}, faulty {}",
                accepted.orders, accepted.faulty
            )
        }
        Err(refusal) => say_refused(rt, call, u64::from(refusal)),
    }
}

// Kept: 1e, 2a, 4f: what a line says of an answer is this program's own; a `Display` of it would need a type around each answer, since those are of acts.
fn say_pairing(rt: &impl Print, call: &str, pairing: Pairing) -> io::Result<()> {
    match pairing {
        Pairing::Paired => println!(rt; "{call}: paired"),
        Pairing::Short(amount, fee) => {
            println!(rt; "{call}: short, K {}, O {}", amount.0, fee.0)
        }
        Pairing::Refused(number) => say_refused(rt, call, number),
    }
}

// Kept: 1e, 2a, 4f: what a line says of an answer is this program's own; a `Display` of it would need a type around each answer, since those are of acts.
fn say_posting(rt: &impl Print, call: &str, posting: Result<Fee, Refusal>) -> io::Result<()> {
    // Kept: 7a: a line for what is answered, and one for a refusal.
    match posting {
        Ok(fee) => println!(rt; "{call}: earned {} grosze", fee.0),
        Err(refusal) => say_refused(rt, call, u64::from(refusal)),
    }
}

// Kept: 1e, 2a, 4f: what a line says of an answer is this program's own; a `Display` of it would need a type around each answer, since those are of acts.
fn say_payment(rt: &impl Print, call: &str, payment: Result<Amount, Refusal>) -> io::Result<()> {
    // Kept: 7a: a line for what is answered, and one for a refusal.
    match payment {
        Ok(amount) => println!(rt; "{call}: paid {} grosze", amount.0),
        Err(refusal) => say_refused(rt, call, u64::from(refusal)),
    }
}

// Kept: 1e, 2a, 4f: what a line says of an answer is this program's own; a `Display` of it would need a type around each answer, since those are of acts.
fn say_returning(
    rt: &impl Print,
    call: &str,
    returning: Result<Returned, Refusal>,
) -> io::Result<()> {
    // Kept: 7a: a line for what is answered, and one for a refusal.
    match returning {
        Ok(returned) => say_returned(rt, call, returned),
        Err(refusal) => say_refused(rt, call, u64::from(refusal)),
    }
}

// The line of a return that is made.
// Kept: 1e, 2a, 4f: what a line says of an answer is this program's own; a `Display` of it would need a type around each answer, since those are of acts.
fn say_returned(rt: &impl Print, call: &str, returned: Returned) -> io::Result<()> {
    // Kept: 7b: two words.
    let moneys = match returned.sum {
        Sum::Amounts(_) => "amounts",
        Sum::Fees(_) => "fees",
    };
    println!(rt;
        "{call}: returned {} grosze of {moneys}, orders {}",
        returned.sum.grosze(),
        returned.count
    )
}

// The line of a call that is refused with a number.
// Kept: 1d, 4f: what is printed of a refusal is its number in document 01.
fn say_refused(rt: &impl Print, call: &str, number: u64) -> io::Result<()> {
    println!(rt; "{call}: refused with {number}")
}

// Line 1: the transfers, and a pairing that the faulty order forbids.
fn run_transfers(rt: &impl Print, memory: &mut [u8], ident: Ident) -> io::Result<()> {
    say_completion(
        rt,
        "1. transfer of K 17549",
        book::transfer(memory, b"EPEZZS1-201007-A-0-K", 17549),
    )?;
    say_completion(
        rt,
        "1. transfer of O 1050",
        book::transfer(memory, b"EPEZZS1-201007-A-0-O", 1050),
    )?;
    say_pairing(rt, "1. pair", book::pair(memory, ident))
}

// Lines 2 and 3: with the go-ahead it is paired, once nothing is missing.
fn run_pairing(rt: &impl Print, memory: &mut [u8], ident: Ident) -> io::Result<()> {
    say_completion(rt, "2. go-ahead", book::go_ahead(memory, ident))?;
    say_pairing(rt, "2. pair", book::pair(memory, ident))?;
    say_completion(
        rt,
        "3. transfer of K 101",
        book::transfer(memory, b"EPEZZS1-201007-A-0-K", 101),
    )?;
    say_pairing(rt, "3. pair", book::pair(memory, ident))
}

// Lines 4 and 5: the surplus and the faulty order go back.
fn run_returns(rt: &impl Print, memory: &mut [u8], ident: Ident) -> io::Result<()> {
    say_returning(
        rt,
        "4. ZWR K",
        book::return_money(memory, ident, Route::Zwr, Money::K),
    )?;
    say_returning(
        rt,
        "4. ZWR K again",
        book::return_money(memory, ident, Route::Zwr, Money::K),
    )?;
    say_returning(
        rt,
        "5. OPR K",
        book::return_money(memory, ident, Route::Opr, Money::K),
    )?;
    say_returning(
        rt,
        "5. OPR O",
        book::return_money(memory, ident, Route::Opr, Money::O),
    )
}

// Lines 6 and 7: one order is paid, the other withdrawn and returned.
fn run_orders(rt: &impl Print, memory: &mut [u8], ident: Ident) -> io::Result<()> {
    say_posting(rt, "6. post 1", book::post(memory, ident, 1))?;
    say_payment(rt, "6. pay 1", book::pay(memory, ident, 1))?;
    say_completion(rt, "7. withdraw 3", book::withdraw(memory, ident, 3))?;
    say_returning(
        rt,
        "7. ZZR K",
        book::return_money(memory, ident, Route::Zzr, Money::K),
    )?;
    say_returning(
        rt,
        "7. ZZR O",
        book::return_money(memory, ident, Route::Zzr, Money::O),
    )
}

// Runs ZS1 in the memory, from an empty book and the intake of its file on.
// Kept: 5b: a name and a file are two texts of an intake, as the C interface lends them.
fn run(rt: &impl Print, memory: &mut [u8], name: &[u8], file: &[u8]) -> io::Result<()> {
    let fee = Fee::order(350);
    let rate = Rate(0);
    let profile = Profile {
        today: Date(20201007),
        flat: [fee, fee, fee, fee, fee],
        fields: 19,
        rates: [rate, rate, rate, rate, rate],
    };
    say_completion(rt, "0. empty book", book::make_empty(memory))?;
    say_acceptance(rt, "0. intake", book::intake(memory, profile, name, file))?;
    let ident = epe::ident::ident_of(b"ZS1");
    run_transfers(rt, memory, ident)?;
    run_pairing(rt, memory, ident)?;
    run_returns(rt, memory, ident)?;
    run_orders(rt, memory, ident)
}

// Reads a file until it ends or the buffer is full, and says how many bytes were read.
fn read_full(file: &mut File, buffer: &mut [u8]) -> io::Result<usize>
    ensures { IfOk result (λ n. n ≤ length buffer.new) }
{
    let mut length = 0;
    // Kept: 3b: the library's reading to an end takes the heap, and how much a file gives at a time is known only when it has.
    while length < buffer.len() {
        let n = file.read(&mut buffer[length..])?;
        if n == 0 {
            break;
        }
        length += n;
    }
    Ok(length)
}

fn main(rt: HostRuntime) -> io::Result<()> {
    let name = "EPEZZS1-201007-A-0";
    let mut opened = File::open(&rt, name)?;
    let mut file = [0u8; 4096];
    let length = read_full(&mut opened, &mut file)?;
    drop(opened);
    let mut memory = [0u8; SIZE];
    run(&rt, &mut memory, name.as_bytes(), &file[..length])
}
