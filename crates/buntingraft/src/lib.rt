// The C ABI of libbuntingraft.a: its exports, and nothing else. include/buntingraft.h says what each is for.
#![tactic(auto)]

mod bits;

ghost use Rattle.std.specs.Prelude.{◌≡◌, []};
ghost use Rattle.fee.specs.Total.{amount_for};
ghost use Rattle.epe.specs.Ident.{ident_of};
ghost use Rattle.contents.specs.Faults.{said_of};
ghost use Rattle.contents.specs.Around.{fault_around};
ghost use Rattle.model.specs.Calls.{GoAhead, Pair, Close, OnOrder, Intake, Transfer, On};
ghost use Rattle.model.specs.declared.Deed.TheVariants.{Post, Pay, MarkUndelivered, Withdraw};
ghost use Rattle.memory.specs.Layout.{size};
ghost use Rattle.memory.specs.Read.{read_book};
ghost use Rattle.book.specs.Reply.{done_with, Plays};
ghost use Rattle.write.specs.Money.{money_text};
ghost use Rattle.write.specs.Written.{written_after};
ghost use Rattle.report.specs.Rkf.{rkf_written};
ghost use Rattle.report.specs.Ope.{ope_written};
ghost use Rattle.store.specs.Stored.{most_stored, stored_into};
ghost use Rattle.buntingraft.specs.Exports.{Makes, Returns, Sheets, TellsWriting, TellsLoading, reply_to_total};
ghost use Rattle.buntingraft.specs.Exports.{bits_of, said_in, reply_to_around};

use bits::{bits_of, said_in};
use book::numbers::{are_known, money_of, route_of};
use book::reply::{Reply, done, refused, tell};
use contents::around::judge_around;
use contents::extra::judge_extra;
use contents::faults::number_of;
use epe::ident::ident_of;
use epe::profile::Profile;
use fee::total::amount_for;
use memory::SIZE;
use money::{Amount, Grosze};
use report::ope::write_ope;
use report::rkf::write_rkf;
use sheet::{SheetRow, Totals};
use store::load::load;
use store::{MOST_STORED, store};
use write::grosze::write_money;

// How many bytes a book takes.
#[unsafe(no_mangle)]
pub extern "C" fn buntingraft_book_bytes() -> u64
    ensures { result ≡ size }
{
    SIZE as u64
}

// Makes an empty book.
#[unsafe(no_mangle)]
pub extern "C" fn buntingraft_make_empty(book: &mut [u8]) -> Reply
    ensures { Makes book.old result book.new }
{
    tell(book::make_empty(book))
}

// Takes in an order file.
#[unsafe(no_mangle)]
pub extern "C" fn buntingraft_intake(
    book: &mut [u8],
    profile: Profile,
    name: &[u8],
    file: &[u8],
) -> Reply
    ensures { Plays book.old (Intake profile name.now file.now) result book.new }
{
    book::told::intake(book, profile, name, file)
}

// Takes a transfer.
#[unsafe(no_mangle)]
pub extern "C" fn buntingraft_transfer(book: &mut [u8], title: &[u8], amount: u64) -> Reply
    ensures { Plays book.old (Transfer title.now amount) result book.new }
{
    book::told::transfer(book, title, amount)
}

// Takes a go-ahead.
#[unsafe(no_mangle)]
pub extern "C" fn buntingraft_go_ahead(book: &mut [u8], id: &[u8]) -> Reply
    ensures { Plays book.old (On (ident_of id.now) GoAhead) result book.new }
{
    book::told::go_ahead(book, id)
}

// Pairs a shipment.
#[unsafe(no_mangle)]
pub extern "C" fn buntingraft_pair(book: &mut [u8], id: &[u8]) -> Reply
    ensures { Plays book.old (On (ident_of id.now) Pair) result book.new }
{
    book::told::pair(book, id)
}

// Closes a shipment.
#[unsafe(no_mangle)]
pub extern "C" fn buntingraft_close(book: &mut [u8], id: &[u8]) -> Reply
    ensures { Plays book.old (On (ident_of id.now) Close) result book.new }
{
    book::told::close(book, id)
}

// Posts an order.
#[unsafe(no_mangle)]
pub extern "C" fn buntingraft_post(book: &mut [u8], id: &[u8], order: u64) -> Reply
    ensures { Plays book.old (On (ident_of id.now) (OnOrder Post order)) result book.new }
{
    book::told::post(book, id, order)
}

// Pays an order.
#[unsafe(no_mangle)]
pub extern "C" fn buntingraft_pay(book: &mut [u8], id: &[u8], order: u64) -> Reply
    ensures { Plays book.old (On (ident_of id.now) (OnOrder Pay order)) result book.new }
{
    book::told::pay(book, id, order)
}

// Marks an order undelivered.
#[unsafe(no_mangle)]
pub extern "C" fn buntingraft_mark_undelivered(book: &mut [u8], id: &[u8], order: u64) -> Reply
    ensures { Plays book.old (On (ident_of id.now) (OnOrder MarkUndelivered order)) result book.new }
{
    book::told::mark_undelivered(book, id, order)
}

// Withdraws an order.
#[unsafe(no_mangle)]
pub extern "C" fn buntingraft_withdraw(book: &mut [u8], id: &[u8], order: u64) -> Reply
    ensures { Plays book.old (On (ident_of id.now) (OnOrder Withdraw order)) result book.new }
{
    book::told::withdraw(book, id, order)
}

// Returns money by a route.
// Kept: 1d: the C interface has both as numbers.
#[unsafe(no_mangle)]
pub extern "C" fn buntingraft_return(book: &mut [u8], id: &[u8], route: u64, money: u64) -> Reply
    ensures { Returns book.old (ident_of id.now) route money result book.new }
{
    if !are_known(route, money) {
        let refusal = book::refuse_return(book, ident_of(id));
        return refused(u64::from(refusal));
    }
    book::told::return_money(book, id, route_of(route), money_of(money))
}

// Writes RKF, the report on an order file.
// Kept: 1d: the C interface has a refusal as a number.
#[tactic(auto, using(crate::proofs::Telling::tells_writing))]
#[unsafe(no_mangle)]
pub extern "C" fn buntingraft_write_rkf(
    own: &[u8],
    created: u64,
    source: &[u8],
    refusal: u64,
    output: &mut [u8],
) -> Reply
    ensures { TellsWriting (rkf_written own.now created source.now refusal output.old) result output.new }
{
    tell(write_rkf(own, created, source, refusal, output))
}

// Writes OPE, the report on the faulty orders of a shipment.
// Kept: 6d: the C interface lends the codes as numbers.
#[tactic(auto, using(crate::proofs::Telling::tells_writing))]
#[unsafe(no_mangle)]
pub extern "C" fn buntingraft_write_ope(
    book: &[u8],
    id: &[u8],
    own: &[u8],
    created: u64,
    codes: &[u64],
    output: &mut [u8],
) -> Reply
    ensures { TellsWriting (ope_written (read_book book.now) (ident_of id.now) own.now created codes.now output.old) result output.new }
{
    tell(write_ope(book, id, own, created, codes, output))
}

// Writes money in its one spelling.
#[tactic(auto, using(crate::proofs::Telling::tells_writing))]
#[unsafe(no_mangle)]
pub extern "C" fn buntingraft_write_money(grosze: u64, output: &mut [u8]) -> Reply
    ensures { TellsWriting (written_after [] (money_text grosze) output.old) result output.new }
{
    tell(write_money(grosze, output))
}

// Finds the amount that makes a total.
#[tactic(auto, unfolding(crate::specs::Exports::reply_to_total))]
#[unsafe(no_mangle)]
pub extern "C" fn buntingraft_amount_for(flat: u64, rate: u64, total: u64) -> Reply
    ensures { result ≡ reply_to_total (amount_for flat rate total) }
{
    tell(amount_for(flat, rate, total).map(|found| found.map_or(0, Amount::grosze)))
}

// Judges an extra address field.
#[unsafe(no_mangle)]
pub extern "C" fn buntingraft_judge_extra(extra: &[u8]) -> Reply
    ensures { result ≡ done_with (bits_of (said_of extra.now)) 0 }
{
    done(bits_of(judge_extra(extra)), 0)
}

// Judges the record around an extra field that was judged before.
// Kept: 1d: across the C interface what is said is a number.
#[tactic(auto, unfolding(crate::specs::Exports::reply_to_around))]
#[unsafe(no_mangle)]
pub extern "C" fn buntingraft_judge_around(bits: u64, before: &[u8], after: &[u8]) -> Reply
    ensures { result ≡ reply_to_around (fault_around (said_in bits) before.now after.now) }
{
    tell(judge_around(said_in(bits), before, after).map(number_of))
}

// How many bytes a stored book takes at most.
#[unsafe(no_mangle)]
pub extern "C" fn buntingraft_stored_bytes() -> u64
    ensures { result ≡ most_stored }
{
    MOST_STORED as u64
}

// Stores the book.
#[tactic(auto, using(crate::proofs::Telling::tells_writing))]
#[unsafe(no_mangle)]
pub extern "C" fn buntingraft_store(book: &[u8], output: &mut [u8]) -> Reply
    ensures { TellsWriting (stored_into (read_book book.now) output.old) result output.new }
{
    tell(store(book, output))
}

// Loads a stored book.
#[unsafe(no_mangle)]
pub extern "C" fn buntingraft_load(book: &mut [u8], stored: &[u8]) -> Reply
    ensures { TellsLoading book.old stored.now result book.new }
{
    tell(load(book, stored))
}

// Fills the balance sheet, and adds it to the totals.
#[unsafe(no_mangle)]
pub extern "C" fn buntingraft_sheet(
    book: &[u8],
    table: &mut [SheetRow],
    totals: &mut Totals,
) -> Reply
    ensures { Sheets book.now table.old totals.old result table.new totals.new }
{
    tell(sheet::sheet(book, table, totals))
}
