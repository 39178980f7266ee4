// What the orders of a shipment are charged: their amounts and fees added up, where each has an amount in range, and its fee.
ghost use Rattle.std.specs.Prelude.{◌≡◌, Bool, ◌&&◌, IfSome};
ghost use Rattle.fee.specs.Fee.{TermsFit};
ghost use Rattle.epe.specs.Profile.{each};
ghost use Rattle.model.specs.declared.Row.{Row};
ghost use Rattle.money.specs.Money.{WithinOrder};
ghost use Rattle.sound.specs.Inner.Charges.{amount_fits, fee_fits, remainder_fits, is_flat, has_none, Tells, charges_of, SmallCharges, WithProduct, SmallProducts, Multiplied};

use fee::{Rate, Terms, difference};
use memory::row::LentRow;
use memory::rows::Rows;
use money::{Amount, Fee, Grosze};

// The sums of amounts and of fees of orders of which each is charged its fee.
#[derive(Clone, Copy)]
pub struct Charges {
    pub amounts: Amount,
    pub fees: Fee,
}

// Of orders: the sums of amounts and of fees, and the bits in which the two sides of any division differ.
// Kept: 2c: the sums, with the bits in which divisions differ and not yet with what they say.
#[derive(Clone, Copy)]
pub struct Products {
    pub amounts: Amount,
    pub fees: Fee,
    pub differences: u64,
}

// The charges of rows, on some terms, where each is charged its fee.
pub fn charges_in(rows: &Rows, terms: Terms) -> Option<Charges>
    requires { TermsFit terms }
    ensures { (result ≡ charges_of terms rows.now) × IfSome result SmallCharges }
{
    if terms.rate.0 == 0 {
        return flat_charges(rows, terms.flat);
    }
    rated_charges(rows, terms)
}

// Those without a rate: every fee is the flat part, and no remainder stands beside it.
#[tactic(auto, using(crate::proofs::Tallying::flat_wrong, crate::proofs::Tallying::flat_charged))]
fn flat_charges(rows: &Rows, flat: Fee) -> Option<Charges>
    requires { WithinOrder flat.0 }
    ensures { (result ≡ charges_of (record { flat = flat; rate = record { 0 = 0 } }) rows.now) × IfSome result SmallCharges }
{
    if !are_charged_flat(rows, flat) {
        return None;
    }
    let amounts = rows.amounts();
    let fees = Fee::sum(rows.len() as u64 * flat.0);
    Some(Charges { amounts, fees })
}

// Those with a rate.
#[tactic(auto, using(crate::proofs::Tallying::out_of_range, crate::proofs::Tallying::differing, crate::proofs::Tallying::rated_charged))]
fn rated_charges(rows: &Rows, terms: Terms) -> Option<Charges>
    requires { TermsFit terms }
    ensures { (result ≡ charges_of terms rows.now) × IfSome result SmallCharges }
{
    let products = products_in(rows, terms);
    if !are_in_range(rows) {
        return None;
    }
    if products.differences != 0 {
        return None;
    }
    let amounts = products.amounts;
    let fees = products.fees;
    Some(Charges { amounts, fees })
}

// Has each row an amount in range, the flat part for its fee, and no remainder?
fn are_charged_flat(rows: &Rows, flat: Fee) -> bool
    ensures { result ≡ (each amount_fits rows.now && (each (is_flat flat.0) rows.now && each has_none rows.now)) }
{
    are_amounts(rows)
        && (do_all_pass(rows, |row| row.fee().0 == flat.0)
            && do_all_pass(rows, |row| row.remainder() == 0))
}

// Are amount, fee and remainder of each in range?
fn are_in_range(rows: &Rows) -> bool
    ensures { result ≡ (each amount_fits rows.now && (each fee_fits rows.now && each remainder_fits rows.now)) }
{
    are_amounts(rows)
        && (do_all_pass(rows, |row| Fee::is_order(row.fee().0))
            && do_all_pass(rows, |row| row.remainder() < Rate::CAP))
}

// The products of rows.
#[tactic(auto, using(crate::proofs::Tallying::multiplying_begun, crate::proofs::Tallying::products_small, crate::proofs::Tallying::multiplying_on, crate::proofs::Tallying::multiplied))]
fn products_in(rows: &Rows, terms: Terms) -> Products
    requires { TermsFit terms }
    ensures { Multiplied terms rows.now result }
{
    let no_amount = Amount::sum(0);
    let no_fee = Fee::sum(0);
    let mut products = Products {
        amounts: no_amount,
        fees: no_fee,
        differences: 0,
    };
    for row in rows {
        products = with_product(products, &row, terms);
    }
    products
}

// The products with a row.
fn with_product(products: Products, row: &LentRow, terms: Terms) -> Products
    requires { TermsFit terms × SmallProducts products }
    ensures { WithProduct terms products row.now result }
{
    let amount = row.amount();
    let fee = row.fee();
    let differs = difference(terms, amount.0, fee.0, row.remainder());
    let amounts = Amount::sum(products.amounts.0 + amount.0);
    let fees = Fee::sum(products.fees.0 + fee.0);
    Products {
        amounts,
        fees,
        differences: products.differences | differs,
    }
}

// Is each amount in range?
fn are_amounts(rows: &Rows) -> bool
    ensures { result ≡ each amount_fits rows.now }
{
    do_all_pass(rows, |row| Amount::is_order(row.amount().0))
}

// Do all rows pass a test?
fn do_all_pass<F: Fn(LentRow) -> bool>(rows: &Rows, test: F) -> bool
    requires callable { (row : Row) → F.pre test row }
    ensures { (asked : Row → Bool) → Tells (F.post test) asked → result ≡ each asked rows.now }
{
    let mut fit = true;
    for row in rows {
        fit &= test(row);
    }
    fit
}
