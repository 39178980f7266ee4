// A shipment's head: its fields, read from its bytes and stored in place.
ghost use Rattle.std.specs.Prelude.{◌≡◌, ◌&&◌, List, ℕ, ◌+◌, ◌≤◌, ◌<◌, ◌^◌};
ghost use Rattle.money.specs.Money.{amount, fee, is_sum, WithinSum, sum_of, grosze_in, money_of_sum};
ghost use Rattle.money.specs.declared.Money.TheVariants.{K, O};
ghost use Rattle.model.specs.Shipment.{most_shipments, is_waiting, is_paired};
ghost use Rattle.memory.specs.Layout.{head_size, IsMemory, IsHead};
ghost use Rattle.memory.specs.Heads.{terms_in, stage_in, go_ahead_in, flags_in_form, order_count_in, accepted_at, transfers_in, returned_at, surplus_in};
ghost use Rattle.memory.specs.Inner.Enter.{HeadStored};
ghost use Rattle.memory.specs.Inner.Stored.{stage_byte, with_stage_at, with_go_ahead_at, with_transfers_at, with_surplus_at};

use crate::number::{read, store};
use crate::{HEAD_SIZE, HEADS};
use fee::{Rate, Terms};
use model::Stage;
use money::{Amount, Fee, Grosze, Money, Sum};
use std::marker::Model;

// Where the length of the identifier lies, behind the identifier, which is the first field.
pub const LENGTH: usize = 17;

// The date of the name.
pub const DATE: usize = 18;

// A or B.
pub const PAYMENT: usize = 22;

// The kind.
pub const KIND: usize = 23;

// The flat part.
pub const FLAT: usize = 24;

// The stage.
const STAGE: usize = 28;

// Whether a go-ahead came.
const GO_AHEAD: usize = 29;

// The number of orders.
pub const ORDERS: usize = 30;

// Transfers accepted of K.
const ACCEPTED_K: usize = 32;

// Transfers accepted of O.
const ACCEPTED_O: usize = 40;

// Surplus returned of K.
const RETURNED_K: usize = 48;

// Surplus returned of O.
const RETURNED_O: usize = 56;

// The rate.
pub const RATE: usize = 64;

// A shipment's head, to be read in place.
#[derive(Drop)]
pub struct Head<'a> {
    pub(crate) bytes: &'a [u8],
}

impl<'a> Model for Head<'a> {
    ghost Value = { List ℕ };

    ghost view = { λ head. head.bytes.now };

    ghost invariant = { λ head. IsHead head.bytes.now };
}

impl<'a> Head<'a> {
    // The head that bytes are.
    pub fn of(bytes: &'a [u8]) -> Head<'a>
        requires { IsHead bytes.now }
        ensures { result ≡ bytes.now }
    {
        Head { bytes }
    }

    // Its bytes.
    pub fn bytes(&self) -> &'a [u8]
        ensures { (result.now ≡ self.now) × IsHead result.now }
    {
        self.bytes
    }

    // Is the shipment Waiting?
    #[tactic(auto, using(crate::proofs::HeadLaws::waiting_byte))]
    // Kept: 4c: memory that is not judged may hold any byte, which is no variant of an enum.
    pub fn is_waiting(&self) -> bool
        ensures { result ≡ is_waiting (stage_in self.now) }
    {
        self.bytes[STAGE] == 0
    }

    // Is the shipment Paired?
    #[tactic(auto, using(crate::proofs::HeadLaws::paired_byte))]
    // Kept: 4c: memory that is not judged may hold any byte, which is no variant of an enum.
    pub fn is_paired(&self) -> bool
        ensures { result ≡ is_paired (stage_in self.now) }
    {
        self.bytes[STAGE] == 1
    }

    // Are the bytes of stage and go-ahead in form?
    // Kept: 4c: memory that is not judged may hold any byte, which is no variant of an enum.
    pub fn has_flags_in_form(&self) -> bool
        ensures { result ≡ flags_in_form self.now }
    {
        self.bytes[STAGE] <= 2 && self.bytes[GO_AHEAD] <= 1
    }

    // Did a go-ahead come?
    // Kept: 4c: memory that is not judged may hold any byte, which is no variant of an enum.
    pub fn has_go_ahead(&self) -> bool
        ensures { result ≡ go_ahead_in self.now }
    {
        self.bytes[GO_AHEAD] == 1
    }

    // The flat part and the rate. What four bytes say is never above the cap of a sum.
    pub fn terms(&self) -> Terms
        ensures { result ≡ terms_in self.now }
    {
        Terms {
            flat: Fee::sum(read::<4>(self.bytes, FLAT)),
            rate: Rate(read::<2>(self.bytes, RATE)),
        }
    }

    // How many orders the shipment has.
    pub fn orders(&self) -> u64
        ensures { (result ≡ order_count_in self.now) × (result < 2 ^ 16) }
    {
        read::<2>(self.bytes, ORDERS)
    }

    // Are the transfers accepted and the surplus returned of a money sums?
    pub fn has_sums_in_range(&self, money: Money) -> bool
        ensures { result ≡ (is_sum (transfers_in money self.now) && is_sum (surplus_in money self.now)) }
    {
        let accepted = accepted_at(money);
        let returned = returned_at(money);
        Amount::is_sum(read::<8>(self.bytes, accepted))
            && Amount::is_sum(read::<8>(self.bytes, returned))
    }

    // The transfers accepted of a money.
    pub fn accepted(&self, money: Money) -> Sum
        requires { WithinSum (transfers_in money self.now) }
        ensures { result ≡ sum_of money (transfers_in money self.now) }
    {
        let at = accepted_at(money);
        Sum::of(money, read::<8>(self.bytes, at))
    }

    // The transfers accepted of K.
    pub fn amounts_accepted(&self) -> Amount
        requires { WithinSum (transfers_in K self.now) }
        ensures { result ≡ amount (transfers_in K self.now) }
    {
        Amount::sum(read::<8>(self.bytes, ACCEPTED_K))
    }

    // The transfers accepted of O.
    // Kept: 2a: amounts and fees are two types, which document 01 names, and each a line.
    pub fn fees_accepted(&self) -> Fee
        requires { WithinSum (transfers_in O self.now) }
        ensures { result ≡ fee (transfers_in O self.now) }
    {
        Fee::sum(read::<8>(self.bytes, ACCEPTED_O))
    }

    // The surplus returned of a money.
    // Kept: 2a: another field of the head, and two lines.
    pub fn returned(&self, money: Money) -> Sum
        requires { WithinSum (surplus_in money self.now) }
        ensures { result ≡ sum_of money (surplus_in money self.now) }
    {
        let at = returned_at(money);
        Sum::of(money, read::<8>(self.bytes, at))
    }
}

// Stores the bytes of a head as head i.
// Kept: 4b: it is `copy_from_slice`, to the place of a head.
pub fn store_head(memory: &mut [u8], i: usize, head: &[u8])
    requires { (i < most_shipments) × IsMemory memory.old × IsHead head.now }
    ensures { HeadStored head.now i memory.old memory.new }
{
    let at = HEADS + HEAD_SIZE * i;
    memory[at..at + HEAD_SIZE].copy_from_slice(head);
}

// Stores a stage in head i.
pub fn store_stage(memory: &mut [u8], i: usize, stage: Stage)
    requires { (i < most_shipments) × IsMemory memory.old }
    ensures { memory.new ≡ with_stage_at memory.old i stage }
{
    let at = HEADS + HEAD_SIZE * i;
    memory[at + STAGE] = stage as u8;
}

// Stores in head i that a go-ahead came.
pub fn store_go_ahead(memory: &mut [u8], i: usize)
    requires { (i < most_shipments) × IsMemory memory.old }
    ensures { memory.new ≡ with_go_ahead_at memory.old i }
{
    let at = HEADS + HEAD_SIZE * i;
    memory[at + GO_AHEAD] = 1;
}

// Stores the transfers accepted of a money in head i.
pub fn store_accepted(memory: &mut [u8], i: usize, sum: Sum)
    requires { (i < most_shipments) × IsMemory memory.old }
    ensures { memory.new ≡ with_transfers_at memory.old i (money_of_sum sum) (grosze_in sum) }
{
    let at = HEADS + HEAD_SIZE * i;
    let field = accepted_at(sum.money());
    store::<8>(memory, at + field, sum.grosze());
}

// Stores the surplus returned of a money in head i.
// Kept: 2a: another field of the head, and three lines.
pub fn store_returned(memory: &mut [u8], i: usize, sum: Sum)
    requires { (i < most_shipments) × IsMemory memory.old }
    ensures { memory.new ≡ with_surplus_at memory.old i (money_of_sum sum) (grosze_in sum) }
{
    let at = HEADS + HEAD_SIZE * i;
    let field = returned_at(sum.money());
    store::<8>(memory, at + field, sum.grosze());
}

// Where the transfers accepted of a money lie.
// Kept: 4c: where a field lies is a number of this crate alone.
fn accepted_at(money: Money) -> usize
    ensures { (result ≡ accepted_at money) × (result + 8 ≤ head_size) }
{
    // Kept: 7b: a match has both fields side by side.
    match money {
        Money::K => ACCEPTED_K,
        Money::O => ACCEPTED_O,
    }
}

// Where the surplus returned of a money lies.
// Kept: 2a, 4c: where a field lies is a number of this crate alone; one function for both fields would match on the field too.
fn returned_at(money: Money) -> usize
    ensures { (result ≡ returned_at money) × (result + 8 ≤ head_size) }
{
    // Kept: 7b: a match has both fields side by side.
    match money {
        Money::K => RETURNED_K,
        Money::O => RETURNED_O,
    }
}
