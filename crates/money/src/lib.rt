// Money in whole grosze: amounts (K) and fees (O), two types with their caps, tests and constructors, which nothing adds to each other.
// The texts of an order's amount and of a sum.
#![tactic(auto)]

ghost use Rattle.std.specs.Prelude.{◌≡◌, ℕ, ◌&&◌, ◌+◌, ◌-◌, ◌^◌, ◌≤◌, eqb, refl, IfSome};
ghost use Rattle.money.specs.Money.{order_cap, sum_cap, total_cap, is_sum, sum_of, grosze_in, money_of_sum, as_transfer};
ghost use Rattle.money.specs.Money.{WithinOrder, WithinSum, WithinTotal, is_order, is_transfer, is_total};
ghost use Rattle.money.specs.Text.{no_leading_zero, text_of, order_text, sum_text};

use text::bytes::{byte_at, rest};
use text::number;

// The two moneys, by the letters of document 01: amounts and fees.
#[derive(Clone, Copy, PartialEq, Eq, Debug)]
pub enum Money {
    K,
    O,
}

// Grosze of amounts, K.
#[repr(C)]
#[derive(Clone, Copy, PartialEq, Eq, Debug)]
pub struct Amount(pub u64);

// Grosze of fees, O.
// Kept: 2c: "Amounts (K) and fees (O) are two moneys and never add": two tuple structs over u64.
#[repr(C)]
#[derive(Clone, Copy, PartialEq, Eq, Debug)]
pub struct Fee(pub u64);

// A sum of one money: code that serves both keeps them apart by it.
#[derive(Clone, Copy, PartialEq, Eq, Debug)]
pub enum Sum {
    Amounts(Amount),
    Fees(Fee),
}

// What both moneys have, each in its own type.
pub trait Grosze: Copy {
    ghost of: { ℕ → Self };

    ghost worth: { Self → ℕ };

    ghost LEAST: { ℕ };

    // The least that an order holds.
    const LEAST: u64;

    // So many grosze.
    fn from_grosze(grosze: u64) -> Self
        ensures { result ≡ of grosze };

    // Its grosze.
    fn grosze(self) -> u64
        ensures { result ≡ worth self };

    // The most that an order holds, by an amount's cap where a money says nothing else.
    fn order_cap() -> u64
        ensures { result ≡ order_cap }
    {
        Amount::ORDER_CAP
    }

    // The most that a sum comes to, likewise.
    fn sum_cap() -> u64
        ensures { result ≡ sum_cap }
    {
        Amount::SUM_CAP
    }

    // The most that a total of the balance sheet comes to, likewise.
    fn total_cap() -> u64
        ensures { result ≡ total_cap }
    {
        Amount::TOTAL_CAP
    }

    // The grosze as an order holds them, within the cap.
    fn order(grosze: u64) -> Self
        requires { WithinOrder grosze }
        ensures { result ≡ of grosze }
    {
        Self::from_grosze(grosze)
    }

    // The grosze as a sum, within its cap.
    fn sum(grosze: u64) -> Self
        requires { WithinSum grosze }
        ensures { result ≡ of grosze }
    {
        Self::from_grosze(grosze)
    }

    // The grosze as a total, within its cap.
    fn total(grosze: u64) -> Self
        requires { WithinTotal grosze }
        ensures { result ≡ of grosze }
    {
        Self::from_grosze(grosze)
    }

    // Can an order hold so many grosze?
    fn is_order(grosze: u64) -> bool
        ensures { result ≡ is_order LEAST grosze }
    {
        (Self::LEAST..=Self::order_cap()).contains(&grosze)
    }

    // Are the grosze a sum?
    fn is_sum(grosze: u64) -> bool
        ensures { result ≡ is_sum grosze }
    {
        grosze <= Self::sum_cap()
    }

    // Are the grosze a transfer?
    fn is_transfer(grosze: u64) -> bool
        ensures { result ≡ is_transfer grosze }
    {
        (1..=Self::sum_cap()).contains(&grosze)
    }

    // Are the grosze a total?
    fn is_total(grosze: u64) -> bool
        ensures { result ≡ is_total grosze }
    {
        grosze <= Self::total_cap()
    }

    // The grosze less others, none where the others are more.
    fn less(self, other: Self) -> Self
        ensures { result ≡ of (worth self - worth other) }
    {
        Self::from_grosze(self.grosze().saturating_sub(other.grosze()))
    }
}

// A money with its caps as constants.
pub trait Caps: Grosze {
    ghost ORDER_CAP: { ℕ } = { order_cap };

    ghost SUM_CAP: { ℕ } = { sum_cap };

    ghost TOTAL_CAP: { ℕ } = { total_cap };

    // The most that an order holds.
    const ORDER_CAP: u64;

    // The most that a sum comes to.
    const SUM_CAP: u64;

    // The most that a total of the balance sheet comes to.
    const TOTAL_CAP: u64;

    // "Both caps belong to the money": each money's are those of the definitions.
    ghost caps: { (ORDER_CAP ≡ order_cap) × (SUM_CAP ≡ sum_cap) × (TOTAL_CAP ≡ total_cap) };
}

impl Grosze for Amount {
    ghost use Rattle.money.specs.Money.{amount};

    ghost of = { amount };

    ghost worth = { λ amount. amount.0 };

    ghost LEAST = { 1 };

    const LEAST: u64 = 1;

    fn from_grosze(grosze: u64) -> Amount {
        Amount(grosze)
    }

    fn grosze(self) -> u64 {
        self.0
    }
}

impl Grosze for Fee {
    ghost use Rattle.money.specs.Money.{fee};

    ghost of = { fee };

    ghost worth = { λ fee. fee.0 };

    ghost LEAST = { 0 };

    // Kept: 2d: the trait asks each money for its own least.
    const LEAST: u64 = 0;

    fn order_cap() -> u64 {
        <Fee as Caps>::ORDER_CAP
    }

    fn sum_cap() -> u64 {
        <Fee as Caps>::SUM_CAP
    }

    fn total_cap() -> u64 {
        <Fee as Caps>::TOTAL_CAP
    }

    fn from_grosze(grosze: u64) -> Fee {
        Fee(grosze)
    }

    fn grosze(self) -> u64 {
        self.0
    }
}

impl Caps for Amount {
    ghost caps = { (refl, refl, refl) };

    const ORDER_CAP: u64 = Amount::ORDER_CAP;

    const SUM_CAP: u64 = Amount::SUM_CAP;

    const TOTAL_CAP: u64 = Amount::TOTAL_CAP;
}

impl Caps for Fee {
    ghost caps = { (refl, refl, refl) };

    // Kept: 2d: the trait asks each money for its own caps.
    const ORDER_CAP: u64 = Fee::ORDER_CAP;

    // Kept: 2d: the trait asks each money for its own caps.
    const SUM_CAP: u64 = Fee::SUM_CAP;

    // Kept: 2d: the trait asks each money for its own caps.
    const TOTAL_CAP: u64 = Fee::TOTAL_CAP;
}

impl Amount {
    // The most that an order holds.
    // Kept: 2d: the trait asks each money for its own caps, which are read without the trait too.
    pub const ORDER_CAP: u64 = 999_999_999;

    // The most that a sum comes to.
    // Kept: 2d: the trait asks each money for its own caps, which are read without the trait too.
    pub const SUM_CAP: u64 = 9_999_999_999_999;

    // The most that a total of the balance sheet comes to.
    // Kept: 2d: the trait asks each money for its own caps, which are read without the trait too.
    pub const TOTAL_CAP: u64 = 999_999_999_999_999;

    // What a text says as an order's amount.
    pub fn read_order(text: &[u8]) -> Option<Amount>
        ensures value { result ≡ order_text text.now }
        ensures at_most { IfSome result (λ amount. amount.0 ≤ order_cap) }
    {
        read(text, 7)
    }

    // What a text says as a sum.
    pub fn read_sum(text: &[u8]) -> Option<Amount>
        ensures value { result ≡ sum_text text.now }
        ensures at_most { IfSome result (λ amount. amount.0 ≤ sum_cap) }
    {
        read(text, 11)
    }
}

// A fee has the caps of an amount.
impl Fee {
    // Kept: 2d: "Both caps belong to the money": each of the two types has them as its own associated constants.
    pub const ORDER_CAP: u64 = Amount::ORDER_CAP;

    // Kept: 2d: "Both caps belong to the money": each of the two types has them as its own associated constants.
    pub const SUM_CAP: u64 = Amount::SUM_CAP;

    // Kept: 2d: "Both caps belong to the money": each of the two types has them as its own associated constants.
    pub const TOTAL_CAP: u64 = Amount::TOTAL_CAP;
}

impl Sum {
    // The grosze as a sum of a money, within its cap.
    #[tactic(auto, unfolding(crate::specs::Money::sum_of))]
    pub fn of(money: Money, grosze: u64) -> Sum
        requires { WithinSum grosze }
        ensures { result ≡ sum_of money grosze }
    {
        // Kept: 7a: each money is a type of its own, and a sum of one that is known only when it runs is made here alone.
        match money {
            Money::K => Sum::Amounts(Amount::sum(grosze)),
            Money::O => Sum::Fees(Fee::sum(grosze)),
        }
    }

    // The grosze as a transfer of a money, if they are one.
    #[tactic(auto, using(text::proofs::Branches::branches), unfolding(crate::specs::Money::as_transfer))]
    pub fn of_transfer(money: Money, grosze: u64) -> Option<Sum>
        ensures { result ≡ as_transfer money grosze }
    {
        if !Amount::is_transfer(grosze) {
            return None;
        }
        Some(Self::of(money, grosze))
    }

    // Its grosze.
    #[tactic(auto, unfolding(crate::specs::Money::grosze_in))]
    pub fn grosze(self) -> u64
        ensures { result ≡ grosze_in self }
    {
        // Kept: 7b: each money is a type of its own, and a sum of either is opened here alone.
        match self {
            Sum::Amounts(amount) => amount.0,
            Sum::Fees(fee) => fee.0,
        }
    }

    // Its money.
    #[tactic(auto, unfolding(crate::specs::Money::money_of_sum))]
    pub fn money(self) -> Money
        ensures { result ≡ money_of_sum self }
    {
        // Kept: 7b: which of the two types a sum is of is what a match says.
        match self {
            Sum::Amounts(_) => Money::K,
            Sum::Fees(_) => Money::O,
        }
    }
}

// What a text says as an amount, with at most so many digits before the point.
#[tactic(auto, using(crate::proofs::Reading::too_short, crate::proofs::Reading::not_shaped, crate::proofs::Reading::no_zlote, crate::proofs::Reading::no_grosze, crate::proofs::Reading::both_read, crate::proofs::Reading::hundred_more, text::proofs::Digits::tens_rise))]
fn read(text: &[u8], most: usize) -> Option<Amount>
    requires { most ≤ 11 }
    ensures value { result ≡ text_of most text.now }
    ensures at_most { IfSome result (λ amount. amount.0 ≤ 10 ^ (most + 2) - 1) }
{
    let (whole, behind) = text.split_at(text.len().checked_sub(3)?);
    if !is_shaped(behind[0], whole) {
        return None;
    }
    let zlote = number::read(whole, 1, most)?;
    let grosze = number::read(rest(behind, 1), 2, 2)?;
    Some(Amount(zlote * 100 + grosze))
}

// Is it a point, and the digits before it without a leading zero?
#[tactic(auto, using(text::proofs::Branches::branches))]
fn is_shaped(point: u8, zlote: &[u8]) -> bool
    ensures { result ≡ (eqb point 0x2E && no_leading_zero zlote.now) }
{
    point == b'.' && (zlote.len() == 1 || byte_at(zlote, 0) != b'0')
}
