// An answer in three numbers.
ghost use Rattle.std.specs.Prelude.{◌≡◌};
ghost use Rattle.book.specs.Reply.{done_with, short_by, refused_with, Tells};

use acts::answer::{Pairing, Returned};
use contents::judge::Accepted;
use money::{Amount, Fee};

// 0 done, 1 short or 2 refused, and what the answer says.
// Kept: 1d, 6d: across the C interface an answer is these three numbers.
#[repr(C)]
#[derive(Clone, Copy, PartialEq, Eq, Debug)]
pub struct Reply {
    pub status: u64,
    pub first: u64,
    pub second: u64,
}

// What a call that is not refused answers.
pub trait Told {
    ghost use Rattle.book.specs.declared.reply.Reply.{Reply};

    ghost reply: { Self → Reply };

    // What it says, in three numbers.
    fn told(self) -> Reply
        ensures { result ≡ reply self };
}

impl Told for () {
    ghost reply = { λ nothing. done_with 0 0 };

    fn told(self) -> Reply {
        done(0, 0)
    }
}

impl Told for u64 {
    ghost reply = { λ number. done_with number 0 };

    fn told(self) -> Reply {
        done(self, 0)
    }
}

impl Told for Accepted {
    ghost reply = { λ accepted. done_with accepted.orders accepted.faulty };

    fn told(self) -> Reply {
        done(self.orders, self.faulty)
    }
}

impl Told for Fee {
    ghost reply = { λ fee. done_with fee.0 0 };

    fn told(self) -> Reply {
        done(self.0, 0)
    }
}

impl Told for Amount {
    ghost reply = { λ amount. done_with amount.0 0 };

    fn told(self) -> Reply {
        done(self.0, 0)
    }
}

impl Told for Returned {
    ghost use Rattle.money.specs.Money.{grosze_in};

    ghost reply = { λ returned. done_with (grosze_in returned.sum) returned.count };

    fn told(self) -> Reply {
        done(self.sum.grosze(), self.count)
    }
}

impl Told for Pairing {
    ghost use Rattle.acts.specs.Answers.{pairing_of};
    ghost use Rattle.book.specs.Reply.{reply_of};

    ghost reply = { λ pairing. reply_of (pairing_of pairing) };

    // Kept: 1e: document 01 has a pairing in these three forms, and each says something else.
    fn told(self) -> Reply {
        match self {
            Pairing::Paired => done(0, 0),
            Pairing::Short(amount, fee) => short(amount.0, fee.0),
            Pairing::Refused(number) => refused(number),
        }
    }
}

// What a call says: what it answers, or the number of its refusal.
pub fn tell<T: Told, R>(answer: Result<T, R>) -> Reply
where
    u64: From<R>,
    ensures { Tells T.reply ⟦<u64 as From<R>>⟧.from_gives answer result }
{
    // Kept: 7a: `map_or_else` with two closures is no plainer.
    match answer {
        Ok(accepted) => accepted.told(),
        Err(refusal) => refused(u64::from(refusal)),
    }
}

// Done, and what the answer says.
// Kept: 2c: an answer has one of three statuses, and each of these three functions makes one.
pub fn done(first: u64, second: u64) -> Reply
    ensures { result ≡ done_with first second }
{
    Reply {
        status: 0,
        first,
        second,
    }
}

// Refused, with the number of the question.
// Kept: 1d, 2c: across the C interface a refusal is the number of its question.
pub fn refused(number: u64) -> Reply
    ensures { result ≡ refused_with number }
{
    Reply {
        status: 2,
        first: number,
        second: 0,
    }
}

// Short by an amount and a fee.
// Kept: 2c: an answer has one of three statuses, and each of these three functions makes one.
fn short(amount: u64, fee: u64) -> Reply
    ensures { result ≡ short_by amount fee }
{
    Reply {
        status: 1,
        first: amount,
        second: fee,
    }
}
