// Why an order file is not taken in.
ghost use Rattle.std.specs.Prelude.{◌≡◌};
ghost use Rattle.book.specs.Refusal.{number_of};
ghost use Rattle.book.specs.declared.refusal.IntakeRefusal.TheVariants.{File};

use epe::refusal::{Refusal, RefusedWith};

// The question that is answered no: one of the file's own, or one that it is asked beside the book, in document 01's order.
#[derive(Clone, Copy, PartialEq, Eq, Debug)]
pub enum IntakeRefusal {
    // A question of the profile or of the file.
    File(Refusal),

    // Lent book sound?
    Unreadable,

    // Identifier not yet in the book?
    Known,

    // Fewer than 32 shipments in the book?
    Shipments,

    // Its orders fit with those present in 2,048 rows?
    Rows,
}

impl From<Refusal> for IntakeRefusal {
    ghost from_gives = { λ refusal intake_refusal. intake_refusal ≡ File refusal };

    fn from(refusal: Refusal) -> IntakeRefusal {
        IntakeRefusal::File(refusal)
    }
}

impl<T: Copy> From<RefusedWith<T>> for IntakeRefusal {
    ghost from_gives = { λ refused intake_refusal. intake_refusal ≡ File refused.refusal };

    fn from(refused: RefusedWith<T>) -> IntakeRefusal {
        IntakeRefusal::File(refused.refusal)
    }
}

impl From<IntakeRefusal> for u64 {
    ghost from_gives = { λ refusal number. number ≡ number_of refusal };

    // Kept: 4c: it is no enum of plain numbers, since a question of the file brings its own.
    fn from(refusal: IntakeRefusal) -> u64 {
        match refusal {
            IntakeRefusal::File(refusal) => u64::from(refusal),
            IntakeRefusal::Unreadable => 900,
            IntakeRefusal::Known => 101,
            IntakeRefusal::Shipments => 903,
            IntakeRefusal::Rows => 904,
        }
    }
}
