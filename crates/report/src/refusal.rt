// Why a report is not written, from document 02.
ghost use Rattle.std.specs.Prelude.{◌≡◌};
ghost use Rattle.report.specs.Refusal.{number_of};
ghost use Rattle.report.specs.declared.refusal.Refusal.TheVariants.{Unplaced};

// The question that is answered no: one by which a call finds its shipment, or one of the report's own.
#[derive(Clone, Copy, PartialEq, Eq, Debug)]
pub enum Refusal {
    // Book sound, and identifier in the book?
    Unplaced(acts::refusal::Refusal),

    // Each code and value there, and fit for its field?
    Unfit,

    // Lent output long enough?
    OutputTooShort,
}

impl From<acts::refusal::Refusal> for Refusal {
    ghost from_gives = { λ unplaced refusal. refusal ≡ Unplaced unplaced };

    fn from(unplaced: acts::refusal::Refusal) -> Refusal {
        Refusal::Unplaced(unplaced)
    }
}

impl From<Refusal> for u64 {
    ghost from_gives = { λ refusal number. number ≡ number_of refusal };

    // Kept: 4c: it is no enum of plain numbers, since a question by which the shipment is found brings its own.
    fn from(refusal: Refusal) -> u64 {
        match refusal {
            Refusal::Unplaced(unplaced) => u64::from(unplaced),
            Refusal::Unfit => 31,
            Refusal::OutputTooShort => 30,
        }
    }
}
