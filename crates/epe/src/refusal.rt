// Why an order file is refused.
ghost use Rattle.std.specs.Prelude.{◌≡◌};
ghost use Rattle.epe.specs.Questions.{verdict_of, verdict_beside, read_of};
ghost use Rattle.epe.specs.Refusal.{number_of};

// The question that is answered no, with its number. They stand in the order in which an intake asks them.
#[derive(Clone, Copy, PartialEq, Eq, Debug)]
pub enum Refusal {
    // Profile within the ranges above?
    Profile = 905,

    // Each of the profile's rates at most 10,000?
    Rates = 907,

    // File longer than 0 bytes?
    FileEmpty = 1,

    // Byte mark present, the rest well-formed UTF-8?
    FileText = 34,

    // Name has exactly three hyphens?
    NameHyphens = 3,

    // Name starts EPE?
    NameEpe = 7,

    // Then Z?
    NameZ = 10,

    // Rest of its first part an identifier?
    NameIdentifier = 13,

    // Second part six digits, a real date 20yymmdd?
    NameDate = 16,

    // Third part A or B?
    NamePayment = 19,

    // Fourth part one digit 0 to 4?
    NameKind = 22,

    // Header has 12 fields, no stray CR or LF?
    HeaderShape = 4,

    // Field 1 is `1`?
    HeaderMark = 5,

    // Field 2 is `ZUS`?
    HeaderSender = 11,

    // Field 3 is `EPE`?
    HeaderFileCode = 8,

    // Field 4 is `1.0`?
    HeaderEdition = 99,

    // Field 5 equals the name's identifier?
    HeaderIdentifier = 14,

    // Field 8 equals `20` + the name's date?
    HeaderDate = 17,

    // Field 9 as in the name?
    HeaderPayment = 20,

    // Field 10 as in the name?
    HeaderKind = 23,

    // Field 7 not empty?
    CreatedEmpty = 102,

    // Field 7 a real date, hour 00-23, minute and second 00-59, from 60 days before to 10 days after today?
    Created = 103,

    // Field 6 not empty?
    UnitEmpty = 120,

    // Field 6 six letters or digits?
    Unit = 121,

    // Field 8 within 30 days of today on either side?
    BenefitDate = 125,

    // Field 11 is 1 to 6 digits?
    Count = 126,

    // At least 1?
    CountZero = 127,

    // Field 12 reads as a sum?
    Sum = 130,

    // Above zero?
    SumZero = 131,

    // Every record line has R fields, no stray CR or LF, first field `2`, second 1 to 6 digits whose value counts 1, 2, 3 ..?
    RecordShape = 901,

    // Every field 3 reads as an amount, above zero?
    RecordAmount = 902,

    // Number of record lines equals field 11?
    RecordCount = 129,

    // Amounts add up to field 12?
    RecordSum = 132,

    // Every order's fee at most 999,999,999?
    RecordFee = 906,
}

// A refusal, and what was read all the same.
#[derive(Clone, Copy, PartialEq, Eq, Debug)]
pub struct RefusedWith<T> {
    pub refusal: Refusal,
    pub read: T,
}

// What was read where some questions came to this: beside the refusal, if there is one.
pub fn read_beside<T>(read: T, judged: Result<(), Refusal>) -> Result<T, RefusedWith<T>>
    ensures verdict { verdict_beside result ≡ verdict_of judged }
    ensures read { read_of result ≡ read }
{
    match judged {
        Ok(()) => Ok(read),
        Err(refusal) => Err(RefusedWith { refusal, read }),
    }
}

impl From<Refusal> for u64 {
    ghost from_gives = { λ refusal number. number ≡ number_of refusal };

    // Kept: 4d: what is cast is an enum, whose number nothing else gives.
    fn from(refusal: Refusal) -> u64 {
        refusal as u64
    }
}
