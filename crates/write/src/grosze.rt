// Money in its one spelling: zlote, a point and two digits of grosze.
ghost use Rattle.std.specs.Prelude.{◌≡◌, []};
ghost use Rattle.epe.specs.Numbered.{numbered};
ghost use Rattle.write.specs.Money.{money_text};
ghost use Rattle.write.specs.TooShort.{number_of};
ghost use Rattle.write.specs.Writer.{HasRoom, Writes};
ghost use Rattle.write.specs.Written.{written_after};

use crate::too_short::TooShort;
use crate::{Writer, places_of};

// Writes grosze at the start of an output.
#[tactic(auto, using(crate::proofs::Answers::alone, crate::proofs::MoneySpelled::money_long))]
pub fn write_money(grosze: u64, output: &mut [u8]) -> Result<u64, TooShort>
    ensures { record { answer = numbered number_of result; output = output.new } ≡ written_after [] (money_text grosze) output.old }
{
    let length = places_of(grosze / 100) + 3;
    if output.len() < length {
        return Err(TooShort);
    }
    put_money(&mut Writer::new(output), grosze);
    Ok(length as u64)
}

// Puts grosze.
#[tactic(auto, using(crate::proofs::Pieces::pieces), unfolding(crate::specs::Money::money_text))]
fn put_money(output: &mut Writer, grosze: u64)
    requires { HasRoom (money_text grosze) output.old }
    ensures { Writes (money_text grosze) output.old output.new }
{
    output.put_number(grosze / 100);
    output.put_byte(b'.');
    output.put_digits(2, grosze);
}
