// A run of digits as a number.
ghost use Rattle.std.specs.Prelude.{◌≡◌, ◌-◌, ◌^◌, ◌<◌, ◌≤◌, length, IfSome};
ghost use Rattle.std.specs.Bool.{then_some};
ghost use Rattle.text.specs.Bytes.{digit};
ghost use Rattle.text.specs.Number.{number_after, number};

// The number that a text of `least` to `most` digits writes.
#[tactic(auto, using(crate::proofs::Branches::branches, crate::proofs::Digits::below_larger, crate::proofs::Digits::tens_rise), unfolding(crate::specs::Number::number))]
pub fn read(s: &[u8], least: usize, most: usize) -> Option<u64>
    ensures value { result ≡ number least most s.now }
    ensures below { IfSome result (λ n. n < 10 ^ most) }
{
    if s.len() < least {
        return None;
    }
    if most < s.len() {
        return None;
    }
    if 18 < s.len() {
        return None;
    }
    digits(s)
}

// The number that at most 18 digits write.

fn digits(s: &[u8]) -> Option<u64>
    requires { length s.now ≤ 18 }
    ensures value { result ≡ number_after 0 s.now }
    ensures below { IfSome result (λ n. n < 10 ^ length s.now) }
{
    let mut n = 0;
    for b in s {
        n = n * 10 + value_of(*b)?;
    }
    Some(n)
}

// The value of a digit.
#[tactic(auto, unfolding(crate::specs::Bytes::digit))]
fn value_of(b: u8) -> Option<u64>
    ensures { result ≡ then_some (digit b) (b - 0x30) }
{
    b.is_ascii_digit().then(|| u64::from(b - b'0'))
}
