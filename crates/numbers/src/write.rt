// How many bytes a number takes, and its bytes written into a lent buffer.
ghost use Rattle.std.specs.Prelude.{◌≡◌, false, ℤ, nat_abs, length};
ghost use Rattle.std.specs.Prelude.{if◌then◌else◌};
ghost use Rattle.laws.specs.Buffer.{after};
ghost use Rattle.refusal.specs.Answer.{said};
ghost use Rattle.numbers.specs.ScriptNum.{serialize};
ghost use Rattle.numbers.specs.Answer.{is_least, len_says, write_says};

use crate::SIGN_BIT;
use refusal::Refusal;

// The sign as it stands in the last byte.
fn sign_bit(negative: bool) -> u8
    ensures { result ≡ (if negative then 0x80 else 0) }
{
    if negative { SIGN_BIT } else { 0 }
}

// How many bytes a number of size m takes, with either sign: none for 0, else its bits and one for the sign, rounded up to whole bytes.
#[tactic(auto, using(crate::proofs::Written::serialize_count, crate::proofs::Written::serialize_empty))]
fn byte_count(m: u64) -> usize
    ensures { (n : ℤ) → nat_abs n ≡ m → result ≡ length (serialize n) }
{
    if m == 0 {
        return 0;
    }
    let bits = u64::BITS - m.leading_zeros();
    (bits / 8 + 1) as usize
}

// How many bytes `write_scriptint` needs for n; -2^63 is refused.
#[tactic(auto, unfolding(crate::specs::Answer::len_says))]
pub fn scriptint_len(n: i64) -> Result<usize, Refusal>
    ensures { said result ≡ len_says n }
{
    if n == i64::MIN {
        return Err(Refusal::NumberOutOfRange);
    }
    Ok(byte_count(n.unsigned_abs()))
}

// Writes n over the whole of out, which is as long as n needs, low byte first and the sign in the last.
fn put(n: i64, out: &mut [u8])
    requires { (is_least n ≡ false) × (length out.old ≡ length (serialize n)) }
    ensures { out.new ≡ serialize n }
{
    let Some((last, low)) = out.split_last_mut() else {
        return;
    };
    let mut rest = n.unsigned_abs();
    for b in low {
        *b = (rest % 256) as u8;
        rest /= 256;
    }
    *last = rest as u8 + sign_bit(n < 0);
}

// Writes n at the front of out and answers the count of bytes; refuses -2^63, and an out that is too short.
#[tactic(auto, unfolding(crate::specs::Answer::len_says, crate::specs::Answer::write_says))]
pub fn write_scriptint(n: i64, out: &mut [u8]) -> Result<usize, Refusal>
    ensures answer { said result ≡ write_says n (length out.old) }
    ensures left { out.new ≡ after (write_says n (length out.old)) (serialize n) out.old }
{
    let count = scriptint_len(n)?;
    if out.len() < count {
        return Err(Refusal::NoRoom(count));
    }
    put(n, &mut out[..count]);
    Ok(count)
}
