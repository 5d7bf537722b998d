// The least amount that an output with a script may hold and be no dust.
#![tactic(auto)]

ghost use Rattle.std.specs.Prelude.{◌≡◌, ◌≤◌, length};
ghost use Rattle.refusal.specs.Refusal.{limit};
ghost use Rattle.refusal.specs.Answer.{said};
ghost use Rattle.dust.specs.Dust.{get_size_of_compact_size, dust_size, fee_says, dust_says, custom_says};

use refusal::Refusal;

// Bytes of an output besides its script, and of the input that spends it: outpoint, lengths, signature and key, sequence, amount.
const SPEND_SIZE: usize = 32 + 4 + 1 + 107 + 4 + 8;

// The same where signature and key are witness bytes, which count a quarter.
const WITNESS_SPEND_SIZE: usize = 32 + 4 + 1 + 107 / 4 + 4 + 8;

// Satoshi for 1000 bytes, where the caller names no rate.
const DUST_RATE: u64 = 3000;

// How many bytes state the length n of a script in an output.
#[tactic(auto, unfolding(crate::specs::Dust::get_size_of_compact_size))]
fn compact_size(n: usize) -> usize
    ensures { (result ≡ get_size_of_compact_size n) × (result ≤ 5) }
{
    if n < 253 {
        1
    } else if n <= 65535 {
        3
    } else {
        5
    }
}

// How many bytes the dust rule charges: an output with the script and the input that spends it, nothing for OP_RETURN.
#[tactic(auto, unfolding(crate::specs::Dust::dust_size))]
fn dust_size(script: &[u8]) -> u64
    requires { length script.now ≤ limit }
    ensures { (result ≡ dust_size script.now) × (result ≤ 4194465) }
{
    if fixed::op_return(script) {
        return 0;
    }
    let n = script.len();
    let output = n + compact_size(n);
    if fixed::witness(script) {
        (output + WITNESS_SPEND_SIZE) as u64
    } else {
        (output + SPEND_SIZE) as u64
    }
}

// rate times size, divided by 1000 and rounded down. Refused with 9 where the product needs more than 64 bits.
#[tactic(auto, unfolding(crate::specs::Dust::fee_says))]
fn fee(rate: u64, size: u64) -> Result<u64, Refusal>
    ensures { said result ≡ fee_says rate size }
{
    if size == 0 {
        return Ok(0);
    }
    if u64::MAX / size < rate {
        return Err(Refusal::FeeTooLarge);
    }
    Ok(rate * size / 1000)
}

// The least amount that is no dust at 3000 satoshi for 1000 bytes. Refused with 1 for a script over the limit.
#[tactic(auto, unfolding(crate::specs::Dust::dust_says))]
pub fn minimal_non_dust(script: &[u8]) -> Result<u64, Refusal>
    ensures { said result ≡ dust_says script.now }
{
    refusal::check_limit(script)?;
    Ok(DUST_RATE * dust_size(script) / 1000)
}

// The least amount that is no dust at a rate in satoshi for 1000 weight units. Refused with 1 for a script over the limit, and with 9 where four
// times the rate, or that times the size, needs more than 64 bits.
#[tactic(auto, unfolding(crate::specs::Dust::custom_says))]
pub fn minimal_non_dust_custom(script: &[u8], rate: u64) -> Result<u64, Refusal>
    ensures { said result ≡ custom_says script.now rate }
{
    refusal::check_limit(script)?;
    if u64::MAX / 4 < rate {
        return Err(Refusal::FeeTooLarge);
    }
    fee(rate * 4, dust_size(script))
}
