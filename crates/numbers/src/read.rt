// Numbers read, strictly or not, and bytes read as yes or no.
ghost use Rattle.std.specs.Prelude.{◌≡◌, true, false, ◌&&◌, ◌<◌, ◌≤◌, ◌^◌, pos, neg_ℤ, length};
ghost use Rattle.std.specs.Prelude.{if◌then◌else◌};
ghost use Rattle.numbers.specs.ScriptNum.{set_vch, non_minimal, script_num, cast_to_bool, n_default_max_num_size};
ghost use Rattle.numbers.specs.Answer.{bool_says};
ghost use Rattle.refusal.specs.Answer.{said};

use crate::SIGN_BIT;
use refusal::Refusal;

// How many bytes a number to be read has at most.
const MAX_NUM_SIZE: usize = 4;

// The number of size m with this sign.
fn with_sign(negative: bool, m: u64) -> i64
    requires { m < 2 ^ 63 }
    ensures { result ≡ (if negative then neg_ℤ (pos m) else pos m) }
{
    if negative { -(m as i64) } else { m as i64 }
}

// Whether fewer bytes than v would say the same number.
#[tactic(auto, unfolding(crate::specs::ScriptNum::non_minimal))]
fn non_minimal(v: &[u8]) -> bool
    ensures { result ≡ non_minimal v.now }
{
    match v {
        [] => false,
        [last] => *last % SIGN_BIT == 0,
        [.., before, last] => *last % SIGN_BIT == 0 && *before < SIGN_BIT,
    }
}

// Whether the reader refuses the form of v: a strict one wants the fewest bytes.
fn refuses_form(v: &[u8], strict: bool) -> bool
    ensures { result ≡ (strict && non_minimal v.now) }
{
    strict && non_minimal(v)
}

// The number that v says, from its last byte down.
fn scriptint_parse(v: &[u8]) -> i64
    requires { length v.now ≤ 8 }
    ensures { result ≡ set_vch v.now }
{
    let [front @ .., last] = v else {
        return 0;
    };
    let mut m = u64::from(*last % SIGN_BIT);
    for b in front.iter().rev() {
        m = m * 256 + u64::from(*b);
    }
    with_sign(SIGN_BIT <= *last, m)
}

// Reads a number of at most k bytes.
#[tactic(auto, unfolding(crate::specs::ScriptNum::script_num))]
fn read_number(v: &[u8], k: usize, strict: bool) -> Result<i64, Refusal>
    requires { k ≤ 8 }
    ensures { said result ≡ script_num k strict v.now }
{
    if k < v.len() {
        return Err(Refusal::NumberTooLong);
    }
    if refuses_form(v, strict) {
        return Err(Refusal::NumberNotMinimal);
    }
    Ok(scriptint_parse(v))
}

// The number that v says; refuses more than 4 bytes, and bytes that the writer would not write.
pub fn read_scriptint(v: &[u8]) -> Result<i64, Refusal>
    ensures { said result ≡ script_num n_default_max_num_size true v.now }
{
    read_number(v, MAX_NUM_SIZE, true)
}

// The number that v says; refuses only more than 4 bytes.
pub fn read_scriptint_non_minimal(v: &[u8]) -> Result<i64, Refusal>
    ensures { said result ≡ script_num n_default_max_num_size false v.now }
{
    read_number(v, MAX_NUM_SIZE, false)
}

// Whether v says a number other than 0.
#[tactic(auto, using(crate::proofs::First::of_none))]
fn cast_to_bool(v: &[u8]) -> bool
    ensures { result ≡ cast_to_bool v.now }
{
    match v {
        [] => false,
        [front @ .., last] => front.iter().any(|b| *b != 0) || *last != 0 && *last != SIGN_BIT,
    }
}

// False for bytes that are all 0, with or without the sign in the last, else true; refuses more than MAX_SCRIPT bytes.
#[tactic(auto, unfolding(crate::specs::Answer::bool_says))]
pub fn read_scriptbool(v: &[u8]) -> Result<bool, Refusal>
    ensures { said result ≡ bool_says v.now }
{
    refusal::check_limit(v)?;
    Ok(cast_to_bool(v))
}
