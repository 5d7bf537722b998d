// A builder by numbers: two of them go in, and come back behind a call with a refusal's values.
#![tactic(auto)]

ghost use Rattle.std.specs.Prelude.{◌≡◌, List, [], ℕ, ◌+◌, length};
ghost use Rattle.refusal.specs.Answer.{said};
ghost use Rattle.builder.specs.Answer.{said_built};
ghost use Rattle.hand.specs.Handed.{handed, values_said, builds, remembered_of, remembered_as};

use builder::{Builder, Built};
use hand::SHORT_VALUES;
use refusal::Refusal;

// The least number of entries that a call takes: the state for the next call, and the one value that a builder's refusal has at most.
pub const STATE_VALUES: usize = 3;

// What is remembered where no opcode is, as C has it.
const NOTHING: u32 = 256;

// A builder from two numbers.
pub fn builder_of(used: usize, remembered: u32) -> Builder
    ensures { (result.length ≡ used) × (result.remembered ≡ remembered_of remembered) }
{
    let remembered = if remembered < NOTHING {
        Some(remembered as u8)
    } else {
        None
    };
    Builder {
        length: used,
        remembered,
    }
}

// What a builder remembers, as a number.
pub fn remembered_as(remembered: Option<u8>) -> usize
    ensures { result ≡ remembered_as remembered }
{
    remembered.map_or(NOTHING as usize, |code| code as usize)
}

// How many values an answer leaves: the two of the state, and a refusal's.
fn needed(answer: Result<(), Refusal>) -> usize
    ensures { result ≡ 2 + length (values_said (λ done. []) (said answer)) }
{
    match answer {
        Ok(()) => 2,
        Err(why) => 2 + why.value().len(),
    }
}

// A builder's answer: the state for the next call, and a refusal's values behind it.
#[tactic(auto, using(hand::proofs::Handing::builds_short, hand::proofs::Handing::builds_lacking, hand::proofs::Handing::builds_done))]
pub fn built(answer: Built, values: &mut [u64]) -> u32
    ensures { (buffer : List ℕ) → handed result values.new ≡ builds (said_built answer buffer) values.old }
{
    if values.len() < STATE_VALUES {
        return SHORT_VALUES;
    }
    if values.len() < needed(answer.answer) {
        return SHORT_VALUES;
    }
    let builder = answer.builder;
    values[0] = builder.length as u64;
    values[1] = remembered_as(builder.remembered) as u64;
    match answer.answer {
        Ok(()) => 0,
        Err(why) => hand::refusal(why, values, 2),
    }
}
