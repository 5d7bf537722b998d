// The refusals of document 01 as document 02 amends them: the errors that the entries answer.
#![tactic(auto)]

ghost use Rattle.std.specs.Prelude.{◌≡◌, ◌≤◌, ◌<◌, length, OnOk, IfErr};
ghost use Rattle.refusal.specs.declared.Refusal.TheVariants.{TooLong};
ghost use Rattle.refusal.specs.Refusal.{number_of, values_of, limit};
ghost use Rattle.refusal.specs.Answer.{said_value};

// One variant for each line of document 01's table as document 02 amends it, holding that line's values. Number 3 is retired: 14 and 15 are in its place.
#[derive(Clone, Copy, Debug, PartialEq, Eq)]
pub enum Refusal {
    // 1: an input or a built script is longer than MAX_SCRIPT bytes.
    TooLong,
    // 2: minimal mode, and the push that starts at this place has a shorter form.
    NonMinimal(usize),
    // 4: a number to be read has too many bytes.
    NumberTooLong,
    // 5: the strict reader was given bytes that the writer would not write.
    NumberNotMinimal,
    // 6: -2^63 has no script number here.
    NumberOutOfRange,
    // 7: the lent output is shorter than this many bytes or entries.
    NoRoom(usize),
    // 8: the cursor stands past the script's end.
    BadCursor,
    // 9: the fee needs more than 64 bits.
    FeeTooLarge,
    // 10: a witness program has from 2 to 40 bytes.
    ProgramLength,
    // 11: a witness program of version 0 has 20 or 32 bytes.
    ProgramLengthV0,
    // 12: a witness version is at most 16.
    BadVersion,
    // 13: the builder does not fit its buffer.
    BadBuilder,
    // 14: the push that starts at this place lacks this many of its length bytes.
    LengthCut(usize, usize),
    // 15: the push that starts at this place lacks this many bytes of its body.
    BodyCut(usize, usize),
}

// What stands beside a refusal's number: one value, two, or nothing. An own enum, since no library type has these three shapes and takes no memory.
#[derive(Clone, Copy, Debug, PartialEq, Eq)]
pub enum Value {
    Is(usize),
    Both(usize, usize),
    Nothing,
}

// The longest script that is taken, in bytes.
pub const MAX_SCRIPT: usize = 4_194_304;

// Refuses bytes over the limit, with 1.
pub fn check_limit(bytes: &[u8]) -> Result<(), Refusal>
    ensures within { OnOk result (length bytes.now ≤ limit) }
    ensures over { IfErr result (λ why. (why ≡ TooLong) × (limit < length bytes.now)) }
{
    if MAX_SCRIPT < bytes.len() {
        return Err(Refusal::TooLong);
    }
    Ok(())
}

impl Refusal {
    // The refusal's number.
    pub fn number(self) -> u32
        ensures { result ≡ number_of self }
    {
        match self {
            Refusal::TooLong => 1,
            Refusal::NonMinimal(_) => 2,
            Refusal::NumberTooLong => 4,
            Refusal::NumberNotMinimal => 5,
            Refusal::NumberOutOfRange => 6,
            Refusal::NoRoom(_) => 7,
            Refusal::BadCursor => 8,
            Refusal::FeeTooLarge => 9,
            Refusal::ProgramLength => 10,
            Refusal::ProgramLengthV0 => 11,
            Refusal::BadVersion => 12,
            Refusal::BadBuilder => 13,
            Refusal::LengthCut(_, _) => 14,
            Refusal::BodyCut(_, _) => 15,
        }
    }

    // What stands beside the number: a place, what is needed, a place and what is missing, or nothing.
    pub fn value(self) -> Value
        ensures { said_value result ≡ values_of self }
    {
        match self {
            Refusal::NonMinimal(value) | Refusal::NoRoom(value) => Value::Is(value),
            Refusal::LengthCut(place, missing) | Refusal::BodyCut(place, missing) => {
                Value::Both(place, missing)
            }
            _ => Value::Nothing,
        }
    }
}

impl Value {
    // How many values these are.
    pub fn len(self) -> usize
        ensures { result ≡ length (said_value self) }
    {
        match self {
            Value::Is(_) => 1,
            Value::Both(_, _) => 2,
            Value::Nothing => 0,
        }
    }
}
