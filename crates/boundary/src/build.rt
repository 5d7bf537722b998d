// The builder: its state goes in as two numbers and comes back in the values.
#![tactic(auto, using(hand::proofs::Handing::builds_short), unfolding(hand::specs::Handed::unless_short))]

ghost use Rattle.std.specs.Prelude.{◌≡◌, [], ◌∷◌, pos, length};
ghost use Rattle.std.specs.Prelude.{None};
ghost use Rattle.laws.specs.Said.{answers};
ghost use Rattle.building.specs.Builder.{push_opcode, push_slice, push_int, push_verify, takes_over};
ghost use Rattle.building.specs.Lent.{calls, shown};
ghost use Rattle.hand.specs.Handed.{handed, says, gives, builds, unless_short, one, remembered_of};

use builder::Builder;
use hand::SHORT_VALUES;
use held::{STATE_VALUES, builder_of, built, remembered_as};

// An empty script, nothing remembered.
#[unsafe(no_mangle)]
pub extern "C" fn bb_builder_new(values: &mut [u64]) -> u32
    ensures { handed result values.new ≡ gives 2 (0 ∷ (256 ∷ [])) values.old }
{
    let builder = Builder::new();
    hand::two(builder.length, remembered_as(builder.remembered), values)
}

// A builder over the first bytes of a buffer.
#[unsafe(no_mangle)]
pub extern "C" fn bb_builder_start(buffer: &[u8], used: usize, values: &mut [u64]) -> u32
    ensures { handed result values.new ≡ builds (calls takes_over used None buffer.now) values.old }
{
    built(Builder::start(buffer, used), values)
}

// Appends an opcode byte.
#[unsafe(no_mangle)]
pub extern "C" fn bb_builder_push_opcode(
    used: usize,
    remembered: u32,
    buffer: &mut [u8],
    code: u8,
    values: &mut [u64],
) -> u32
    ensures { (handed result values.new ≡ builds (calls (push_opcode code) used (remembered_of remembered) buffer.old) values.old) × (buffer.new ≡ unless_short 3 (length values.old) (calls (push_opcode code) used (remembered_of remembered) buffer.old).buffer buffer.old) }
{
    if values.len() < STATE_VALUES {
        return SHORT_VALUES;
    }
    built(
        builder_of(used, remembered).push_opcode(buffer, code),
        values,
    )
}

// Appends a push of the body.
#[unsafe(no_mangle)]
pub extern "C" fn bb_builder_push_slice(
    used: usize,
    remembered: u32,
    buffer: &mut [u8],
    body: &[u8],
    values: &mut [u64],
) -> u32
    ensures { (handed result values.new ≡ builds (calls (push_slice body.now) used (remembered_of remembered) buffer.old) values.old) × (buffer.new ≡ unless_short 3 (length values.old) (calls (push_slice body.now) used (remembered_of remembered) buffer.old).buffer buffer.old) }
{
    if values.len() < STATE_VALUES {
        return SHORT_VALUES;
    }
    built(
        builder_of(used, remembered).push_slice(buffer, body),
        values,
    )
}

// Appends a number.
#[unsafe(no_mangle)]
pub extern "C" fn bb_builder_push_int(
    used: usize,
    remembered: u32,
    buffer: &mut [u8],
    n: i64,
    values: &mut [u64],
) -> u32
    ensures { (handed result values.new ≡ builds (calls (push_int n) used (remembered_of remembered) buffer.old) values.old) × (buffer.new ≡ unless_short 3 (length values.old) (calls (push_int n) used (remembered_of remembered) buffer.old).buffer buffer.old) }
{
    if values.len() < STATE_VALUES {
        return SHORT_VALUES;
    }
    built(builder_of(used, remembered).push_int(buffer, n), values)
}

// Appends an absolute lock time.
#[unsafe(no_mangle)]
pub extern "C" fn bb_builder_push_lock_time(
    used: usize,
    remembered: u32,
    buffer: &mut [u8],
    locktime: u32,
    values: &mut [u64],
) -> u32
    ensures { (handed result values.new ≡ builds (calls (push_int (pos locktime)) used (remembered_of remembered) buffer.old) values.old) × (buffer.new ≡ unless_short 3 (length values.old) (calls (push_int (pos locktime)) used (remembered_of remembered) buffer.old).buffer buffer.old) }
{
    if values.len() < STATE_VALUES {
        return SHORT_VALUES;
    }
    built(
        builder_of(used, remembered).push_lock_time(buffer, locktime),
        values,
    )
}

// Appends a sequence number.
#[unsafe(no_mangle)]
pub extern "C" fn bb_builder_push_sequence(
    used: usize,
    remembered: u32,
    buffer: &mut [u8],
    sequence: u32,
    values: &mut [u64],
) -> u32
    ensures { (handed result values.new ≡ builds (calls (push_int (pos sequence)) used (remembered_of remembered) buffer.old) values.old) × (buffer.new ≡ unless_short 3 (length values.old) (calls (push_int (pos sequence)) used (remembered_of remembered) buffer.old).buffer buffer.old) }
{
    if values.len() < STATE_VALUES {
        return SHORT_VALUES;
    }
    built(
        builder_of(used, remembered).push_sequence(buffer, sequence),
        values,
    )
}

// Verifies what the last opcode leaves.
#[unsafe(no_mangle)]
pub extern "C" fn bb_builder_push_verify(
    used: usize,
    remembered: u32,
    buffer: &mut [u8],
    values: &mut [u64],
) -> u32
    ensures { (handed result values.new ≡ builds (calls push_verify used (remembered_of remembered) buffer.old) values.old) × (buffer.new ≡ unless_short 3 (length values.old) (calls push_verify used (remembered_of remembered) buffer.old).buffer buffer.old) }
{
    if values.len() < STATE_VALUES {
        return SHORT_VALUES;
    }
    built(builder_of(used, remembered).push_verify(buffer), values)
}

// How many of the buffer's first bytes are the script.
#[unsafe(no_mangle)]
pub extern "C" fn bb_builder_as_bytes(
    used: usize,
    remembered: u32,
    buffer: &[u8],
    values: &mut [u64],
) -> u32
    ensures { handed result values.new ≡ says 1 one (answers (shown used (remembered_of remembered) buffer.now)) values.old }
{
    let bytes = builder_of(used, remembered).as_bytes(buffer);
    hand::over(Ok(bytes.len()), values)
}
