// A witness version and program, written as the script that an output holds.
#![tactic(auto)]

ghost use Rattle.std.specs.Prelude.{◌≡◌, ◌++◌, ◌+◌, ◌≤◌, length, drop};
ghost use Rattle.laws.specs.Buffer.{after};
ghost use Rattle.refusal.specs.Answer.{said};
ghost use Rattle.witness.specs.Program.{version_byte, wrong_v0, witness_bytes, witness_says};

use opcodes::{OP_0, OP_PUSHNUM_1};
use refusal::Refusal;
use templates::PROGRAM_START;

const MAX_VERSION: u8 = 16;

const MIN_PROGRAM: usize = 2;

const MAX_PROGRAM: usize = 40;

const P2WPKH_PROGRAM: usize = 20;

const P2WSH_PROGRAM: usize = 32;

// The opcode that states a version: 0, or the number opcode.
fn version_byte(version: u8) -> u8
    requires { version ≤ 16 }
    ensures { result ≡ version_byte version }
{
    if version == 0 {
        OP_0
    } else {
        OP_PUSHNUM_1 - 1 + version
    }
}

// Whether version 0 forbids a program of this length.
fn is_wrong_v0(version: u8, len: usize) -> bool
    ensures { result ≡ wrong_v0 version len }
{
    if version == 0 {
        match len {
            P2WPKH_PROGRAM => false,
            P2WSH_PROGRAM => false,
            _ => true,
        }
    } else {
        false
    }
}

// The script's bytes, from the front of a buffer that has room for them.
#[tactic(auto, unfolding(crate::specs::Program::witness_bytes))]
fn write_program(version: u8, program: &[u8], out: &mut [u8])
    requires { (version ≤ 16) × (length program.now ≤ 40) × (length program.now + 2 ≤ length out.old) }
    ensures { out.new ≡ witness_bytes version program.now ++ drop (length program.now + 2) out.old }
{
    out[0] = version_byte(version);
    out[1] = program.len() as u8;
    copying::copy(program, &mut out[PROGRAM_START..]);
}

// Writes the script of a witness program to the front of a lent buffer and answers its length. Refused, with the buffer untouched: with 12 for a
// version above 16, with 10 for a program outside 2 to 40 bytes, with 11 for version 0 and neither 20 nor 32 bytes, with 7 for a short buffer.
#[tactic(auto, unfolding(crate::specs::Program::witness_says, crate::specs::Program::witness_bytes))]
pub fn witness_program(version: u8, program: &[u8], out: &mut [u8]) -> Result<usize, Refusal>
    ensures { (said result ≡ witness_says version program.now (length out.old)) × (out.new ≡ after (witness_says version program.now (length out.old)) (witness_bytes version program.now) out.old) }
{
    let n = program.len();
    if MAX_VERSION < version {
        return Err(Refusal::BadVersion);
    }
    if n < MIN_PROGRAM {
        return Err(Refusal::ProgramLength);
    }
    if MAX_PROGRAM < n {
        return Err(Refusal::ProgramLength);
    }
    if is_wrong_v0(version, n) {
        return Err(Refusal::ProgramLengthV0);
    }
    let needed = n + PROGRAM_START;
    if out.len() < needed {
        return Err(Refusal::NoRoom(needed));
    }
    write_program(version, program, out);
    Ok(needed)
}
