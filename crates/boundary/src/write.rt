// What is written into a lent buffer.
#![tactic(auto, using(hand::proofs::Handing::says_short), unfolding(hand::specs::Handed::unless_short))]

ghost use Rattle.std.specs.Prelude.{◌≡◌, length};
ghost use Rattle.laws.specs.Buffer.{writes, after};
ghost use Rattle.pool.specs.Names.{name_of};
ghost use Rattle.numbers.specs.ScriptNum.{serialize};
ghost use Rattle.numbers.specs.Answer.{write_says};
ghost use Rattle.fixed.specs.Fixed.{script_code};
ghost use Rattle.templates.specs.Says.{code_says};
ghost use Rattle.asm.specs.Asm.{text_of, asm_says};
ghost use Rattle.witness.specs.Program.{witness_bytes, witness_says};
ghost use Rattle.screen.specs.Screen.{screen_of, inspect_says};
ghost use Rattle.hand.specs.Handed.{handed, says, unless_short, one, maybe};

use hand::SHORT_VALUES;

// The name of an opcode.
#[unsafe(no_mangle)]
pub extern "C" fn bb_write_name(code: u8, out: &mut [u8], values: &mut [u64]) -> u32
    ensures { (handed result values.new ≡ says 1 one (writes (name_of code) (length out.old)) values.old) × (out.new ≡ unless_short 1 (length values.old) (after (writes (name_of code) (length out.old)) (name_of code) out.old) out.old) }
{
    if values.len() < 1 {
        return SHORT_VALUES;
    }
    hand::over(names::write_name(code, out), values)
}

// A number in the fewest bytes.
#[unsafe(no_mangle)]
pub extern "C" fn bb_write_scriptint(n: i64, out: &mut [u8], values: &mut [u64]) -> u32
    ensures { (handed result values.new ≡ says 1 one (write_says n (length out.old)) values.old) × (out.new ≡ unless_short 1 (length values.old) (after (write_says n (length out.old)) (serialize n) out.old) out.old) }
{
    if values.len() < 1 {
        return SHORT_VALUES;
    }
    hand::over(numbers::write_scriptint(n, out), values)
}

// The script code of a P2WPKH script.
#[unsafe(no_mangle)]
pub extern "C" fn bb_p2wpkh_script_code(script: &[u8], out: &mut [u8], values: &mut [u64]) -> u32
    ensures { (handed result values.new ≡ says 2 (maybe one) (code_says script.now (length out.old)) values.old) × (out.new ≡ unless_short 2 (length values.old) (after (code_says script.now (length out.old)) (script_code script.now) out.old) out.old) }
{
    if values.len() < 2 {
        return SHORT_VALUES;
    }
    hand::over(templates::p2wpkh_script_code(script, out), values)
}

// The asm text.
#[unsafe(no_mangle)]
pub extern "C" fn bb_write_asm(script: &[u8], out: &mut [u8], values: &mut [u64]) -> u32
    ensures { (handed result values.new ≡ says 1 one (asm_says script.now (length out.old)) values.old) × (out.new ≡ unless_short 1 (length values.old) (after (asm_says script.now (length out.old)) (text_of script.now) out.old) out.old) }
{
    if values.len() < 1 {
        return SHORT_VALUES;
    }
    hand::over(text::write_asm(script, out), values)
}

// The script of a witness version and program.
#[unsafe(no_mangle)]
pub extern "C" fn bb_witness_program(
    version: u8,
    program: &[u8],
    out: &mut [u8],
    values: &mut [u64],
) -> u32
    ensures { (handed result values.new ≡ says 1 one (witness_says version program.now (length out.old)) values.old) × (out.new ≡ unless_short 1 (length values.old) (after (witness_says version program.now (length out.old)) (witness_bytes version program.now) out.old) out.old) }
{
    if values.len() < 1 {
        return SHORT_VALUES;
    }
    hand::over(witness::witness_program(version, program, out), values)
}

// The inspector's screen.
#[unsafe(no_mangle)]
pub extern "C" fn bb_inspect(script: &[u8], out: &mut [u8], values: &mut [u64]) -> u32
    ensures { (handed result values.new ≡ says 1 one (inspect_says script.now (length out.old)) values.old) × (out.new ≡ unless_short 1 (length values.old) (after (inspect_says script.now (length out.old)) (screen_of script.now) out.old) out.old) }
{
    if values.len() < 1 {
        return SHORT_VALUES;
    }
    hand::over(inspect::inspect(script, out), values)
}
