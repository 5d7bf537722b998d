// The opcodes that calls choose by a number, by what is remembered, and by the bytes that are taken over.
ghost use Rattle.std.specs.Prelude.{◌≡◌};
ghost use Rattle.building.specs.Builder.{int_opcode, verify_form, last_if_opcode};

use opcodes::{OP_0, OP_PUSHNUM_1, OP_PUSHNUM_NEG1};
use walk::{Cursor, Instruction, Mode};

// The opcode that pushes n, where there is one: -1 to 16.
pub fn int_opcode(n: i64) -> Option<u8>
    ensures { result ≡ int_opcode n }
{
    match n {
        -1 => Some(OP_PUSHNUM_NEG1),
        0 => Some(OP_0),
        1..=16 => Some((n as u8) + (OP_PUSHNUM_1 - 1)),
        _ => None,
    }
}

// The opcode that does the same as the remembered one and then verifies, where there is one.
pub fn verify_form(remembered: Option<u8>) -> Option<u8>
    ensures { result ≡ verify_form remembered }
{
    opcodes::opcode_to_verify(remembered?)
}

// The last instruction of a script, if it is an opcode and the plain walk refuses nothing.
pub fn last_opcode(script: &[u8]) -> Option<u8>
    ensures { result ≡ last_if_opcode script.now }
{
    let mut c = Cursor::new();
    let mut last = None;
    loop {
        let stepped = c.next(script, Mode::Plain);
        c = stepped.next;
        match stepped.found {
            Err(_) => return None,
            Ok(None) => return last,
            Ok(Some(Instruction::Opcode { code, .. })) => last = Some(code),
            Ok(Some(Instruction::Push { .. })) => last = None,
        }
    }
}
