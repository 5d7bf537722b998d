// How many bytes each part of an instruction has, in the script and in the text.
ghost use Rattle.std.specs.Prelude.{◌≡◌, ◌+◌, ◌*◌, ◌≤◌, ◌<◌, ltb, eqb, length};
ghost use Rattle.std.specs.Prelude.{if◌then◌else◌};
ghost use Rattle.refusal.specs.Refusal.{limit};
ghost use Rattle.opcodes.specs.Opcode.{sort_of, length_bytes_after};
ghost use Rattle.opcodes.specs.Core.{OP_PUSHDATA1};
ghost use Rattle.asm.specs.Asm.{opcode_text, space_at};

use names::NameLengths;
use opcodes::Class;

// How many bytes OP_0 has.
const OP_0_LEN: usize = 4;

// How many length bytes follow an opcode.
pub fn length_bytes_after(code: u8) -> usize
    ensures { result ≡ length_bytes_after (sort_of code) }
{
    match opcodes::classify(code) {
        Class::Push(form) => opcodes::length_bytes(form),
        Class::PushNum | Class::Ordinary => 0,
    }
}

// The data's length: a direct push's opcode, else what the length bytes stated.
pub fn data_len(code: u8, stated: usize) -> usize
    ensures { result ≡ (if ltb code OP_PUSHDATA1 then code else stated) }
{
    if code < opcodes::OP_PUSHDATA1 {
        code as usize
    } else {
        stated
    }
}

// How many bytes stand between the instruction at `at` and the one before it.
#[tactic(auto, unfolding(asm::specs::Asm::space_at))]
pub(crate) fn space_len(at: usize) -> usize
    ensures { result ≡ length (space_at at) }
{
    if at == 0 { 0 } else { 1 }
}

// How many bytes an opcode is written in.
#[tactic(auto, unfolding(asm::specs::Asm::opcode_text))]
pub(crate) fn opcode_text_len(lengths: &NameLengths, code: u8) -> usize
    ensures { result ≡ length (opcode_text code) }
{
    if code == 0 {
        OP_0_LEN
    } else {
        lengths.len(code)
    }
}

// How many bytes so many bytes of data are written in, with the space before them; none for no data.
pub(crate) fn data_text_len(len: usize) -> usize
    requires { len ≤ limit }
    ensures { result ≡ (if eqb len 0 then 0 else 1 + 2 * len) }
{
    if len == 0 { 0 } else { 1 + 2 * len }
}
