// Opcode bytes: what sort of instruction each starts, and what goes with it.
#![tactic(auto)]

ghost use Rattle.std.specs.Prelude.{◌≡◌};
ghost use Rattle.opcodes.specs.Opcode.{sort_of, length_bytes, said_class, said_form, pushnum_of, verify_of};

pub const OP_0: u8 = 0x00;

pub const OP_PUSHDATA1: u8 = 0x4c;

pub const OP_PUSHDATA2: u8 = 0x4d;

pub const OP_PUSHDATA4: u8 = 0x4e;

pub const OP_PUSHNUM_NEG1: u8 = 0x4f;

pub const OP_PUSHNUM_1: u8 = 0x51;

pub const OP_PUSHNUM_16: u8 = 0x60;

pub const OP_VERIFY: u8 = 0x69;

pub const OP_RETURN: u8 = 0x6a;

pub const OP_DUP: u8 = 0x76;

pub const OP_EQUAL: u8 = 0x87;

pub const OP_EQUALVERIFY: u8 = 0x88;

pub const OP_NUMEQUAL: u8 = 0x9c;

pub const OP_NUMEQUALVERIFY: u8 = 0x9d;

pub const OP_HASH160: u8 = 0xa9;

pub const OP_CHECKSIG: u8 = 0xac;

pub const OP_CHECKSIGVERIFY: u8 = 0xad;

pub const OP_CHECKMULTISIG: u8 = 0xae;

pub const OP_CHECKMULTISIGVERIFY: u8 = 0xaf;

pub const OP_INVALIDOPCODE: u8 = 0xff;

// How a push states the length of its body: in the opcode itself, or in 1, 2 or 4 length bytes after it.
#[derive(Clone, Copy, Debug, PartialEq, Eq)]
pub enum Form {
    Direct,
    PushData1,
    PushData2,
    PushData4,
}

// What sort of instruction an opcode byte starts.
#[derive(Clone, Copy, Debug, PartialEq, Eq)]
pub enum Class {
    Push(Form),
    PushNum,
    Ordinary,
}

// The class of an opcode byte.
pub fn classify(code: u8) -> Class
    ensures { said_class result ≡ sort_of code }
{
    match code {
        0..=75 => Class::Push(Form::Direct),
        OP_PUSHDATA1 => Class::Push(Form::PushData1),
        OP_PUSHDATA2 => Class::Push(Form::PushData2),
        OP_PUSHDATA4 => Class::Push(Form::PushData4),
        OP_PUSHNUM_1..=OP_PUSHNUM_16 => Class::PushNum,
        _ => Class::Ordinary,
    }
}

// How many length bytes a form has.
pub fn length_bytes(form: Form) -> usize
    ensures { result ≡ length_bytes (said_form form) }
{
    match form {
        Form::Direct => 0,
        Form::PushData1 => 1,
        Form::PushData2 => 2,
        Form::PushData4 => 4,
    }
}

// The number, 1 to 16, that a number opcode carries.
pub fn decode_pushnum(code: u8) -> Option<u8>
    ensures { result ≡ pushnum_of code }
{
    match code {
        OP_PUSHNUM_1..=OP_PUSHNUM_16 => Some(code - (OP_PUSHNUM_1 - 1)),
        _ => None,
    }
}

// The opcode that does the same and then verifies, where there is one.
pub fn opcode_to_verify(code: u8) -> Option<u8>
    ensures { result ≡ verify_of code }
{
    match code {
        OP_EQUAL => Some(OP_EQUALVERIFY),
        OP_NUMEQUAL => Some(OP_NUMEQUALVERIFY),
        OP_CHECKSIG => Some(OP_CHECKSIGVERIFY),
        OP_CHECKMULTISIG => Some(OP_CHECKMULTISIGVERIFY),
        _ => None,
    }
}
