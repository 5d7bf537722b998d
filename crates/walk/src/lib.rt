// The walk over a script: one instruction at a time, each call given the cursor that the one before gave back.
#![tactic(auto)]

mod lent;
mod part;
mod push;

ghost use Rattle.std.specs.Prelude.{◌≡◌, ◌+◌, ◌<◌};
ghost use Rattle.refusal.specs.Refusal.{limit};
ghost use Rattle.script.specs.Walk.{walk_says, next_at, size_said, size_says};
ghost use Rattle.refusal.specs.Answer.{said};
ghost use Rattle.walk.specs.Answer.{said_found, is_minimal};

pub use lent::advance;
use opcodes::{Class, Form};
pub use part::body;
use push::push_at;
use refusal::Refusal;

// Plain takes every whole push; Minimal refuses a push that has a shorter form.
#[derive(Clone, Copy, Debug, PartialEq, Eq)]
pub enum Mode {
    Plain,
    Minimal,
}

// A place in a script, counted in bytes from its front.
#[derive(Clone, Copy, Debug, PartialEq, Eq)]
pub struct Cursor {
    pub at: usize,
}

// An instruction of a script.
#[derive(Clone, Copy, Debug, PartialEq, Eq)]
pub enum Instruction {
    // An opcode that pushes no bytes of the script.
    Opcode {
        place: usize,
        code: u8,
    },
    // A push: where it starts, how it states its length, and where its body lies.
    Push {
        place: usize,
        form: Form,
        body: usize,
        len: usize,
    },
}

// What stands at a cursor: an instruction, or nothing where no byte remains.
pub type Found = Result<Option<Instruction>, Refusal>;

// What stands at a cursor, and the cursor for the next call, which document 01 has with a refusal too, so that this is no Result.
#[derive(Clone, Copy, Debug, PartialEq, Eq)]
pub struct Stepped {
    pub found: Found,
    pub next: Cursor,
}

impl Cursor {
    // The front of a script.
    pub fn new() -> Cursor
        ensures { result.at ≡ 0 }
    {
        Cursor { at: 0 }
    }

    // The size of the instruction at the cursor, in bytes; 0 at the end. Refused as `next` is.
    pub fn size(self, script: &[u8], mode: Mode) -> Result<usize, Refusal>
        ensures { said result ≡ size_says (is_minimal mode) script.now self.at }
    {
        match self.next(script, mode).found? {
            None => Ok(0),
            Some(Instruction::Opcode { .. }) => Ok(1),
            Some(Instruction::Push { form, len, .. }) => Ok(1 + opcodes::length_bytes(form) + len),
        }
    }

    // What stands at the cursor, and the cursor for the next call. Refused with 1 for a script over the limit and with 8 for a cursor past
    // its end, the cursor unchanged; with 2, 14 or 15 where no instruction that the mode takes stands whole there, the cursor then at the end.
    #[inline]
    pub fn next(self, script: &[u8], mode: Mode) -> Stepped
        ensures { (said_found result.found ≡ walk_says (is_minimal mode) script.now self.at) × (result.next.at ≡ next_at (is_minimal mode) script.now self.at) }
    {
        let at = self.at;
        if refusal::MAX_SCRIPT < script.len() {
            return Stepped {
                found: Err(Refusal::TooLong),
                next: self,
            };
        }
        if script.len() < at {
            return Stepped {
                found: Err(Refusal::BadCursor),
                next: self,
            };
        }
        if script.len() == at {
            return Stepped {
                found: Ok(None),
                next: self,
            };
        }
        let code = script[at];
        match opcodes::classify(code) {
            Class::Push(form) => push_at(script, at, form, mode),
            Class::PushNum | Class::Ordinary => opcode_at(at, code),
        }
    }
}

// The opcode that stands at `at`.
fn opcode_at(at: usize, code: u8) -> Stepped
    requires { at < limit }
    ensures { (result.found ≡ Ok (Some (Instruction.Opcode at code))) × (result.next.at ≡ at + 1) }
{
    Stepped {
        found: Ok(Some(Instruction::Opcode { place: at, code })),
        next: Cursor { at: at + 1 },
    }
}

// The size of the instruction that stands whole at `at`, by the tests of `Cursor::next`; 0 where none does, at the end and where that step is refused. No
// entry: a number alone, by which the loops of the crates above keep to registers. Who needs the reason for a 0 asks `Cursor::size`.
#[inline]
pub fn whole_size(script: &[u8], at: usize, mode: Mode) -> usize
    ensures { result ≡ size_said (walk_says (is_minimal mode) script.now at) }
{
    match (Cursor { at }).next(script, mode).found {
        Ok(Some(Instruction::Opcode { .. })) => 1,
        Ok(Some(Instruction::Push { body, len, .. })) => body + len - at,
        _ => 0,
    }
}
