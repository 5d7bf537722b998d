// Tests that walk a script, each by one loop over the walk's step, and left at the first instruction that does not fit.
#![tactic(auto)]

ghost use Rattle.std.specs.Prelude.{true, false, ◌≡◌, get_or};
ghost use Rattle.opcodes.specs.Opcode.{pushnum_of};
ghost use Rattle.script.specs.Run.{walk_from};
ghost use Rattle.walked.specs.Walked.{is_push_only, redeem_script, is_multisig, agrees, is_end, checks, number_then, keys_then};
ghost use Rattle.walked.specs.Answer.{said_place};

use opcodes::{OP_CHECKMULTISIG, OP_PUSHNUM_16};
use walk::{Cursor, Instruction, Mode};

// Where bytes of a script lie.
#[derive(Clone, Copy, Debug, PartialEq, Eq)]
pub struct Place {
    pub start: usize,
    pub len: usize,
}

// The most keys that a multisig may have.
const MAX_KEYS: usize = 255;

// Whether a script only pushes; OP_RESERVED counts as a push, as do the number opcodes.
pub fn push_only(s: &[u8]) -> bool
    ensures { result ≡ is_push_only s.now }
{
    let mut c = Cursor::new();
    loop {
        let stepped = c.next(s, Mode::Plain);
        let Ok(found) = stepped.found else {
            return false;
        };
        match found {
            None => return true,
            Some(Instruction::Opcode { code, .. }) => {
                if OP_PUSHNUM_16 < code {
                    return false;
                }
                c = stepped.next;
            }
            Some(Instruction::Push { .. }) => c = stepped.next,
        }
    }
}

// The last body of a script of pushes alone; nothing for any other script.
pub fn last_push(s: &[u8]) -> Option<Place>
    ensures { said_place result ≡ redeem_script s.now }
{
    let mut c = Cursor::new();
    let mut last = None;
    loop {
        let stepped = c.next(s, Mode::Plain);
        let Ok(found) = stepped.found else {
            return None;
        };
        match found {
            None => return last,
            Some(Instruction::Opcode { .. }) => return None,
            Some(Instruction::Push { body, len, .. }) => {
                last = Some(Place { start: body, len });
                c = stepped.next;
            }
        }
    }
}

// Whether a number opcode names this count; any other opcode may stand there.
fn agreeing(code: u8, count: usize) -> bool
    ensures { result ≡ agrees (pushnum_of code) count }
{
    match opcodes::decode_pushnum(code) {
        Some(n) => n as usize == count,
        None => true,
    }
}

// Whether the script ends at the cursor.
fn ending(s: &[u8], c: Cursor) -> bool
    ensures { result ≡ is_end (walk_from false s.now c.at) }
{
    let Ok(found) = c.next(s, Mode::Plain).found else {
        return false;
    };
    found.is_none()
}

// Whether OP_CHECKMULTISIG stands at the cursor and the script ends after it.
fn checking(s: &[u8], c: Cursor) -> bool
    ensures { result ≡ checks (walk_from false s.now c.at) }
{
    let stepped = c.next(s, Mode::Plain);
    let Ok(found) = stepped.found else {
        return false;
    };
    match found {
        Some(Instruction::Opcode { code, .. }) => {
            if code == OP_CHECKMULTISIG {
                ending(s, stepped.next)
            } else {
                false
            }
        }
        Some(Instruction::Push { .. }) => false,
        None => false,
    }
}

// Whether keys, their count and OP_CHECKMULTISIG stand at the cursor, with at least m keys, and the script ends after them.
fn keys(s: &[u8], start: Cursor, m: usize) -> bool
    ensures { result ≡ keys_then m (walk_from false s.now start.at) }
{
    let mut c = start;
    // How many keys there are: what is asked, and no index.
    let mut count: usize = 0;
    loop {
        let stepped = c.next(s, Mode::Plain);
        let Ok(found) = stepped.found else {
            return false;
        };
        match found {
            None => return false,
            Some(Instruction::Opcode { code, .. }) => {
                return agreeing(code, count) & checking(s, stepped.next) & (m <= count);
            }
            Some(Instruction::Push { .. }) => {
                if count == MAX_KEYS {
                    return false;
                }
                count += 1;
                c = stepped.next;
            }
        }
    }
}

// Whether a script is a bare multisig, by the walk.
fn walks_multisig(s: &[u8]) -> bool
    ensures { result ≡ is_multisig s.now }
{
    let stepped = Cursor::new().next(s, Mode::Plain);
    let Ok(found) = stepped.found else {
        return false;
    };
    match found {
        Some(Instruction::Opcode { code, .. }) => match opcodes::decode_pushnum(code) {
            Some(m) => keys(s, stepped.next, m as usize),
            None => false,
        },
        Some(Instruction::Push { .. }) => false,
        None => false,
    }
}

// Whether a number opcode stands first.
fn starts_with_number(s: &[u8]) -> bool
    ensures { result ≡ number_then (λ m. true) (pushnum_of (get_or s.now 0 0)) }
{
    if s.len() == 0 {
        return false;
    }
    opcodes::decode_pushnum(s[0]).is_some()
}

// Whether a script is a bare multisig. Nothing is walked unless a number opcode stands first, so that any other script costs one test.
#[tactic(auto, using(crate::proofs::Numbered::not_multisig))]
pub fn multisig(s: &[u8]) -> bool
    ensures { result ≡ is_multisig s.now }
{
    if starts_with_number(s) {
        walks_multisig(s)
    } else {
        false
    }
}
