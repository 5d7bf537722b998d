// A push: its length bytes, the forms that minimal mode refuses, and its body.
ghost use Rattle.std.specs.Prelude.{◌≡◌, ◌+◌, ◌≤◌, ◌<◌, length, get_or};
ghost use Rattle.opcodes.specs.Opcode.{sort_of, push, said_form};
ghost use Rattle.refusal.specs.Refusal.{limit};
ghost use Rattle.script.specs.Script.{read_le};
ghost use Rattle.script.specs.Walk.{walk_says, next_at};
ghost use Rattle.walk.specs.Answer.{said_found, is_minimal};
ghost use Rattle.script.specs.Steps.{stated, is_number, too_short};

use crate::{Cursor, Instruction, Mode, Stepped};
use opcodes::Form;
use refusal::Refusal;

// The shortest body that needs each length form, which is what minimal mode wants of it.
const LEAST_PUSHDATA1: usize = 76;

const LEAST_PUSHDATA2: usize = 0x100;

const LEAST_PUSHDATA4: usize = 0x10000;

// -1 as a script number.
const MINUS_ONE: u8 = 0x81;

// The number that the k bytes from p on hold, the lowest first.
fn read_le(s: &[u8], p: usize, k: usize) -> usize
    requires { (k ≤ 4) × (p + k ≤ length s.now) }
    ensures { result ≡ read_le k s.now p }
{
    let mut n = 0;
    for i in (0..k).rev() {
        n = n * 256 + usize::from(s[p + i]);
    }
    n
}

// The body length that the push at `at` states, whose k length bytes are there.
fn stated_len(s: &[u8], at: usize, k: usize) -> usize
    requires { (k ≤ 4) × (length s.now ≤ limit) × (at + 1 + k ≤ length s.now) }
    ensures { result ≡ stated k s.now at }
{
    if k == 0 {
        usize::from(s[at])
    } else {
        read_le(s, at + 1, k)
    }
}

// Whether a byte stands at p that a number opcode pushes: 1 to 16, or -1 as 0x81.
fn is_number(s: &[u8], p: usize) -> bool
    ensures { result ≡ is_number s.now p }
{
    if p < s.len() {
        let b = s[p];
        match b {
            MINUS_ONE => true,
            1..=16 => true,
            _ => false,
        }
    } else {
        false
    }
}

// Whether the mode refuses a push of this form whose body, were it there, would be the len bytes at body.
fn is_too_short(mode: Mode, s: &[u8], form: Form, body: usize, len: usize) -> bool
    ensures { result ≡ too_short (is_minimal mode) (said_form form) s.now body len }
{
    match mode {
        Mode::Plain => false,
        Mode::Minimal => match form {
            Form::Direct => { if len == 1 { is_number(s, body) } else { false } }
            Form::PushData1 => len < LEAST_PUSHDATA1,
            Form::PushData2 => len < LEAST_PUSHDATA2,
            Form::PushData4 => len < LEAST_PUSHDATA4,
        },
    }
}

// The push at `at`, where an opcode of this form stands: the length bytes first, then minimality, then the body.
#[inline]
pub(crate) fn push_at(s: &[u8], at: usize, form: Form, mode: Mode) -> Stepped
    requires { (length s.now ≤ limit) × (at < length s.now) × (sort_of (get_or s.now at 0) ≡ push (said_form form)) }
    ensures { (said_found result.found ≡ walk_says (is_minimal mode) s.now at) × (result.next.at ≡ next_at (is_minimal mode) s.now at) }
{
    let n = s.len();
    let k = opcodes::length_bytes(form);
    let body = at + 1 + k;
    if n < body {
        return Stepped {
            found: Err(Refusal::LengthCut(at, body - n)),
            next: Cursor { at: n },
        };
    }
    let len = stated_len(s, at, k);
    if is_too_short(mode, s, form, body, len) {
        return Stepped {
            found: Err(Refusal::NonMinimal(at)),
            next: Cursor { at: n },
        };
    }
    if n - body < len {
        return Stepped {
            found: Err(Refusal::BodyCut(at, len - (n - body))),
            next: Cursor { at: n },
        };
    }
    Stepped {
        found: Ok(Some(Instruction::Push {
            place: at,
            form,
            body,
            len,
        })),
        next: Cursor { at: body + len },
    }
}
