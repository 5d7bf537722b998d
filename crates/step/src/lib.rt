// The walk by numbers: where it stands goes in, and comes back with what stands there.
#![tactic(auto)]

ghost use Rattle.std.specs.Prelude.{◌≡◌, [], ◌∷◌, ◌+◌, ◌-◌, ◌≤◌, length, get_or};
ghost use Rattle.std.proofs.lemmas.List.Edits.{sets};
ghost use Rattle.refusal.specs.Refusal.{limit};
ghost use Rattle.opcodes.specs.Opcode.{sort_of, length_bytes_after};
ghost use Rattle.script.specs.Walk.{found, walked, walk_says, next_at};
ghost use Rattle.walk.specs.Part.{body_place, body_len};
ghost use Rattle.walk.specs.Answer.{is_minimal, said_found};
ghost use Rattle.hand.specs.Handed.{handed, gives, steps, advances, moved_to, walked_row, minimal_of};

use hand::SHORT_VALUES;
use opcodes::Class;
use walk::{Cursor, Found, Instruction, Mode, Stepped};

// How many values a step leaves at most: the place for the next call, and what stands there.
const STEP_VALUES: usize = 6;

// 0 is plain, any other number minimal.
pub fn mode_of(mode: u32) -> Mode
    ensures { is_minimal result ≡ minimal_of mode }
{
    if mode == 0 {
        Mode::Plain
    } else {
        Mode::Minimal
    }
}

// Values at the slice's front, stored.
#[tactic(auto, using(laws::proofs::Stored::stored_front))]
fn put<const N: usize>(values: &mut [u64], row: [u64; N])
    requires { N ≤ length values.old }
    ensures { values.new ≡ sets values.old 0 row.entry }
{
    values[..N].copy_from_slice(&row);
}

// The place for the next call, and behind it what the walk found or a refusal's values.
#[tactic(auto, using(hand::proofs::Handing::steps_short))]
fn step(answer: Stepped, values: &mut [u64]) -> u32
    ensures { handed result values.new ≡ steps answer.next.at (said_found answer.found) values.old }
{
    if values.len() < STEP_VALUES {
        return SHORT_VALUES;
    }
    let to = answer.next.at as u64;
    match answer.found {
        Ok(None) => {
            put(values, [to, 0]);
            0
        }
        Ok(Some(Instruction::Opcode { place, code })) => {
            put(values, [to, 1, place as u64, code as u64]);
            0
        }
        Ok(
            Some(
                Instruction::Push {
                    place,
                    form,
                    body,
                    len,
                },
            ),
        ) => {
            let k = opcodes::length_bytes(form);
            put(
                values,
                [to, 2, place as u64, k as u64, body as u64, len as u64],
            );
            0
        }
        Err(why) => {
            values[0] = to;
            hand::refusal(why, values, 1)
        }
    }
}

// The same of an instruction that stands whole at a place: the opcode byte and the size tell the rest. It goes by numbers alone, so that a walk
// from C costs no more than its stores.
fn whole(at: usize, size: usize, code: u8, values: &mut [u64]) -> u32
    requires { (6 ≤ length values.old) × (1 + length_bytes_after (sort_of code) ≤ size) × (at + size ≤ limit) }
    ensures { (result ≡ 0) × (values.new ≡ sets values.old 0 ((at + size) ∷ walked_row (found (walked (sort_of code) at code (size - (1 + length_bytes_after (sort_of code))))))) }
{
    let to = (at + size) as u64;
    match opcodes::classify(code) {
        Class::Push(form) => {
            let k = opcodes::length_bytes(form);
            let body = (at + 1 + k) as u64;
            put(
                values,
                [to, 2, at as u64, k as u64, body, (size - (1 + k)) as u64],
            );
        }
        Class::PushNum | Class::Ordinary => put(values, [to, 1, at as u64, code as u64]),
    }
    0
}

// What stands at a place.
#[tactic(auto, using(hand::proofs::Handing::steps_short))]
pub fn next(script: &[u8], at: usize, mode: u32, values: &mut [u64]) -> u32
    ensures { handed result values.new ≡ steps (next_at (minimal_of mode) script.now at) (walk_says (minimal_of mode) script.now at) values.old }
{
    if values.len() < STEP_VALUES {
        return SHORT_VALUES;
    }
    let mode = mode_of(mode);
    let size = walk::whole_size(script, at, mode);
    if size == 0 {
        return step(Cursor { at }.next(script, mode), values);
    }
    whole(at, size, script[at], values)
}

// The body of a push, as its place and length; nothing at the front for all else.
fn body_of(answer: Found, values: &mut [u64]) -> u32
    ensures { handed result values.new ≡ gives 2 (body_place (said_found answer) ∷ (body_len (said_found answer) ∷ [])) values.old }
{
    match answer {
        Ok(Some(Instruction::Push { body, len, .. })) => hand::two(body, len, values),
        _ => hand::two(0, 0, values),
    }
}

// The body of the push at a place, as a part.
pub fn body(script: &[u8], at: usize, mode: u32, values: &mut [u64]) -> u32
    ensures { handed result values.new ≡ gives 2 (body_place (walk_says (minimal_of mode) script.now at) ∷ (body_len (walk_says (minimal_of mode) script.now at) ∷ [])) values.old }
{
    body_of(Cursor { at }.next(script, mode_of(mode)).found, values)
}

// What stands at a place, and the cursor for the next call: a cursor at that place, lent to the walk and moved on.
fn moved_on(at: usize, script: &[u8], mode: Mode) -> Stepped
    ensures { (said_found result.found ≡ walk_says (is_minimal mode) script.now at) × (result.next.at ≡ next_at (is_minimal mode) script.now at) }
{
    let mut cursor = Cursor { at };
    let found = walk::advance(&mut cursor, script, mode);
    Stepped {
        found,
        next: cursor,
    }
}

// What stands at a lent place, which is then moved on.
#[tactic(auto, using(hand::proofs::Handing::steps_short, laws::proofs::Stored::stored_front), unfolding(hand::specs::Handed::advances, hand::specs::Handed::moved_to))]
pub fn advance(cursor: &mut [u64], script: &[u8], mode: u32, values: &mut [u64]) -> u32
    ensures { (handed result values.new ≡ advances cursor.old (next_at (minimal_of mode) script.now (get_or cursor.old 0 0)) (walk_says (minimal_of mode) script.now (get_or cursor.old 0 0)) values.old) × (cursor.new ≡ moved_to (next_at (minimal_of mode) script.now (get_or cursor.old 0 0)) cursor.old values.old) }
{
    if cursor.len() < 1 {
        return SHORT_VALUES;
    }
    if values.len() < STEP_VALUES {
        return SHORT_VALUES;
    }
    let at = cursor[0] as usize;
    let stepped = moved_on(at, script, mode_of(mode));
    cursor[0] = stepped.next.at as u64;
    step(stepped, values)
}
