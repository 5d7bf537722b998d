// A push laid out behind the used bytes of a buffer: the room that it needs, and the bytes that it stores.
ghost use Rattle.std.specs.Prelude.{◌≡◌, ◌∷◌, ◌++◌, ◌+◌, ◌≤◌, length, take};
ghost use Rattle.std.proofs.lemmas.List.Edits.{sets};
ghost use Rattle.laws.specs.Said.{answers, unless};
ghost use Rattle.laws.specs.Buffer.{after};
ghost use Rattle.refusal.specs.Answer.{said};
ghost use Rattle.opcodes.specs.Opcode.{said_form};
ghost use Rattle.script.specs.Instruction.{write_le};
ghost use Rattle.building.specs.Lent.{built_says};
ghost use Rattle.layout.specs.Laid.{headed, laid_says};

use opcodes::Form;
use refusal::{MAX_SCRIPT, Refusal};

// How many bytes there are with a head and a body behind the used ones. Refused with 1 where that exceeds the limit, and with 7 where it exceeds
// the room.
#[tactic(auto, unfolding(building::specs::Lent::built_says))]
fn fits(used: usize, head: usize, body: usize, room: usize) -> Result<usize, Refusal>
    requires { head ≤ 5 }
    ensures { said result ≡ unless (built_says (used + head + body) room) (answers (used + head + body)) }
{
    if MAX_SCRIPT < used {
        return Err(Refusal::TooLong);
    }
    if MAX_SCRIPT < body {
        return Err(Refusal::TooLong);
    }
    let size = used + head + body;
    if MAX_SCRIPT < size {
        return Err(Refusal::TooLong);
    }
    if room < size {
        return Err(Refusal::NoRoom(size));
    }
    Ok(size)
}

// Writes the lowest bytes of n over the whole of out, the lowest first. `numbers` has the loop for 64 bits and a sign: two lines each, under laws of their own.
#[tactic(auto, unfolding(script::specs::Instruction::write_le))]
fn put_le(out: &mut [u8], n: usize)
    ensures { out.new ≡ write_le (length out.old) n }
{
    let mut rest = n;
    for b in out {
        *b = (rest % 256) as u8;
        rest /= 256;
    }
}

// Writes an opcode byte, the lowest `width` bytes of the body's length, and the body, from `at` on.
fn put_push(buffer: &mut [u8], at: usize, code: u8, width: usize, body: &[u8])
    requires { at + (1 + width + length body.now) ≤ length buffer.old }
    ensures { buffer.new ≡ sets buffer.old at (code ∷ (write_le width (length body.now) ++ body.now)) }
{
    let start = at + 1 + width;
    buffer[at] = code;
    put_le(&mut buffer[at + 1..start], body.len());
    copying::copy(body, &mut buffer[start..]);
}

// Lays an opcode byte, the form's length bytes and the body behind the used bytes, and answers how many bytes there are then. Refused with 1 where
// that exceeds the limit, and with 7 and that length where the buffer is shorter; a refused call leaves the buffer.
pub fn lay(
    buffer: &mut [u8],
    used: usize,
    code: u8,
    form: Form,
    body: &[u8],
) -> Result<usize, Refusal>
    ensures answer { said result ≡ laid_says used (headed code (said_form form) body.now) (length buffer.old) }
    ensures left { buffer.new ≡ after (laid_says used (headed code (said_form form) body.now) (length buffer.old)) (take used buffer.old ++ headed code (said_form form) body.now) buffer.old }
{
    let width = opcodes::length_bytes(form);
    let size = fits(used, 1 + width, body.len(), buffer.len())?;
    put_push(buffer, used, code, width, body);
    Ok(size)
}
