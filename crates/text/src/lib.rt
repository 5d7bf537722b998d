// The text of a script, as the crate's `fmt_asm` writes it: measured first, then written.
#![tactic(auto)]

ghost use Rattle.std.specs.Prelude.{◌≡◌, ◌≤◌, length};
ghost use Rattle.std.proofs.lemmas.List.Edits.{sets};
ghost use Rattle.laws.specs.Buffer.{after};
ghost use Rattle.refusal.specs.Refusal.{limit};
ghost use Rattle.refusal.specs.Answer.{said};
ghost use Rattle.asm.specs.Asm.{text_of, asm_says};

pub use measure::asm_len;
use measure::{data_len, length_bytes_after};
use names::Names;
use put::{put_data, put_opcode, put_push_past_end, put_space, put_unexpected_end};
use refusal::Refusal;

mod put;

// Writes the text to the front of a buffer that has room for it: the second of document 01's two passes. The loop over instructions is left from inside the length step or the hex step
// where a push is cut.
#[tactic(auto, using(crate::proofs::Stored::begin, crate::proofs::Stored::last, crate::proofs::Stored::equal, asm::proofs::LengthStep::few_after, asm::proofs::LengthStep::none_yet, asm::proofs::Turn::ends), unfolding(asm::specs::Asm::text_of))]
fn write_text(script: &[u8], names: &Names, out: &mut [u8])
    requires { (length script.now ≤ limit) × (length (text_of script.now) ≤ length out.old) }
    ensures { out.new ≡ sets out.old 0 (text_of script.now) }
{
    let mut n: usize = 0;
    let mut at: usize = 0;
    'script: while at < script.len() {
        let code = script[at];
        let k = length_bytes_after(code);
        let mut stated: usize = 0;
        // The length step, from the last length byte to the first.
        for i in (1..=k).rev() {
            if script.len() - at <= i {
                put_unexpected_end(out, n);
                break 'script;
            }
            stated = stated * 256 + usize::from(script[at + i]);
        }
        let body = at + 1 + k;
        let len = data_len(code, stated);
        n = put_space(out, n, at);
        n = put_opcode(out, n, names, code);
        // The hex step.
        if script.len() - body < len {
            put_push_past_end(out, n);
            break 'script;
        }
        let end = body + len;
        n = put_data(out, n, &script[body..end]);
        at = end;
    }
}

// Writes the text to the front of a lent buffer and answers its length. Refused with 1 for a script over the limit, and with 7 and the bytes
// needed where the buffer is shorter; a refused call leaves the buffer.
#[tactic(auto, using(laws::proofs::Stored::stored_front), unfolding(asm::specs::Asm::asm_says, asm::specs::Asm::asm_len_says))]
pub fn write_asm(script: &[u8], out: &mut [u8]) -> Result<usize, Refusal>
    ensures answer { said result ≡ asm_says script.now (length out.old) }
    ensures left { out.new ≡ after (asm_says script.now (length out.old)) (text_of script.now) out.old }
{
    let needed = asm_len(script)?;
    if out.len() < needed {
        return Err(Refusal::NoRoom(needed));
    }
    let names = Names::new();
    write_text(script, &names, out);
    Ok(needed)
}
