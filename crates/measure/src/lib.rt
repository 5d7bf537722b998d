// How long the text of a script is: the measured pass, before any byte is written.
#![tactic(auto)]

ghost use Rattle.std.specs.Prelude.{◌≡◌, ◌≤◌, length};
ghost use Rattle.refusal.specs.Refusal.{limit};
ghost use Rattle.refusal.specs.Answer.{said};
ghost use Rattle.asm.specs.Asm.{text_of, asm_len_says};

use names::NameLengths;
use refusal::Refusal;
use size::{data_text_len, opcode_text_len, space_len};

mod size;

pub use size::{data_len, length_bytes_after};

// How many bytes the mark for cut length bytes has.
const UNEXPECTED_END_LEN: usize = 16;

// How many bytes the mark for a cut body has, with the space before it.
const PUSH_PAST_END_LEN: usize = 16;

// How many bytes the text has. `text` goes over the script a second time and writes: document 01 asks for two passes. The loop over instructions is left from inside the length step or the hex step where a push is cut.
#[tactic(auto, using(crate::proofs::Measured::start, crate::proofs::Measured::data_few, asm::proofs::Sizes::space_short, asm::proofs::Sizes::opcode_short, asm::proofs::LengthStep::few_after, asm::proofs::LengthStep::none_yet, asm::proofs::LengthStep::whole, asm::proofs::Turn::ends))]
fn measure(script: &[u8], lengths: &NameLengths) -> usize
    requires { length script.now ≤ limit }
    ensures { result ≡ length (text_of script.now) }
{
    let mut n: usize = 0;
    let mut at: usize = 0;
    'script: while at < script.len() {
        let code = script[at];
        let k = length_bytes_after(code);
        let mut stated: usize = 0;
        // The length step, from the last length byte to the first.
        for i in (1..=k).rev() {
            if script.len() - at <= i {
                n += UNEXPECTED_END_LEN;
                break 'script;
            }
            stated = stated * 256 + usize::from(script[at + i]);
        }
        let body = at + 1 + k;
        let len = data_len(code, stated);
        n += space_len(at) + opcode_text_len(lengths, code);
        // The hex step.
        if script.len() - body < len {
            n += PUSH_PAST_END_LEN;
            break 'script;
        }
        n += data_text_len(len);
        at = body + len;
    }
    n
}

// The text's length. Refused with 1 for a script over the limit.
#[tactic(auto, unfolding(asm::specs::Asm::asm_len_says))]
pub fn asm_len(script: &[u8]) -> Result<usize, Refusal>
    ensures { said result ≡ asm_len_says script.now }
{
    refusal::check_limit(script)?;
    let lengths = NameLengths::new();
    Ok(measure(script, &lengths))
}
