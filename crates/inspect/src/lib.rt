// The inspector's screen: what the other crates say of a script, in five lines.
#![tactic(auto)]

ghost use Rattle.std.specs.Prelude.{◌≡◌, length};
ghost use Rattle.laws.specs.Buffer.{writes, after};
ghost use Rattle.refusal.specs.Answer.{said};
ghost use Rattle.pool.specs.Text.{decimal};
ghost use Rattle.screen.specs.Screen.{most_shown, line, screen_of, inspect_says};
ghost use Rattle.screen.specs.Steps.{head_of};

use facts::Inspected;
use head::{Head, head_lines};
use put::put_screen;
use refusal::Refusal;

mod facts;
mod put;

// The longest script that is inspected, in bytes.
pub const MAX_INSPECTED: usize = 2800;

// How many bytes the line for a longer one has.
const REFUSED_LEN: usize = 13;

// The screen of a script within the limit, up to the text.
#[tactic(auto, unfolding(screen::specs::Steps::head_of))]
fn head_of(inspected: &Inspected) -> Head
    ensures { result ≡ head_of inspected.now }
{
    head_lines(
        inspected.len() as u64,
        inspected.kind(),
        inspected.accurate(),
        inspected.legacy(),
        inspected.dust(),
    )
}

// The screen of a script over the limit, written to the front of a lent buffer.
#[tactic(auto, using(copying::proofs::Whole::all_copied, copying::proofs::Whole::copied_whole), unfolding(pool::specs::Text::decimal, pool::specs::Text::digits))]
fn write_refused(out: &mut [u8]) -> Result<usize, Refusal>
    ensures answer { said result ≡ writes (line "refused" (decimal most_shown)) (length out.old) }
    ensures left { out.new ≡ after (writes (line "refused" (decimal most_shown)) (length out.old)) (line "refused" (decimal most_shown)) out.old }
{
    if out.len() < REFUSED_LEN {
        return Err(Refusal::NoRoom(REFUSED_LEN));
    }
    Ok(copying::copy(b"refused 2800\n", out))
}

// Writes a script's screen to the front of a lent buffer and answers its length. For a script over 2,800 bytes the screen is the one line
// `refused 2800`. Refused with 7 and the bytes needed where the buffer is shorter than the screen, with the buffer untouched.
#[tactic(auto, using(crate::proofs::Within::over_limit, screen::proofs::Whole::over, screen::proofs::Whole::within_length), unfolding(screen::specs::Screen::inspect_says))]
pub fn inspect(script: &[u8], out: &mut [u8]) -> Result<usize, Refusal>
    ensures answer { said result ≡ inspect_says script.now (length out.old) }
    ensures left { out.new ≡ after (inspect_says script.now (length out.old)) (screen_of script.now) out.old }
{
    let Some(inspected) = Inspected::new(script) else {
        return write_refused(out);
    };
    let lines = head_of(&inspected);
    let head = lines.as_bytes();
    let needed = head.len() + inspected.text_len() + 1;
    if out.len() < needed {
        return Err(Refusal::NoRoom(needed));
    }
    put_screen(head, &inspected, out);
    Ok(needed)
}
