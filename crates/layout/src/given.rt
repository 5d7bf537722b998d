// The builder that a call is given, as its used length and what it remembers.
ghost use Rattle.std.specs.Prelude.{◌≡◌, ◌≤◌, length};
ghost use Rattle.building.specs.Lent.{builder_says, shown};
ghost use Rattle.refusal.specs.Answer.{said};

use refusal::{MAX_SCRIPT, Refusal};

// Refused with 1 for a used length over the limit; with 13 for one over the buffer's, or where an opcode is remembered that is not the last used
// byte.
#[tactic(auto, unfolding(building::specs::Lent::builder_says))]
pub fn check(used: usize, remembered: Option<u8>, buffer: &[u8]) -> Result<(), Refusal>
    ensures { said result ≡ builder_says used remembered buffer.now }
{
    if MAX_SCRIPT < used {
        return Err(Refusal::TooLong);
    }
    if buffer.len() < used {
        return Err(Refusal::BadBuilder);
    }
    let Some(code) = remembered else {
        return Ok(());
    };
    if used == 0 {
        return Err(Refusal::BadBuilder);
    }
    if buffer[used - 1] == code {
        Ok(())
    } else {
        Err(Refusal::BadBuilder)
    }
}

// How many bytes of the buffer are shown: the used ones, and none for a builder that `check` refuses.
#[tactic(auto, unfolding(building::specs::Lent::shown, building::specs::Lent::builder_says))]
pub fn shown_len(used: usize, remembered: Option<u8>, buffer: &[u8]) -> usize
    ensures { (result ≡ shown used remembered buffer.now) × (result ≤ length buffer.now) }
{
    if check(used, remembered, buffer).is_ok() {
        used
    } else {
        0
    }
}
