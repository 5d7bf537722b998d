// The start places of a script's instructions, in a lent table.
#![tactic(auto)]

ghost use Rattle.std.specs.Prelude.{◌≡◌, ◌≤◌, length};
ghost use Rattle.std.proofs.lemmas.List.Edits.{sets};
ghost use Rattle.laws.specs.Buffer.{after};
ghost use Rattle.refusal.specs.Answer.{said};
ghost use Rattle.places.specs.Places.{place_count_says, places_of, positions_say};
ghost use Rattle.walk.specs.Answer.{is_minimal};

use refusal::Refusal;
use walk::{Cursor, Mode};

// How many instructions a script has to its end, or why the walk does not reach it.
fn count(script: &[u8], mode: Mode) -> Result<usize, Refusal>
    ensures { said result ≡ place_count_says (is_minimal mode) script.now }
{
    let mut at: usize = 0;
    // How many instructions there are: the answer, and no index.
    let mut n: usize = 0;
    loop {
        let size = walk::whole_size(script, at, mode);
        if size == 0 {
            Cursor { at }.size(script, mode)?;
            return Ok(n);
        }
        n += 1;
        at += size;
    }
}

// The places of all instructions, from the front of a table that has room for them.
#[tactic(auto, unfolding(crate::specs::Places::places_of))]
fn write_places(script: &[u8], mode: Mode, table: &mut [u32])
    requires { length (places_of (is_minimal mode) script.now) ≤ length table.old }
    ensures { table.new ≡ sets table.old 0 (places_of (is_minimal mode) script.now) }
{
    let mut at: usize = 0;
    for entry in table {
        let size = walk::whole_size(script, at, mode);
        if size == 0 {
            return;
        }
        *entry = at as u32;
        at += size;
    }
}

// The start places of all instructions of a script, written from the table's front, and how many there are. Refused with 1, 2, 14 or 15 where the
// walk is, and with 7 and the entries needed where the table is short; a refused call leaves the table.
#[tactic(auto, unfolding(crate::specs::Places::place_count_says, crate::specs::Places::positions_say))]
pub fn positions(script: &[u8], mode: Mode, table: &mut [u32]) -> Result<usize, Refusal>
    ensures { (said result ≡ positions_say (is_minimal mode) script.now (length table.old)) × (table.new ≡ after (positions_say (is_minimal mode) script.now (length table.old)) (places_of (is_minimal mode) script.now) table.old) }
{
    let n = count(script, mode)?;
    if table.len() < n {
        return Err(Refusal::NoRoom(n));
    }
    write_places(script, mode, table);
    Ok(n)
}
