// A cursor lent and advanced in place.
ghost use Rattle.std.specs.Prelude.{◌≡◌};
ghost use Rattle.script.specs.Walk.{walk_says, next_at};
ghost use Rattle.walk.specs.Answer.{said_found, is_minimal};

use crate::{Cursor, Found, Mode};

// What stands at the cursor, which then stands where the next call is to go on: the by-value step `Cursor::next`, run once, its
// answer handed out and its cursor stored. Refused as that step is.
pub fn advance(cursor: &mut Cursor, script: &[u8], mode: Mode) -> Found
    ensures { (said_found result ≡ walk_says (is_minimal mode) script.now cursor.old.at) × (cursor.new.at ≡ next_at (is_minimal mode) script.now cursor.old.at) }
{
    let stepped = (*cursor).next(script, mode);
    *cursor = stepped.next;
    stepped.found
}
