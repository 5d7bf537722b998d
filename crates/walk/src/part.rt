// The body of a push, as a part of the caller's own script.
ghost use Rattle.std.specs.Prelude.{length};
ghost use Rattle.walk.specs.Part.{Part, body_place, body_len};
ghost use Rattle.script.specs.Walk.{walk_says};
ghost use Rattle.walk.specs.Answer.{is_minimal};
ghost use Rattle.walk.specs.Steps.{Spans};

use crate::{Cursor, Instruction, Mode};
use std::ops::Range;

// Where the body of the push at the cursor lies; nothing at the front where there is none.
fn body_span(script: &[u8], cursor: Cursor, mode: Mode) -> Range<usize>
    ensures { Spans (walk_says (is_minimal mode) script.now cursor.at) (length script.now) result.start result.end }
{
    match cursor.next(script, mode).found {
        Ok(Some(Instruction::Push { body, len, .. })) => body..body + len,
        _ => 0..0,
    }
}

// The body of the push at the cursor, as a part of the caller's own script; an empty part where the walk gives no push there.
pub fn body<'a>(script: &'a [u8], cursor: Cursor, mode: Mode) -> &'a [u8]
    ensures { Part result script.entry (body_place (walk_says (is_minimal mode) script.now cursor.at)) (body_len (walk_says (is_minimal mode) script.now cursor.at)) }
{
    &script[body_span(script, cursor, mode)]
}
