// The walk.
ghost use Rattle.std.specs.Prelude.{◌≡◌, [], ◌∷◌, length, get_or};
ghost use Rattle.laws.specs.Said.{answers};
ghost use Rattle.laws.specs.Buffer.{after};
ghost use Rattle.script.specs.Walk.{walk_says, next_at};
ghost use Rattle.walk.specs.Part.{body_place, body_len};
ghost use Rattle.places.specs.Places.{places_of, positions_say};
ghost use Rattle.hand.specs.Handed.{handed, says, gives, steps, advances, moved_to, unless_short, one, minimal_of};

use hand::SHORT_VALUES;
use walk::Cursor;

// The least number of entries for what is said of the places: a count, or a refusal of the walk with up to two values.
const POSITIONS_VALUES: usize = 2;

// The cursor at a script's front.
#[unsafe(no_mangle)]
pub extern "C" fn bb_cursor_new(values: &mut [u64]) -> u32
    ensures { handed result values.new ≡ says 1 one (answers 0) values.old }
{
    hand::over(Ok(Cursor::new().at), values)
}

// What stands at a place.
#[unsafe(no_mangle)]
pub extern "C" fn bb_next(script: &[u8], at: usize, mode: u32, values: &mut [u64]) -> u32
    ensures { handed result values.new ≡ steps (next_at (minimal_of mode) script.now at) (walk_says (minimal_of mode) script.now at) values.old }
{
    step::next(script, at, mode, values)
}

// The body of the push at a place, as a part.
#[unsafe(no_mangle)]
pub extern "C" fn bb_body(script: &[u8], at: usize, mode: u32, values: &mut [u64]) -> u32
    ensures { handed result values.new ≡ gives 2 (body_place (walk_says (minimal_of mode) script.now at) ∷ (body_len (walk_says (minimal_of mode) script.now at) ∷ [])) values.old }
{
    step::body(script, at, mode, values)
}

// What stands at a lent place, which is then moved on.
#[unsafe(no_mangle)]
pub extern "C" fn bb_advance(
    cursor: &mut [u64],
    script: &[u8],
    mode: u32,
    values: &mut [u64],
) -> u32
    ensures { (handed result values.new ≡ advances cursor.old (next_at (minimal_of mode) script.now (get_or cursor.old 0 0)) (walk_says (minimal_of mode) script.now (get_or cursor.old 0 0)) values.old) × (cursor.new ≡ moved_to (next_at (minimal_of mode) script.now (get_or cursor.old 0 0)) cursor.old values.old) }
{
    step::advance(cursor, script, mode, values)
}

// Every instruction's place, in a lent table.
#[tactic(auto, using(hand::proofs::Handing::says_short, hand::proofs::Handing::says_least), unfolding(hand::specs::Handed::unless_short))]
#[unsafe(no_mangle)]
pub extern "C" fn bb_positions(
    script: &[u8],
    mode: u32,
    table: &mut [u32],
    values: &mut [u64],
) -> u32
    ensures { (handed result values.new ≡ says 2 one (positions_say (minimal_of mode) script.now (length table.old)) values.old) × (table.new ≡ unless_short 2 (length values.old) (after (positions_say (minimal_of mode) script.now (length table.old)) (places_of (minimal_of mode) script.now) table.old) table.old) }
{
    if values.len() < POSITIONS_VALUES {
        return SHORT_VALUES;
    }
    hand::over(
        places::positions(script, step::mode_of(mode), table),
        values,
    )
}
