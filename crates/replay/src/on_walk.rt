// The entries of `walk`, by their numbers in the file, 14 to 17: all calls of the walk up to its end, each with the body that the second call hands back, and the table of
// positions.
use crate::{expect, file, lent, on_opcodes};
use walk::{Cursor, Found, Instruction, Mode};

// Whether the part handed back holds the bytes at that place.
fn body_holds(input: &[u8], cursor: Cursor, mode: Mode, place: usize, len: usize) -> bool {
    walk::body(input, cursor, mode) == file::part(input, place, len)
}

fn opcode(want: &[u8], place: usize, code: u8) -> Option<&[u8]> {
    let rest = expect::number(want, 1)?;
    let rest = expect::size(rest, place)?;
    expect::number(rest, u64::from(code))
}

fn push(want: &[u8], place: usize, form: u64, body: usize, len: usize) -> Option<&[u8]> {
    let rest = expect::number(want, 2)?;
    let rest = expect::size(rest, place)?;
    let rest = expect::number(rest, form)?;
    let rest = expect::size(rest, body)?;
    expect::size(rest, len)
}

// What was found, without the body.
fn expect_found(want: &[u8], found: Found) -> Option<&[u8]> {
    match found {
        Ok(None) => expect::number(want, 0),
        Ok(Some(Instruction::Opcode { place, code })) => opcode(want, place, code),
        Ok(
            Some(
                Instruction::Push {
                    place,
                    form,
                    body,
                    len,
                },
            ),
        ) => push(want, place, on_opcodes::form_number(form), body, len),
        Err(r) => expect::refused(expect::number(want, 3)?, r),
    }
}

// For a push, whether its body holds the right bytes; else nothing, and that the body is empty is part of the answer.
fn expect_body<'a>(
    input: &[u8],
    cursor: Cursor,
    mode: Mode,
    want: &'a [u8],
    found: Found,
) -> Option<&'a [u8]> {
    match found {
        Ok(Some(Instruction::Push { body, len, .. })) => expect::flag(
            want,
            body_holds(input, cursor, mode, body, len),
        ),
        _ => {
            if body_holds(input, cursor, mode, 0, 0) {
                Some(want)
            } else {
                None
            }
        }
    }
}

// The calls up to the end, at most one more than the script has bytes.
fn calls<'a>(input: &[u8], mode: Mode, want: &'a [u8]) -> Option<&'a [u8]> {
    let mut cursor = Cursor::new();
    let mut rest = want;
    for _ in 0..=input.len() {
        let stepped = cursor.next(input, mode);
        rest = expect_found(rest, stepped.found)?;
        rest = expect_body(input, cursor, mode, rest, stepped.found)?;
        rest = expect::size(rest, stepped.next.at)?;
        if stepped.found == Ok(None) {
            break;
        }
        cursor = stepped.next;
    }
    Some(rest)
}

fn entries<'a>(table: &[u32], want: &'a [u8]) -> Option<&'a [u8]> {
    let mut rest = want;
    for place in table {
        rest = expect::number(rest, u64::from(*place))?;
    }
    Some(rest)
}

fn positions_in<'a>(
    input: &[u8],
    mode: Mode,
    table: &mut [u32],
    want: &'a [u8],
) -> Option<&'a [u8]> {
    let answer = places::positions(input, mode, table);
    entries(table, expect::answer(want, answer)?)
}

fn positions<'a>(input: &[u8], mode: Mode, room: usize, want: &'a [u8]) -> Option<&'a [u8]> {
    let mut table = [u32::from(lent::PATTERN); 320];
    positions_in(input, mode, table.get_mut(..room)?, want)
}

pub(crate) fn answer<'a>(kind: u8, room: usize, input: &[u8], want: &'a [u8]) -> Option<&'a [u8]> {
    match kind {
        14 => calls(input, Mode::Plain, want),
        15 => calls(input, Mode::Minimal, want),
        16 => positions(input, Mode::Plain, room, want),
        17 => positions(input, Mode::Minimal, room, want),
        _ => None,
    }
}
