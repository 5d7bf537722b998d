// Prints what the walk answers at the edges of its inputs, one line for each call.
// A group of inputs is a function of its own: the groups differ in what they ask, and a table over all of them would have rows of unlike sorts.
// Each call names the handle, what is asked and the bytes in one line.
#![tactic(auto)]

use std::io;
use walk::{Cursor, Mode};

fn mode_name(mode: Mode) -> &'static str {
    match mode {
        Mode::Plain => "plain",
        Mode::Minimal => "minimal",
    }
}

// One call: what is found, the next cursor, the body's length as the second call hands it back, and the size.
fn step(rt: &impl Print, script: &[u8], c: Cursor, mode: Mode) -> io::Result<Cursor> {
    let stepped = c.next(script, mode);
    let name = mode_name(mode);
    let at = c.at;
    print!(rt; "{name} at {at}:")?;
    show::answer(rt, stepped.found)?;
    show::named(rt, b"next", stepped.next.at)?;
    show::named(rt, b"part", walk::body(script, c, mode).len())?;
    show::text(rt, b" size")?;
    show::answer(rt, c.size(script, mode))?;
    show::line_end(rt)?;
    Ok(stepped.next)
}

// Three calls, each given the cursor that the one before gave back.
fn walk_lines(rt: &impl Print, script: &[u8], mode: Mode) -> io::Result<()> {
    let mut c = Cursor::new();
    for _ in 0..3 {
        c = step(rt, script, c, mode)?;
    }
    Ok(())
}

fn both(rt: &impl Print, script: &[u8]) -> io::Result<()> {
    show::text(rt, b"script")?;
    if script.len() < 9 {
        show::hex(rt, script)?;
    }
    show::named(rt, b"bytes", script.len())?;
    show::line_end(rt)?;
    walk_lines(rt, script, Mode::Plain)?;
    walk_lines(rt, script, Mode::Minimal)
}

fn positions_line(rt: &impl Print, script: &[u8], mode: Mode, table: &mut [u32]) -> io::Result<()> {
    let name = mode_name(mode);
    let bytes = script.len();
    let room = table.len();
    print!(rt; "positions {name} bytes {bytes} room {room}:")?;
    show::answer(rt, places::positions(script, mode, table))?;
    show::text(rt, b" first")?;
    if let [a, b, c, ..] = table {
        print!(rt; " {a} {b} {c}")?;
    }
    show::line_end(rt)
}

// With room for so many places, of at most eight.
fn table(rt: &impl Print, script: &[u8], mode: Mode, room: usize) -> io::Result<()> {
    let mut whole = [9u32; 8];
    if let Some(part) = whole.get_mut(..room) {
        positions_line(rt, script, mode, part)?;
    }
    Ok(())
}

fn tables(rt: &impl Print, script: &[u8]) -> io::Result<()> {
    for room in [3, 2, 5] {
        table(rt, script, Mode::Plain, room)?;
    }
    table(rt, script, Mode::Minimal, 5)
}

// The first n bytes of a long script: all places, with room for eight, and a call at the end and past it.
fn first_part(rt: &impl Print, script: &[u8], n: usize) -> io::Result<()> {
    if n <= script.len() {
        let part = &script[..n];
        table(rt, part, Mode::Minimal, 8)?;
        step(rt, part, Cursor { at: n }, Mode::Plain)?;
        step(rt, part, Cursor { at: n + 1 }, Mode::Plain)?;
    }
    Ok(())
}

// A long script at two lengths.
fn long_in<const N: usize>(
    rt: &impl Print,
    script: &[u8; N],
    lengths: [usize; 2],
) -> io::Result<()> {
    for n in lengths {
        first_part(rt, script, n)?;
    }
    Ok(())
}

// At the limit and one byte over it.
fn long_opcodes(rt: &impl Print) -> io::Result<()> {
    let script = [0x61u8; 4_194_305];
    long_in(rt, &script, [4_194_304, 4_194_305])
}

// As many pushes of 75 bytes as the limit holds, and one byte of another, which is cut.
fn long_pushes(rt: &impl Print) -> io::Result<()> {
    let script = [75u8; 4_194_304];
    long_in(rt, &script, [4_194_288, 4_194_289])
}

// Pushes of one byte: the number opcodes' bodies, and those beside them.
fn one_byte(rt: &impl Print) -> io::Result<()> {
    for script in [
        b"\x01".as_slice(),
        b"\x01\x00",
        b"\x01\x05",
        b"\x01\x10",
        b"\x01\x11",
        b"\x01\x81",
    ] {
        both(rt, script)?;
    }
    Ok(())
}

// Length bytes cut, bodies cut, length bytes that say too little.
fn cuts(rt: &impl Print) -> io::Result<()> {
    for script in [
        b"\x4c".as_slice(),
        b"\x4c\x05",
        b"\x51\x4c",
        b"\x4d\x05",
        b"\x4e\xff\xff\xff\xff",
        b"\x4b",
        b"\x51\x4b\xaa",
        b"\x4d\x01",
        b"\x4e\x05\x00\x00\x00\xaa",
    ] {
        both(rt, script)?;
    }
    Ok(())
}

// One push in the longest form, cut behind each of its bytes, and whole.
fn one_cut(rt: &impl Print) -> io::Result<()> {
    for script in [
        b"\x4e".as_slice(),
        b"\x4e\x03",
        b"\x4e\x03\x00",
        b"\x4e\x03\x00\x00",
        b"\x4e\x03\x00\x00\x00",
        b"\x4e\x03\x00\x00\x00\xaa",
        b"\x4e\x03\x00\x00\x00\xaa\xbb",
        b"\x4e\x03\x00\x00\x00\xaa\xbb\xcc",
    ] {
        both(rt, script)?;
    }
    Ok(())
}

fn whole(rt: &impl Print) -> io::Result<()> {
    for script in [
        b"".as_slice(),
        b"\x4c\x00",
        b"\x4e\x01\x00\x00\x00\xaa",
        b"\x00\x4f\x50",
        b"\xff\x02\x01\x02",
    ] {
        both(rt, script)?;
    }
    Ok(())
}

fn long_forms(rt: &impl Print) -> io::Result<()> {
    let mut data2 = [7u8; 259];
    data2[0] = 0x4d;
    data2[1] = 0;
    data2[2] = 1;
    both(rt, &data2)?;
    let mut data1 = [7u8; 78];
    data1[0] = 0x4c;
    data1[1] = 76;
    both(rt, &data1)?;
    both(rt, &data1[..77])
}

// The longest bodies for which two of the length forms are too long, whole.
fn wasteful_forms(rt: &impl Print) -> io::Result<()> {
    let mut data1 = [7u8; 77];
    data1[0] = 0x4c;
    data1[1] = 75;
    both(rt, &data1)?;
    let mut data2 = [7u8; 258];
    data2[0] = 0x4d;
    data2[1] = 255;
    data2[2] = 0;
    both(rt, &data2)
}

// Whole scripts, one whose body is cut, length bytes cut, and bodies that are cut before their first byte.
fn all_tables(rt: &impl Print) -> io::Result<()> {
    for script in [
        b"\x51\x52\xae".as_slice(),
        b"\x51\x01\x05\xae",
        b"\x51\x52\x02\xae",
        b"\x51\x52\x4d\x01",
        b"\x51\x4c\x05",
        b"\x4b",
        b"\x4e\xff\xff\xff\xff",
    ] {
        tables(rt, script)?;
    }
    Ok(())
}

fn main(rt: HostRuntime) -> io::Result<()> {
    whole(&rt)?;
    one_byte(&rt)?;
    cuts(&rt)?;
    one_cut(&rt)?;
    long_forms(&rt)?;
    wasteful_forms(&rt)?;
    all_tables(&rt)?;
    long_opcodes(&rt)?;
    long_pushes(&rt)
}
