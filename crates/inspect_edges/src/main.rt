// Prints what `inspect` answers at the edges of its inputs. A lent buffer is filled with dots before the call and printed after it, so that a byte
// that was not written shows.
// A group of inputs is a function of its own: the groups differ in what they ask, and a table over all of them would have rows of unlike sorts.
#![tactic(auto)]

use std::io;

// How much of a long screen is printed.
const FRONT: usize = 64;

fn inspect_into(rt: &impl Print, script: &[u8], out: &mut [u8]) -> io::Result<()> {
    show::named(rt, b"room", out.len())?;
    show::text(rt, b":")?;
    show::answer(rt, inspect::inspect(script, out))?;
    show::text(rt, b" [")?;
    show::text(rt, out)?;
    show::text(rt, b"]")?;
    show::line_end(rt)
}

// Room for at most the whole of buffer.
fn inspect_in(rt: &impl Print, script: &[u8], room: usize) -> io::Result<()> {
    let mut buffer = [b'.'; 128];
    if let Some(out) = buffer.get_mut(..room) {
        inspect_into(rt, script, out)?;
    }
    Ok(())
}

// The screen with just enough room, with one byte too little, and with three bytes more, in a buffer of this program's size.
fn rooms(rt: &impl Print, script: &[u8], needed: usize) -> io::Result<()> {
    inspect_in(rt, script, needed)?;
    if 0 < needed {
        inspect_in(rt, script, needed - 1)?;
    }
    if needed < 100 {
        inspect_in(rt, script, needed + 3)?;
    }
    Ok(())
}

// The first n bytes.
fn print_part(rt: &impl Print, out: &[u8], n: usize) -> io::Result<()> {
    show::text(rt, out.get(..n).unwrap_or(b""))
}

// A screen that is too long to print: what stands at the front of the buffer.
fn long_into(rt: &impl Print, script: &[u8], out: &mut [u8]) -> io::Result<()> {
    show::named(rt, b"bytes", script.len())?;
    show::named(rt, b"room", out.len())?;
    show::text(rt, b":")?;
    show::answer(rt, inspect::inspect(script, out))?;
    show::text(rt, b" [")?;
    print_part(rt, out, FRONT)?;
    show::text(rt, b"]")?;
    show::line_end(rt)
}

fn long_in(rt: &impl Print, script: &[u8], room: usize) -> io::Result<()> {
    let mut buffer = [b'.'; 20_000];
    if let Some(out) = buffer.get_mut(..room) {
        long_into(rt, script, out)?;
    }
    Ok(())
}

// The longest script that is inspected.
fn longest(rt: &impl Print) -> io::Result<()> {
    let script = [0x63u8; 2800];
    for room in [20_000, 16_848, 16_847] {
        long_in(rt, &script, room)?;
    }
    Ok(())
}

// One byte more.
fn too_long(rt: &impl Print) -> io::Result<()> {
    let script = [0x63u8; 2801];
    long_in(rt, &script, 20_000)?;
    long_in(rt, &script, 64)?;
    inspect_in(rt, &script, 13)?;
    inspect_in(rt, &script, 12)
}

// The screen as it is.
fn screen(rt: &impl Print, script: &[u8]) -> io::Result<()> {
    let mut out = [b'.'; 192];
    let answer = inspect::inspect(script, &mut out);
    match answer {
        Ok(n) => print_part(rt, &out, n),
        Err(r) => show::refused(rt, r),
    }
}

// A script of each kind, in the order of the paper.
fn screens(rt: &impl Print) -> io::Result<()> {
    for script in [
        b"\x76\xa9\x14\x10\x11\x12\x13\x14\x15\x16\x17\x18\x19\x1a\x1b\x1c\x1d\x1e\x1f\x20\x21\x22\x23\x88\xac".as_slice(),
        b"\xa9\x14\x10\x11\x12\x13\x14\x15\x16\x17\x18\x19\x1a\x1b\x1c\x1d\x1e\x1f\x20\x21\x22\x23\x87",
        b"\x00\x14\x10\x11\x12\x13\x14\x15\x16\x17\x18\x19\x1a\x1b\x1c\x1d\x1e\x1f\x20\x21\x22\x23",
        b"\x00\x20\x20\x21\x22\x23\x24\x25\x26\x27\x28\x29\x2a\x2b\x2c\x2d\x2e\x2f\x30\x31\x32\x33\x34\x35\x36\x37\x38\x39\x3a\x3b\x3c\x3d\x3e\x3f",
        b"\x51\x20\x20\x21\x22\x23\x24\x25\x26\x27\x28\x29\x2a\x2b\x2c\x2d\x2e\x2f\x30\x31\x32\x33\x34\x35\x36\x37\x38\x39\x3a\x3b\x3c\x3d\x3e\x3f",
        b"\x51\x02\x4e\x73",
        b"\x60\x02\x4e\x73",
        b"\x21\x02\x20\x21\x22\x23\x24\x25\x26\x27\x28\x29\x2a\x2b\x2c\x2d\x2e\x2f\x30\x31\x32\x33\x34\x35\x36\x37\x38\x39\x3a\x3b\x3c\x3d\x3e\x3f\xac",
        b"\x51\x01\xaa\x51\xae",
        b"\x6a\x01\xaa",
        b"\x52\xae\xae",
    ] {
        screen(rt, script)?;
    }
    Ok(())
}

fn main(rt: HostRuntime) -> io::Result<()> {
    screens(&rt)?;
    rooms(&rt, b"", 45)?;
    rooms(&rt, b"\x52\xae\xae", 93)?;
    rooms(&rt, b"\x01", 75)?;
    longest(&rt)?;
    too_long(&rt)
}
