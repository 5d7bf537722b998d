// Prints what the text entries answer at the edges of their inputs, one line for each call. A lent buffer is filled with dots before the call
// and printed whole after it, so that a byte that was not written shows.
// A group of inputs is a function of its own: the groups differ in what they ask, and a table over all of them would have rows of unlike sorts.
#![tactic(auto)]

use std::io;

fn write_into(rt: &impl Print, script: &[u8], out: &mut [u8]) -> io::Result<()> {
    show::text(rt, b"write")?;
    show::named(rt, b"room", out.len())?;
    show::text(rt, b":")?;
    show::answer(rt, text::write_asm(script, out))?;
    show::text(rt, b" [")?;
    show::text(rt, out)?;
    show::text(rt, b"]")?;
    show::line_end(rt)
}

// Room for at most the whole of buffer.
fn write_line(rt: &impl Print, script: &[u8], room: usize) -> io::Result<()> {
    let mut buffer = [b'.'; 256];
    if let Some(out) = buffer.get_mut(..room) {
        write_into(rt, script, out)?;
    }
    Ok(())
}

// The text with just enough room, with one byte too little, and with three bytes more, in a buffer of this program's size.
fn write_lines(rt: &impl Print, script: &[u8], needed: usize) -> io::Result<()> {
    write_line(rt, script, needed)?;
    if 0 < needed {
        write_line(rt, script, needed - 1)?;
    }
    if needed < 250 {
        write_line(rt, script, needed + 3)?;
    }
    Ok(())
}

// The text's length, and then the text.
fn lines(rt: &impl Print, script: &[u8]) -> io::Result<()> {
    show::text(rt, b"script")?;
    show::hex(rt, script)?;
    show::text(rt, b":")?;
    let answer = text::asm_len(script);
    show::answer(rt, answer)?;
    show::line_end(rt)?;
    match answer {
        Ok(needed) => write_lines(rt, script, needed),
        Err(_) => Ok(()),
    }
}

// The script, and each shorter one that is left when it is cut.
fn cuts(rt: &impl Print, script: &[u8]) -> io::Result<()> {
    for n in (1..=script.len()).rev() {
        lines(rt, &script[..n])?;
    }
    Ok(())
}

// The examples of the document, and what stands beside them.
fn examples(rt: &impl Print) -> io::Result<()> {
    for script in [
        b"".as_slice(),
        b"\x00",
        b"\x51\x4c",
        b"\x51\x02\x4e\x73",
        b"\x05\xaa",
        b"\x4c\x00",
    ] {
        lines(rt, script)?;
    }
    Ok(())
}

fn others(rt: &impl Print) -> io::Result<()> {
    for script in [
        b"\x00\x00\x4f\x50".as_slice(),
        b"\x4d\x00\x00\x4e\x00\x00\x00\x00\x51",
        b"\x60\x61\xb1\xb2\xba\xbb\xfe\xff",
        b"\x4e\xff\xff\xff\xff",
        b"\x4b\x4c",
    ] {
        lines(rt, script)?;
    }
    Ok(())
}

// Each form of a push, whole and cut at each point.
fn pushes(rt: &impl Print) -> io::Result<()> {
    for script in [
        b"\x51\x02\xab\xcd".as_slice(),
        b"\x51\x4c\x02\x0f\xf0",
        b"\x51\x4d\x02\x00\x9a\xa9",
        b"\x51\x4e\x02\x00\x00\x00\x00\xff",
    ] {
        cuts(rt, script)?;
    }
    Ok(())
}

// A script that is too long to print: the text's length, and the text with too little room.
fn long_line(rt: &impl Print, script: &[u8]) -> io::Result<()> {
    show::text(rt, b"script of")?;
    show::named(rt, b"bytes", script.len())?;
    show::text(rt, b":")?;
    show::answer(rt, text::asm_len(script))?;
    show::line_end(rt)?;
    write_line(rt, script, 5)
}

fn long_part(rt: &impl Print, script: &[u8], n: usize) -> io::Result<()> {
    if let Some(part) = script.get(..n) {
        long_line(rt, part)?;
    }
    Ok(())
}

// At the limit and one byte over it.
fn long_in(rt: &impl Print, script: &[u8; 4_194_305]) -> io::Result<()> {
    for n in [4_194_304, 4_194_305] {
        long_part(rt, script, n)?;
    }
    Ok(())
}

// The opcode with the longest name, one with a short name, and pushes of 75 bytes of which the last is cut. None is made a part of `main`: the stack has room
// for one such script at a time.
#[inline(never)]
fn longest_names(rt: &impl Print) -> io::Result<()> {
    let script = [0xafu8; 4_194_305];
    long_in(rt, &script)
}

#[inline(never)]
fn short_names(rt: &impl Print) -> io::Result<()> {
    let script = [0x63u8; 4_194_305];
    long_in(rt, &script)
}

#[inline(never)]
fn long_pushes(rt: &impl Print) -> io::Result<()> {
    let script = [75u8; 4_194_305];
    long_in(rt, &script)
}

fn main(rt: HostRuntime) -> io::Result<()> {
    examples(&rt)?;
    others(&rt)?;
    pushes(&rt)?;
    longest_names(&rt)?;
    short_names(&rt)?;
    long_pushes(&rt)
}
