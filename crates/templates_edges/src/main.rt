// Prints what the template entries answer at the edges of their inputs, one line for each script.
// A group of inputs is a function of its own: the groups differ in what they ask, and a table over all of them would have rows of unlike sorts.
#![tactic(auto)]

use refusal::Refusal;
use std::io;
use templates::Place;

fn kind(rt: &impl Print, script: &[u8]) -> io::Result<()> {
    show::answer(rt, templates::kind(script))
}

fn version(rt: &impl Print, script: &[u8]) -> io::Result<()> {
    match templates::witness_version(script) {
        Ok(Some(v)) => show::named(rt, b"version", v as usize),
        Ok(None) => show::text(rt, b" version nothing"),
        Err(r) => show::refused(rt, r),
    }
}

fn place(rt: &impl Print, found: Result<Option<Place>, Refusal>, part: &[u8]) -> io::Result<()> {
    match found {
        Ok(Some(Place { start, len })) => print!(rt; " at {start} of {len}")?,
        Ok(None) => show::text(rt, b" nothing")?,
        Err(r) => show::refused(rt, r)?,
    }
    show::text(rt, b" [")?;
    show::hex(rt, part)?;
    show::text(rt, b" ]")
}

fn places(rt: &impl Print, script: &[u8]) -> io::Result<()> {
    show::text(rt, b" key")?;
    place(
        rt,
        templates::p2pk_key(script),
        templates::p2pk_key_part(script),
    )?;
    show::text(rt, b" redeem")?;
    place(
        rt,
        templates::redeem_script(script),
        templates::redeem_part(script),
    )
}

fn judgements(rt: &impl Print, script: &[u8]) -> io::Result<()> {
    for (name, answer) in [
        ("p2pkh", templates::is_p2pkh(script)),
        ("p2sh", templates::is_p2sh(script)),
        ("p2wpkh", templates::is_p2wpkh(script)),
        ("p2wsh", templates::is_p2wsh(script)),
        ("p2tr", templates::is_p2tr(script)),
        ("p2a", templates::is_p2a(script)),
        ("witness", templates::is_witness_program(script)),
        ("p2pk", templates::is_p2pk(script)),
        ("opreturn", templates::is_op_return(script)),
        ("multisig", templates::is_multisig(script)),
        ("pushonly", templates::is_push_only(script)),
    ] {
        print!(rt; " {name}")?;
        show::answer(rt, answer)?;
    }
    Ok(())
}

// Every answer for one script.
fn all(rt: &impl Print, script: &[u8]) -> io::Result<()> {
    show::text(rt, b"script")?;
    if script.len() < 70 {
        show::hex(rt, script)?;
    }
    show::named(rt, b"bytes", script.len())?;
    show::text(rt, b":")?;
    kind(rt, script)?;
    version(rt, script)?;
    places(rt, script)?;
    judgements(rt, script)?;
    show::line_end(rt)
}

// The bytes of a frame for scripts of up to 70 bytes.
fn put(s: &mut [u8; 70], i: usize, byte: u8) {
    if let Some(slot) = s.get_mut(i) {
        *slot = byte;
    }
}

fn put_back(s: &mut [u8; 70], n: usize, back: usize, byte: u8) {
    if let Some(i) = n.checked_sub(back) {
        put(s, i, byte);
    }
}

// The first n bytes, or all where there are fewer.
fn front(s: &[u8], n: usize) -> &[u8] {
    s.get(..n).unwrap_or(s)
}

// The kind of n bytes that start and end so, with 0x77 between.
fn framed(rt: &impl Print, n: usize, start: [u8; 3], end: [u8; 2]) -> io::Result<()> {
    let mut s = [0x77u8; 70];
    put(&mut s, 0, start[0]);
    put(&mut s, 1, start[1]);
    put(&mut s, 2, start[2]);
    put_back(&mut s, n, 2, end[0]);
    put_back(&mut s, n, 1, end[1]);
    kind(rt, front(&s, n))
}

// Two less than n, as a byte.
fn size(n: usize) -> u8 {
    u8::try_from(n.saturating_sub(2)).unwrap_or(0)
}

// The frames of the fixed templates at one length: each is its kind at its own lengths alone.
fn length_line(rt: &impl Print, n: usize) -> io::Result<()> {
    show::named(rt, b"bytes", n)?;
    show::text(rt, b":")?;
    for (start, end) in [
        ([0x76, 0xa9, 0x14], [0x88, 0xac]),
        ([0xa9, 0x14, 0x77], [0x77, 0x87]),
        ([0x00, size(n), 0x77], [0x77, 0x77]),
        ([0x51, size(n), 0x77], [0x77, 0x77]),
        ([0x60, size(n), 0x77], [0x77, 0x77]),
        ([0x51, 0x02, 0x4e], [0x4e, 0x73]),
        ([size(n), 0x77, 0x77], [0x77, 0xac]),
        ([0x6a, 0x77, 0x77], [0x77, 0x77]),
    ] {
        framed(rt, n, start, end)?;
    }
    show::line_end(rt)
}

fn lengths(rt: &impl Print) -> io::Result<()> {
    for n in 0..71 {
        length_line(rt, n)?;
    }
    Ok(())
}

// A multisig of one signature with so many keys of one byte each, and this opcode for their count.
fn keys_line(rt: &impl Print, keys: usize, count: u8) -> io::Result<()> {
    let mut s = [1u8; 600];
    if 290 < keys {
        return Ok(());
    }
    s[0] = 0x51;
    s[2 * keys + 1] = count;
    s[2 * keys + 2] = 0xae;
    show::named(rt, b"keys", keys)?;
    show::named(rt, b"count", count as usize)?;
    show::text(rt, b":")?;
    kind(rt, front(&s, 2 * keys + 3))?;
    show::line_end(rt)
}

// Key counts around the number opcodes and around 255, each with a number opcode and with another one.
fn keys(rt: &impl Print) -> io::Result<()> {
    for (keys, count) in [
        (0, 0x51),
        (0, 0x4f),
        (1, 0x51),
        (1, 0x52),
        (1, 0x4f),
        (16, 0x60),
        (16, 0x5f),
        (17, 0x60),
        (17, 0x4f),
        (255, 0x4f),
        (256, 0x4f),
        (257, 0x4f),
        (257, 0x51),
    ] {
        keys_line(rt, keys, count)?;
    }
    Ok(())
}

fn multisigs(rt: &impl Print) -> io::Result<()> {
    for script in [
        b"\x51\x01\xaa\x4f\xae".as_slice(),
        b"\x51\x01\xaa\x6a\xae",
        b"\x51\x01\xaa\xae\xae",
        b"\x51\x01\xaa\x00\xae",
        b"\x52\x01\xaa\x51\xae",
        b"\x51\x01\xaa\x51\xae\x51",
        b"\x51\x01\xaa\x51\xaf",
        b"\x51\x00\x51\xae",
        b"\x50\x01\xaa\x51\xae",
        b"\x51\x01\xaa\x51\xae\x01",
    ] {
        all(rt, script)?;
    }
    Ok(())
}

fn pushes(rt: &impl Print) -> io::Result<()> {
    for script in [b"\x50".as_slice(), b"\x60", b"\x61", b"\x4f\x00\x01\x61"] {
        all(rt, script)?;
    }
    Ok(())
}

fn redeems(rt: &impl Print) -> io::Result<()> {
    for script in [
        b"".as_slice(),
        b"\x00",
        b"\x51",
        b"\x01",
        b"\x01\xaa",
        b"\x01\xaa\x4c\x02\xbb\xcc",
        b"\x01\xaa\x4c\x02\xbb",
        b"\x02\xbb\xcc\x51",
        b"\x01\xaa\x00",
    ] {
        all(rt, script)?;
    }
    Ok(())
}

fn anchors(rt: &impl Print) -> io::Result<()> {
    for script in [
        b"\x51\x02\x4e\x73".as_slice(),
        b"\x51\x02\x4e\x74",
        b"\x00\x02\x4e\x73",
        b"\x61\x02\x4e\x73",
        b"\x6a",
        b"\x6a\x61",
    ] {
        all(rt, script)?;
    }
    Ok(())
}

fn code_line(rt: &impl Print, script: &[u8], out: &mut [u8]) -> io::Result<()> {
    show::named(rt, b"script code of", script.len())?;
    show::named(rt, b"room", out.len())?;
    show::text(rt, b":")?;
    let coded = templates::p2wpkh_script_code(script, out);
    match coded {
        Ok(Some(n)) => show::named(rt, b"bytes", n)?,
        Ok(None) => show::text(rt, b" nothing")?,
        Err(r) => show::refused(rt, r)?,
    }
    show::hex(rt, out)?;
    show::line_end(rt)
}

// The script code with room to spare, with just enough, one byte short, and for a script that is no P2WPKH.
fn codes(rt: &impl Print) -> io::Result<()> {
    let mut script = [0x77u8; 22];
    script[0] = 0;
    script[1] = 20;
    let mut more = [9u8; 27];
    code_line(rt, &script, &mut more)?;
    let mut exact = [9u8; 25];
    code_line(rt, &script, &mut exact)?;
    let mut short = [9u8; 24];
    code_line(rt, &script, &mut short)?;
    script[0] = 0x51;
    let mut none = [9u8; 2];
    code_line(rt, &script, &mut none)
}

// At the limit and one byte over it.
fn over_in(rt: &impl Print, script: &[u8; 4_194_305]) -> io::Result<()> {
    all(rt, front(script, 4_194_304))?;
    all(rt, script)?;
    let mut out = [9u8; 2];
    code_line(rt, script, &mut out)
}

fn over(rt: &impl Print) -> io::Result<()> {
    let script = [0x61u8; 4_194_305];
    over_in(rt, &script)
}

fn main(rt: HostRuntime) -> io::Result<()> {
    lengths(&rt)?;
    keys(&rt)?;
    multisigs(&rt)?;
    pushes(&rt)?;
    redeems(&rt)?;
    anchors(&rt)?;
    codes(&rt)?;
    over(&rt)
}
