// Prints what the builder's calls leave at the edges of their inputs, one line for each call: the answer, the builder for the next call, and the
// first bytes of the buffer. A buffer is filled with 0xee before the first call, so that a byte that was not written shows.
// A group of inputs is a function of its own: the groups differ in what they ask, and a table over all of them would have rows of unlike sorts.
// Each call names the handle, what is asked and the bytes in one line.
#![tactic(auto)]

use builder::{Builder, Built};
use std::io;

fn remembers(rt: &impl Print, remembered: Option<u8>) -> io::Result<()> {
    match remembered {
        Some(code) => {
            let one = [code];
            show::text(rt, b" remembers")?;
            show::hex(rt, &one)
        }
        None => show::text(rt, b" remembers nothing"),
    }
}

// At most ten bytes.
fn first_bytes(rt: &impl Print, buffer: &[u8]) -> io::Result<()> {
    show::text(rt, b" buffer")?;
    show::hex(rt, buffer.get(..10).unwrap_or(buffer))
}

// What a call left, and the builder for the next one.
fn left(rt: &impl Print, call: &[u8], built: Built, buffer: &[u8]) -> io::Result<Builder> {
    let builder = built.builder;
    show::text(rt, call)?;
    show::text(rt, b":")?;
    show::answer(rt, built.answer)?;
    show::named(rt, b"length", builder.length)?;
    remembers(rt, builder.remembered)?;
    show::named(rt, b"shown", builder.as_bytes(buffer).len())?;
    first_bytes(rt, buffer)?;
    show::line_end(rt)?;
    Ok(builder)
}

fn start(rt: &impl Print, buffer: &[u8], length: usize) -> io::Result<Builder> {
    left(rt, b"start", Builder::start(buffer, length), buffer)
}

fn opcode(rt: &impl Print, builder: Builder, buffer: &mut [u8], code: u8) -> io::Result<Builder> {
    left(rt, b"opcode", builder.push_opcode(buffer, code), buffer)
}

fn slice(rt: &impl Print, builder: Builder, buffer: &mut [u8], body: &[u8]) -> io::Result<Builder> {
    left(rt, b"push", builder.push_slice(buffer, body), buffer)
}

fn int(rt: &impl Print, builder: Builder, buffer: &mut [u8], n: i64) -> io::Result<Builder> {
    left(rt, b"int", builder.push_int(buffer, n), buffer)
}

fn verify(rt: &impl Print, builder: Builder, buffer: &mut [u8]) -> io::Result<Builder> {
    left(rt, b"verify", builder.push_verify(buffer), buffer)
}

// A body of so many bytes.
fn slice_of(rt: &impl Print, buffer: &mut [u8], body: &[u8], len: usize) -> io::Result<()> {
    if let Some(part) = body.get(..len) {
        slice(rt, Builder::new(), buffer, part)?;
    }
    Ok(())
}

// The length forms at both sides of where they change.
fn forms(rt: &impl Print) -> io::Result<()> {
    let body = [0xaau8; 65536];
    let mut buffer = [0xeeu8; 65541];
    for len in [0, 75, 76, 255, 256, 65535, 65536] {
        slice_of(rt, &mut buffer, &body, len)?;
    }
    Ok(())
}

fn int_line(rt: &impl Print, n: i64) -> io::Result<()> {
    let mut buffer = [0xeeu8; 10];
    int(rt, Builder::new(), &mut buffer, n)?;
    Ok(())
}

fn ints(rt: &impl Print) -> io::Result<()> {
    for n in [
        -1,
        0,
        1,
        16,
        17,
        128,
        -255,
        2147483648,
        i64::MIN + 1,
        i64::MIN,
    ] {
        int_line(rt, n)?;
    }
    Ok(())
}

// Document 01's W12: verify in one byte; again, with no room; and with room for one more.
fn marked(rt: &impl Print) -> io::Result<()> {
    let mut one = [0x87u8; 1];
    let builder = verify(rt, start(rt, &one, 1)?, &mut one)?;
    verify(rt, builder, &mut one)?;
    let mut two = [0x88u8, 0xee];
    verify(rt, start(rt, &two, 1)?, &mut two)?;
    Ok(())
}

// What was remembered wins over what a walk would say: `01 87` is one push, and verify folds the 87.
fn remembered(rt: &impl Print) -> io::Result<()> {
    let mut buffer = [0xeeu8; 4];
    let first = opcode(rt, Builder::new(), &mut buffer, 0x01)?;
    let second = opcode(rt, first, &mut buffer, 0x87)?;
    let third = verify(rt, second, &mut buffer)?;
    let fourth = int(rt, third, &mut buffer, 0)?;
    verify(rt, fourth, &mut buffer)?;
    Ok(())
}

// After a data push nothing is remembered, so that verify appends.
fn forgotten(rt: &impl Print) -> io::Result<()> {
    let mut buffer = [0xeeu8; 6];
    let first = opcode(rt, Builder::new(), &mut buffer, 0x87)?;
    let second = slice(rt, first, &mut buffer, b"\x05")?;
    verify(rt, second, &mut buffer)?;
    Ok(())
}

// Exact room, and one byte short.
fn room(rt: &impl Print) -> io::Result<()> {
    let mut four = [0xeeu8; 4];
    slice(rt, Builder::new(), &mut four, b"abc")?;
    let mut three = [0xeeu8; 3];
    slice(rt, Builder::new(), &mut three, b"abc")?;
    let mut none = [0xeeu8; 0];
    opcode(rt, Builder::new(), &mut none, 0x51)?;
    Ok(())
}

// A length over the limit, one over the buffer's, an opcode remembered with no byte used, and another last byte. -2^63 comes after these.
fn bad(rt: &impl Print) -> io::Result<()> {
    let mut buffer = [0xeeu8; 3];
    let nothing = None;
    let equal = Some(0x87);
    let long = Builder {
        length: 4194305,
        remembered: nothing,
    };
    let over = Builder {
        length: 4,
        remembered: nothing,
    };
    let empty = Builder {
        length: 0,
        remembered: equal,
    };
    let other = Builder {
        length: 1,
        remembered: equal,
    };
    opcode(rt, long, &mut buffer, 0x51)?;
    int(rt, over, &mut buffer, i64::MIN)?;
    slice(rt, empty, &mut buffer, b"")?;
    verify(rt, other, &mut buffer)?;
    Ok(())
}

// Bytes that are taken over.
fn starts(rt: &impl Print) -> io::Result<()> {
    for (buffer, length) in [
        (b"\x87".as_slice(), 1),
        (b"\x00", 1),
        (b"\x01\x87", 2),
        (b"\x4c", 1),
        (b"\x01\x87\x87\xac", 3),
        (b"", 0),
        (b"\x87", 2),
        (b"\x87", 4194305),
    ] {
        start(rt, buffer, length)?;
    }
    Ok(())
}

fn times(rt: &impl Print) -> io::Result<()> {
    let mut buffer = [0xeeu8; 12];
    let first = left(
        rt,
        b"lock time",
        Builder::new().push_lock_time(&mut buffer, 500000),
        &buffer,
    )?;
    left(
        rt,
        b"sequence",
        first.push_sequence(&mut buffer, 4294967295),
        &buffer,
    )?;
    Ok(())
}

fn main(rt: HostRuntime) -> io::Result<()> {
    forms(&rt)?;
    ints(&rt)?;
    marked(&rt)?;
    remembered(&rt)?;
    forgotten(&rt)?;
    room(&rt)?;
    bad(&rt)?;
    starts(&rt)?;
    times(&rt)
}
