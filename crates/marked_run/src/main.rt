// Prints what the entries answer for document 01's marked examples W1 to W12, one line for each answer, and the inspector's example as it is.
// A group of inputs is a function of its own: the groups differ in what they ask, and a table over all of them would have rows of unlike sorts.
#![tactic(auto)]

use builder::{Builder, Built};
use std::io;
use walk::{Cursor, Mode};

// The example and the question, before the answer. Each call names the handle, the example and the bytes in one line.
fn asked(rt: &impl Print, example: &[u8], question: &[u8]) -> io::Result<()> {
    show::text(rt, example)?;
    show::text(rt, b" ")?;
    show::text(rt, question)?;
    show::text(rt, b":")
}

// One call of the walk: what is found and where the cursor then stands.
fn call(rt: &impl Print, script: &[u8], c: Cursor, mode: Mode) -> io::Result<Cursor> {
    let stepped = c.next(script, mode);
    show::answer(rt, stepped.found)?;
    show::named(rt, b"next", stepped.next.at)?;
    show::line_end(rt)?;
    Ok(stepped.next)
}

fn plain(rt: &impl Print, example: &[u8], script: &[u8], c: Cursor) -> io::Result<Cursor> {
    asked(rt, example, b"plain")?;
    call(rt, script, c, Mode::Plain)
}

fn minimal(rt: &impl Print, example: &[u8], script: &[u8], c: Cursor) -> io::Result<Cursor> {
    asked(rt, example, b"minimal")?;
    call(rt, script, c, Mode::Minimal)
}

// The first call in each mode.
fn first(rt: &impl Print, example: &[u8], script: &[u8]) -> io::Result<()> {
    plain(rt, example, script, Cursor::new())?;
    minimal(rt, example, script, Cursor::new())?;
    Ok(())
}

// Two calls in each mode, the second with the cursor that the first gave back.
fn two(rt: &impl Print, example: &[u8], script: &[u8]) -> io::Result<()> {
    let c = plain(rt, example, script, Cursor::new())?;
    plain(rt, example, script, c)?;
    let c = minimal(rt, example, script, Cursor::new())?;
    minimal(rt, example, script, c)?;
    Ok(())
}

fn kind(rt: &impl Print, example: &[u8], script: &[u8]) -> io::Result<()> {
    asked(rt, example, b"kind")?;
    show::answer(rt, templates::kind(script))?;
    show::line_end(rt)
}

fn dust(rt: &impl Print, example: &[u8], script: &[u8]) -> io::Result<()> {
    asked(rt, example, b"dust")?;
    show::answer(rt, dust::minimal_non_dust(script))?;
    show::line_end(rt)
}

// The text, written to a buffer that is as long as it.
fn asm(rt: &impl Print, example: &[u8], script: &[u8]) -> io::Result<()> {
    let mut out = [0u8; 28];
    asked(rt, example, b"text")?;
    show::answer(rt, text::write_asm(script, &mut out))?;
    show::text(rt, b" ")?;
    show::text(rt, &out)?;
    show::line_end(rt)
}

// A number written, and the whole buffer.
fn write(rt: &impl Print, example: &[u8], number: &[u8], n: i64, out: &mut [u8]) -> io::Result<()> {
    asked(rt, example, number)?;
    show::answer(rt, numbers::write_scriptint(n, out))?;
    show::text(rt, b" bytes")?;
    show::hex(rt, out)?;
    show::line_end(rt)
}

fn read(rt: &impl Print, example: &[u8], v: &[u8]) -> io::Result<()> {
    asked(rt, example, b"strict")?;
    show::answer(rt, numbers::read_scriptint(v))?;
    show::line_end(rt)?;
    asked(rt, example, b"loose")?;
    show::answer(rt, numbers::read_scriptint_non_minimal(v))?;
    show::line_end(rt)
}

fn sigops(rt: &impl Print, example: &[u8], script: &[u8]) -> io::Result<()> {
    asked(rt, example, b"accurate")?;
    show::answer(rt, counts::count_sigops(script))?;
    show::line_end(rt)?;
    asked(rt, example, b"other")?;
    show::answer(rt, counts::count_sigops_legacy(script))?;
    show::line_end(rt)
}

// What a builder's call left: the answer, the whole buffer, and the builder for the next call.
fn left(
    rt: &impl Print,
    example: &[u8],
    question: &[u8],
    built: Built,
    buffer: &[u8],
) -> io::Result<Builder> {
    asked(rt, example, question)?;
    show::answer(rt, built.answer)?;
    show::text(rt, b" bytes")?;
    show::hex(rt, buffer)?;
    show::line_end(rt)?;
    Ok(built.builder)
}

fn w1(rt: &impl Print) -> io::Result<()> {
    first(rt, b"W1", b"")?;
    kind(rt, b"W1", b"")?;
    dust(rt, b"W1", b"")
}

fn w2_to_w5(rt: &impl Print) -> io::Result<()> {
    first(rt, b"W2", b"\x01")?;
    first(rt, b"W3", b"\x01\x05")?;
    first(rt, b"W4", b"\x01\x00")?;
    first(rt, b"W5", b"\x4c\x05")
}

fn w6(rt: &impl Print) -> io::Result<()> {
    two(rt, b"W6", b"\x51\x4c")?;
    asm(rt, b"W6", b"\x51\x4c")
}

fn w7(rt: &impl Print) -> io::Result<()> {
    let mut script = [7u8; 259];
    script[0] = 0x4d;
    script[1] = 0x00;
    script[2] = 0x01;
    two(rt, b"W7", &script)
}

fn w8(rt: &impl Print) -> io::Result<()> {
    write(rt, b"W8", b"127", 127, &mut [0u8; 1])?;
    write(rt, b"W8", b"128", 128, &mut [0u8; 2])?;
    write(rt, b"W8", b"-255", -255, &mut [0u8; 2])?;
    write(rt, b"W8", b"2147483647", 2147483647, &mut [0u8; 4])
}

fn w9_to_w11(rt: &impl Print) -> io::Result<()> {
    read(rt, b"W9", b"\x80")?;
    sigops(rt, b"W10", b"\x52\xae\xae")?;
    sigops(rt, b"W11", b"\x52\xac\xae")
}

fn verify(
    rt: &impl Print,
    question: &[u8],
    builder: Builder,
    buffer: &mut [u8],
) -> io::Result<Builder> {
    left(rt, b"W12", question, builder.push_verify(buffer), buffer)
}

fn w12(rt: &impl Print) -> io::Result<()> {
    let mut one = [0u8; 1];
    let equal = Builder::new().push_opcode(&mut one, 0x87);
    let builder = verify(rt, b"verify", equal.builder, &mut one)?;
    let mut more = [one[0], 0];
    verify(rt, b"again", builder, &mut more)?;
    Ok(())
}

// The inspector's whole output, in a buffer that is as long as it.
fn screen(rt: &impl Print, script: &[u8]) -> io::Result<()> {
    let mut out = [0u8; 75];
    let _ = inspect::inspect(script, &mut out);
    show::text(rt, &out)
}

fn walks(rt: &impl Print) -> io::Result<()> {
    w1(rt)?;
    w2_to_w5(rt)?;
    w6(rt)?;
    w7(rt)
}

fn main(rt: HostRuntime) -> io::Result<()> {
    walks(&rt)?;
    w8(&rt)?;
    w9_to_w11(&rt)?;
    w12(&rt)?;
    screen(&rt, b"\x51\x02\x4e\x73")
}
