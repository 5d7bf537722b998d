// Prints signature counts, dust amounts and witness scripts at the edges of their inputs, one line for each call. A lent buffer is filled with 0xee
// before the call and printed whole after it, so that a byte that was not written shows.
// A group of inputs is a function of its own: the groups differ in what they ask, and a table over all of them would have rows of unlike sorts.
#![tactic(auto)]

use refusal::Refusal;
use std::io;

// A script by its bytes, or by their count where there are many.
fn script_name(rt: &impl Print, script: &[u8]) -> io::Result<()> {
    if script.len() < 13 {
        show::hex(rt, script)?;
    } else {
        show::named(rt, b"bytes", script.len())?;
    }
    show::text(rt, b":")
}

fn count_line(rt: &impl Print, script: &[u8]) -> io::Result<()> {
    show::text(rt, b"sigops")?;
    script_name(rt, script)?;
    show::answer(rt, counts::count_sigops(script))?;
    show::text(rt, b" legacy")?;
    show::answer(rt, counts::count_sigops_legacy(script))?;
    show::line_end(rt)
}

fn dust(rt: &impl Print, answer: Result<u64, Refusal>) -> io::Result<()> {
    match answer {
        Ok(n) => print!(rt; " satoshi {n}"),
        Err(r) => show::refused(rt, r),
    }
}

fn dust_line(rt: &impl Print, script: &[u8]) -> io::Result<()> {
    show::text(rt, b"dust")?;
    script_name(rt, script)?;
    dust(rt, dust::minimal_non_dust(script))?;
    show::line_end(rt)
}

fn custom_line(rt: &impl Print, script: &[u8], rate: u64) -> io::Result<()> {
    print!(rt; "rate {rate}")?;
    script_name(rt, script)?;
    dust(rt, dust::minimal_non_dust_custom(script, rate))?;
    show::line_end(rt)
}

// What a number opcode does for the multisig directly after it, and for no other.
fn numbers_before(rt: &impl Print) -> io::Result<()> {
    for script in [
        b"".as_slice(),
        b"\x52\xae\xae",
        b"\x52\xac\xae",
        b"\x52\xae\x53\xaf",
        b"\x52\x01\xaa\xae",
        b"\x02\x51\x52\xae",
    ] {
        count_line(rt, script)?;
    }
    Ok(())
}

fn opcodes_before(rt: &impl Print) -> io::Result<()> {
    for script in [
        b"\x00\xae".as_slice(),
        b"\x50\xae",
        b"\x51\xae",
        b"\x60\xaf",
        b"\x61\xae",
        b"\xac\xad\xae\xaf",
        b"\xab\xb0\xba",
    ] {
        count_line(rt, script)?;
    }
    Ok(())
}

fn cut_scripts(rt: &impl Print) -> io::Result<()> {
    for script in [
        b"\xac\x4c".as_slice(),
        b"\xac\x02\xac",
        b"\xac\x4d\x01\x00\xac\xac\x4b",
        b"\x4e\xff\xff\xff\xff\xac",
    ] {
        count_line(rt, script)?;
    }
    Ok(())
}

// Twenty keys, whose number no opcode states, and sixteen.
fn many_keys(rt: &impl Print) -> io::Result<()> {
    let mut twenty = [33u8; 684];
    twenty[0] = 0x51;
    twenty[681] = 1;
    twenty[682] = 20;
    twenty[683] = 0xae;
    count_line(rt, &twenty)?;
    let mut sixteen = [33u8; 547];
    sixteen[0] = 0x51;
    sixteen[545] = 0x60;
    sixteen[546] = 0xae;
    count_line(rt, &sixteen)
}

fn short_dust(rt: &impl Print) -> io::Result<()> {
    for script in [
        b"".as_slice(),
        b"\x6a",
        b"\x6a\x01\x00",
        b"\x51\x01\x4e",
        b"\x51\x02\x4e\x73",
        b"\x50\x02\x4e\x73",
        b"\x51\x03\x4e\x73",
    ] {
        dust_line(rt, script)?;
    }
    Ok(())
}

// Witness scripts of 22, 34 and 42 bytes, and one byte more than the longest.
fn witness_dust(rt: &impl Print) -> io::Result<()> {
    let mut key = [0u8; 22];
    key[1] = 20;
    dust_line(rt, &key)?;
    let mut hash = [0u8; 34];
    hash[1] = 32;
    dust_line(rt, &hash)?;
    let mut longest = [0u8; 42];
    longest[0] = 0x60;
    longest[1] = 40;
    dust_line(rt, &longest)?;
    let mut longer = [0u8; 43];
    longer[0] = 0x60;
    longer[1] = 41;
    dust_line(rt, &longer)
}

// The first n bytes of a long script.
fn first_part(rt: &impl Print, script: &[u8], n: usize) -> io::Result<()> {
    if let Some(part) = script.get(..n) {
        count_line(rt, part)?;
        dust_line(rt, part)?;
        custom_line(rt, part, 750)?;
    }
    Ok(())
}

// Where the length is stated in more bytes, at the limit and one byte over it.
fn lengths_in(rt: &impl Print, script: &[u8; 4_194_305]) -> io::Result<()> {
    for n in [252, 253, 65535, 65536, 4_194_304, 4_194_305] {
        first_part(rt, script, n)?;
    }
    Ok(())
}

fn lengths(rt: &impl Print) -> io::Result<()> {
    let script = [0xaeu8; 4_194_305];
    lengths_in(rt, &script)
}

fn rates(rt: &impl Print, script: &[u8]) -> io::Result<()> {
    for rate in [
        0,
        1,
        750,
        4_611_686_018_427_387_903,
        4_611_686_018_427_387_904,
        u64::MAX,
    ] {
        custom_line(rt, script, rate)?;
    }
    Ok(())
}

// For the empty script, for P2A and for OP_RETURN; and the largest rates that the first two take.
fn all_rates(rt: &impl Print) -> io::Result<()> {
    rates(rt, b"")?;
    custom_line(rt, b"", 29_373_796_295_715_846)?;
    custom_line(rt, b"", 29_373_796_295_715_847)?;
    rates(rt, b"\x51\x02\x4e\x73")?;
    custom_line(rt, b"\x51\x02\x4e\x73", 57_646_075_230_342_348)?;
    custom_line(rt, b"\x51\x02\x4e\x73", 57_646_075_230_342_349)?;
    rates(rt, b"\x6a")
}

fn witness_into(rt: &impl Print, version: u8, program: &[u8], out: &mut [u8]) -> io::Result<()> {
    let bytes = program.len();
    let room = out.len();
    print!(rt; "witness version {version} program {bytes} room {room}:")?;
    show::answer(rt, witness::witness_program(version, program, out))?;
    show::text(rt, b" buffer")?;
    show::hex(rt, out)?;
    show::line_end(rt)
}

// A program of n bytes, of at most 41, with room for at most the whole of buffer.
fn witness_line(rt: &impl Print, version: u8, n: usize, room: usize) -> io::Result<()> {
    let program = [7u8; 41];
    let mut buffer = [0xeeu8; 44];
    if let (Some(part), Some(out)) = (program.get(..n), buffer.get_mut(..room)) {
        witness_into(rt, version, part, out)?;
    }
    Ok(())
}

// Programs around the lengths that are taken, each with one byte too few and with just enough.
fn witness_lengths(rt: &impl Print, version: u8) -> io::Result<()> {
    for n in [0u8, 1, 2, 19, 20, 21, 32, 33, 40, 41] {
        let len = usize::from(n);
        witness_line(rt, version, len, len + 1)?;
        witness_line(rt, version, len, len + 2)?;
    }
    Ok(())
}

fn witness_versions(rt: &impl Print) -> io::Result<()> {
    for version in [0, 1, 16, 17] {
        witness_lengths(rt, version)?;
    }
    witness_line(rt, 1, 2, 0)?;
    witness_line(rt, 1, 2, 7)
}

fn main(rt: HostRuntime) -> io::Result<()> {
    numbers_before(&rt)?;
    opcodes_before(&rt)?;
    cut_scripts(&rt)?;
    many_keys(&rt)?;
    short_dust(&rt)?;
    witness_dust(&rt)?;
    lengths(&rt)?;
    all_rates(&rt)?;
    witness_versions(&rt)
}
