// Prints what the number entries answer at the edges of their inputs, one line for each. A lent buffer is filled with 0xee before the call
// and printed whole after it, so that a byte that was not written shows.
// A group of inputs is a function of its own: the groups differ in what they ask, and a table over all of them would have rows of unlike sorts.
#![tactic(auto)]

use std::io;

fn len_line(rt: &impl Print, n: i64) -> io::Result<()> {
    print!(rt; "len {n}:")?;
    show::answer(rt, numbers::scriptint_len(n))?;
    show::line_end(rt)
}

fn write_into(rt: &impl Print, n: i64, out: &mut [u8]) -> io::Result<()> {
    let room = out.len();
    print!(rt; "write {n} room {room}:")?;
    show::answer(rt, numbers::write_scriptint(n, out))?;
    show::text(rt, b" buffer")?;
    show::hex(rt, out)?;
    show::line_end(rt)
}

// Room for at most the whole of buffer.
fn write_line(rt: &impl Print, n: i64, room: usize) -> io::Result<()> {
    let mut buffer = [0xeeu8; 12];
    if let Some(out) = buffer.get_mut(..room) {
        write_into(rt, n, out)?;
    }
    Ok(())
}

// The count for n, then n written with too little room, with just enough, and with more than that.
fn number_lines(rt: &impl Print, n: i64) -> io::Result<()> {
    len_line(rt, n)?;
    match numbers::scriptint_len(n) {
        Ok(count) => {
            if 0 < count {
                write_line(rt, n, count - 1)?;
            }
            write_line(rt, n, count)?;
            if count < 12 {
                write_line(rt, n, count + 1)?;
            }
            Ok(())
        }
        Err(_) => {
            write_line(rt, n, 0)?;
            write_line(rt, n, 12)
        }
    }
}

fn read_line(rt: &impl Print, v: &[u8]) -> io::Result<()> {
    show::text(rt, b"read")?;
    show::hex(rt, v)?;
    show::text(rt, b": strict")?;
    show::answer(rt, numbers::read_scriptint(v))?;
    show::text(rt, b" loose")?;
    show::answer(rt, numbers::read_scriptint_non_minimal(v))?;
    show::line_end(rt)
}

fn bool_line(rt: &impl Print, v: &[u8]) -> io::Result<()> {
    show::text(rt, b"bool")?;
    show::hex(rt, v)?;
    show::text(rt, b":")?;
    show::answer(rt, numbers::read_scriptbool(v))?;
    show::line_end(rt)
}

// Bytes that are too many to print, by their count and the last of them.
fn long_line(rt: &impl Print, v: &[u8], last: u8) -> io::Result<()> {
    let n = v.len();
    print!(rt; "bool of {n} bytes, the last {last:02x}:")?;
    show::answer(rt, numbers::read_scriptbool(v))?;
    show::line_end(rt)
}

// The first n bytes of v, with another last byte for the time of the call.
fn long_part(rt: &impl Print, v: &mut [u8], n: usize, last: u8) -> io::Result<()> {
    if 0 < n && n <= v.len() {
        v[n - 1] = last;
        long_line(rt, &v[..n], last)?;
        v[n - 1] = 0;
    }
    Ok(())
}

// At the limit and one byte over it.
fn long_in(rt: &impl Print, v: &mut [u8; 4_194_305]) -> io::Result<()> {
    for last in [0, 0x80, 0x01] {
        long_part(rt, v, 4_194_304, last)?;
    }
    for last in [0, 0x80] {
        long_part(rt, v, 4_194_305, last)?;
    }
    Ok(())
}

fn long_lines(rt: &impl Print) -> io::Result<()> {
    let mut v = [0u8; 4_194_305];
    long_in(rt, &mut v)
}

fn all_numbers(rt: &impl Print) -> io::Result<()> {
    for n in [
        0,
        1,
        -1,
        127,
        128,
        -255,
        2_147_483_647,
        -2_147_483_647,
        2_147_483_648,
        i64::MAX,
        -i64::MAX,
        i64::MIN,
    ] {
        number_lines(rt, n)?;
    }
    Ok(())
}

fn reads(rt: &impl Print) -> io::Result<()> {
    for v in [
        b"".as_slice(),
        b"\x00",
        b"\x01",
        b"\x7f",
        b"\x80",
        b"\x81",
        b"\x01\x00",
        b"\x00\x80",
        b"\x80\x00",
        b"\xff\x80",
        b"\xff\xff\x00",
        b"\xff\x7f\x80",
        b"\xff\xff\xff\x7f",
        b"\xff\xff\xff\xff",
        b"\xff\xff\xff\xff\x00",
        b"\x00\x00\x00\x00\x00",
        b"\x01\x02\x03\x04\x05\x06",
    ] {
        read_line(rt, v)?;
    }
    Ok(())
}

fn bools(rt: &impl Print) -> io::Result<()> {
    for v in [
        b"".as_slice(),
        b"\x00",
        b"\x80",
        b"\x01",
        b"\x00\x80",
        b"\x80\x00",
        b"\x00\x01",
        b"\x00\x00\x81",
        b"\x00\x00\x00\x00\x00\x80",
    ] {
        bool_line(rt, v)?;
    }
    Ok(())
}

fn main(rt: HostRuntime) -> io::Result<()> {
    all_numbers(&rt)?;
    reads(&rt)?;
    bools(&rt)?;
    long_lines(&rt)
}
