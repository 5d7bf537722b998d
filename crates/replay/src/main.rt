// Reads a recorded sample of the Rust crate's answers from standard input, asks Brinebutton the same, and prints for each entry how many answers
// agree. Only a file that is whole and agrees with every answer ends in the line `.. records agree`. docs/REPLAY.md has the file's layout.
#![tactic(auto)]

ghost use Rattle.std.specs.Prelude.{◌≤◌, length};

mod entries;
mod expect;
mod file;
mod labels;
mod lent;
mod on_builder;
mod on_numbers;
mod on_opcodes;
mod on_scripts;
mod on_templates;
mod on_walk;
mod report;

use builder::Builder;
use file::Head;
use std::io;
use std::io::Read;

// Kinds of records that ask nothing.
const MARK: u8 = 0xfd;

const INPUT: u8 = 0xfe;

const END: u8 = 0xff;

// How many entries there are.
const ENTRIES: u8 = 48;

// How far the reading is.
#[derive(Clone, Copy, PartialEq, Eq)]
enum Stage {
    Reading,
    Whole,
    Damaged,
}

// Where the next record starts, how long the input is, the builder of the session and its room, and what was counted.
#[derive(Clone, Copy)]
struct State {
    at: usize,
    len: usize,
    builder: Builder,
    room: usize,
    asked: u64,
    marked: u64,
    differ: u64,
    stage: Stage,
}

// The builder's buffer, the space that the other entries are lent, and how many answers agree, by entry.
#[derive(Drop)]
struct Buffers {
    builder: [u8; 1024],
    space: [u8; 1024],
    counts: [u64; 54],
}

fn begin(data: &[u8]) -> State {
    let (at, stage) = if data.starts_with(b"replay 1\n") {
        (9, Stage::Reading)
    } else {
        (0, Stage::Damaged)
    };
    State {
        at,
        len: 0,
        builder: Builder::new(),
        room: 0,
        asked: 0,
        marked: 0,
        differ: 0,
        stage,
    }
}

fn damaged(s: State) -> State {
    State {
        stage: Stage::Damaged,
        ..s
    }
}

// Counts a record that was asked, and whether its answer agrees: nothing of the wanted bytes is left. Handle, record and state go side by side, since each
// function goes on with others of them.
fn compared(
    rt: &impl Print,
    h: Head<'_>,
    s: State,
    left: Option<&[u8]>,
    counts: &mut [u64; 54],
) -> io::Result<State> {
    let next = State {
        at: h.next,
        asked: s.asked.saturating_add(1),
        ..s
    };
    if left.is_some_and(|rest| rest.is_empty()) {
        count(h.kind, counts);
        return Ok(next);
    }
    if s.differ == 0 {
        report::first_differing(rt, next.asked, s.at, h.kind)?;
    }
    Ok(State {
        differ: s.differ.saturating_add(1),
        ..next
    })
}

fn count(kind: u8, counts: &mut [u64; 54]) {
    if let Some(n) = counts.get_mut(usize::from(kind)) {
        *n = n.saturating_add(1);
    }
}

// An entry that keeps nothing.
fn asked(
    rt: &impl Print,
    h: Head<'_>,
    s: State,
    input: &[u8],
    buffers: &mut Buffers,
) -> io::Result<State> {
    let left = entries::answered(h, input, &mut buffers.space);
    compared(rt, h, s, left, &mut buffers.counts)
}

// A call of the builder. A session's room is that of its first record.
fn session(
    rt: &impl Print,
    h: Head<'_>,
    s: State,
    input: &[u8],
    buffers: &mut Buffers,
) -> io::Result<State> {
    let room = if h.kind < 42 { h.room } else { s.room };
    let left = on_builder::answer(h, input, s.builder, room, &mut buffers.builder);
    let next = compared(rt, h, s, left.want, &mut buffers.counts)?;
    Ok(State {
        builder: left.builder,
        room,
        ..next
    })
}

fn set_input(h: Head<'_>, s: State, input: &mut [u8]) -> State {
    match input.get_mut(..h.room) {
        Some(part) => {
            lent::fill(h.bytes, file::low(h.arg), part);
            State {
                at: h.next,
                len: h.room,
                ..s
            }
        }
        None => damaged(s),
    }
}

// The next record's answer is document 01's, where the crate differs. The differences are counted behind the entries.
fn marked(h: Head<'_>, s: State, counts: &mut [u64; 54]) -> State {
    match file::low(h.arg) {
        letter @ 1..=5 => {
            count(ENTRIES + letter, counts);
            State {
                at: h.next,
                marked: s.marked.saturating_add(1),
                ..s
            }
        }
        _ => damaged(s),
    }
}

// The last record has the counts of the records that ask and of the marks, and nothing follows it.
fn ended(data: &[u8], h: Head<'_>, s: State) -> State {
    if h.arg == s.asked && h.room as u64 == s.marked && h.next == data.len() {
        State {
            stage: Stage::Whole,
            ..s
        }
    } else {
        damaged(s)
    }
}

// One record, by its kind's number in the file.
fn turn(
    rt: &impl Print,
    data: &[u8],
    s: State,
    input: &mut [u8],
    buffers: &mut Buffers,
) -> io::Result<State> {
    let Some(h) = file::read_head(data, s.at) else {
        return Ok(damaged(s));
    };
    match h.kind {
        1..=39 | ENTRIES => asked(rt, h, s, file::part(input, 0, s.len), buffers),
        40..=47 => session(rt, h, s, file::part(input, 0, s.len), buffers),
        MARK => Ok(marked(h, s, &mut buffers.counts)),
        INPUT => Ok(set_input(h, s, input)),
        END => Ok(ended(data, h, s)),
        _ => Ok(damaged(s)),
    }
}

fn print_report(rt: &impl Print, s: State, counts: &[u64; 54]) -> io::Result<()> {
    report::lines(rt, counts)?;
    if s.stage != Stage::Whole {
        report::damaged(rt, s.at)?;
    }
    if 0 < s.differ {
        report::differing(rt, s.asked, s.differ)?;
    } else if s.stage == Stage::Whole {
        report::agreeing(rt, s.asked, s.marked)?;
    }
    Ok(())
}

// Each record has at least one byte, so that there are no more turns than bytes.
fn run(rt: &impl Print, data: &[u8], input: &mut [u8], buffers: &mut Buffers) -> io::Result<State> {
    let mut s = begin(data);
    for _ in 0..data.len() {
        if s.stage != Stage::Reading {
            break;
        }
        s = turn(rt, data, s, input, buffers)?;
    }
    Ok(s)
}

fn with_buffers(rt: &impl Print, data: &[u8], input: &mut [u8; 4_194_305]) -> io::Result<()> {
    let mut buffers = Buffers {
        builder: [0u8; 1024],
        space: [0u8; 1024],
        counts: [0u64; 54],
    };
    let s = run(rt, data, input, &mut buffers)?;
    print_report(rt, s, &buffers.counts)
}

// An array as long as this one is made in a function of its own, and lent whole: the check does not look into it.
fn with_input(rt: &impl Print, data: &[u8]) -> io::Result<()> {
    let mut input = [0u8; 4_194_305];
    with_buffers(rt, data, &mut input)
}

// Reads to the input's end, to a read that fails, or until the buffer is full; how many bytes there are then. `shown` reads so too, and fails where a read does.
fn read_full<R: Read>(from: &mut R, buf: &mut [u8]) -> usize
    ensures { result ≤ length buf.new }
{
    let mut done = 0;
    while done < buf.len() {
        let more = from.read(&mut buf[done..]).unwrap_or(0);
        if more == 0 {
            return done;
        }
        done += more;
    }
    done
}

fn read_into<R: Read>(rt: &impl Print, from: &mut R, data: &mut [u8; 655_360]) -> io::Result<()> {
    let n = read_full(from, data);
    with_input(rt, &data[..n])
}

fn main(rt: HostRuntime) -> io::Result<()> {
    let mut data = [0u8; 655_360];
    read_into(&rt, &mut rt.stdin(), &mut data)
}
