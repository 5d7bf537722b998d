// The entries of `builder`, by their numbers in the file, 40 to 47. A session starts with `new` or `start`, and each call goes on with the builder and the buffer that the
// one before left.
use crate::expect::Recorded;
use crate::file::Head;
use crate::{expect, file, lent, on_numbers};
use builder::{Builder, Built};

// What is left of the wanted bytes, and the builder for the next call.
#[derive(Clone, Copy)]
pub(crate) struct Left<'a> {
    pub(crate) want: Option<&'a [u8]>,
    pub(crate) builder: Builder,
}

// The builder's length and opcode, whether the bytes it shows are the buffer's first, and the whole buffer.
fn state<'a>(builder: Builder, buffer: &[u8], want: &'a [u8]) -> Option<&'a [u8]> {
    let rest = expect::size(want, builder.length)?;
    let rest = builder.remembered.follows(rest)?;
    let shown = builder.as_bytes(buffer) == file::part(buffer, 0, builder.length);
    let rest = expect::flag(rest, shown)?;
    expect::bytes(rest, buffer)
}

fn after_call<'a>(built: Built, buffer: &[u8], want: &'a [u8]) -> Option<&'a [u8]> {
    state(built.builder, buffer, expect::answer(want, built.answer)?)
}

fn fresh<'a>(buffer: &[u8], want: &'a [u8]) -> Option<&'a [u8]> {
    state(Builder::new(), buffer, expect::number(want, 0)?)
}

// A number of the file that the entry takes in 32 bits.
fn narrow(n: u64) -> u32 {
    u32::try_from(n).unwrap_or(0)
}

fn call(h: Head<'_>, input: &[u8], builder: Builder, buffer: &mut [u8]) -> Built {
    match h.kind {
        42 => builder.push_opcode(buffer, file::low(h.arg)),
        43 => builder.push_slice(buffer, input),
        44 => builder.push_int(buffer, on_numbers::signed(!input.is_empty(), h.arg)),
        45 => builder.push_lock_time(buffer, narrow(h.arg)),
        46 => builder.push_sequence(buffer, narrow(h.arg)),
        _ => builder.push_verify(buffer),
    }
}

// A session begins with the input's bytes in the buffer, and then the pattern.
fn answer_in<'a>(h: Head<'a>, input: &[u8], builder: Builder, buffer: &mut [u8]) -> Left<'a> {
    match h.kind {
        40 => {
            lent::fill(input, lent::PATTERN, buffer);
            Left {
                want: fresh(buffer, h.bytes),
                builder: Builder::new(),
            }
        }
        41 => {
            lent::fill(input, lent::PATTERN, buffer);
            let built = Builder::start(buffer, input.len());
            Left {
                want: after_call(built, buffer, h.bytes),
                builder: built.builder,
            }
        }
        _ => {
            let built = call(h, input, builder, buffer);
            Left {
                want: after_call(built, buffer, h.bytes),
                builder: built.builder,
            }
        }
    }
}

// A call, with the buffer's first room bytes as the buffer.
pub(crate) fn answer<'a>(
    h: Head<'a>,
    input: &[u8],
    builder: Builder,
    room: usize,
    buffer: &mut [u8],
) -> Left<'a> {
    match buffer.get_mut(..room) {
        Some(lent) => answer_in(h, input, builder, lent),
        None => Left {
            want: None,
            builder,
        },
    }
}
