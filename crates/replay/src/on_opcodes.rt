// The entries of `opcodes`, by their numbers in the file, 1 to 8.
use crate::expect;
use opcodes::{Class, Form};

// The file's number for the form (docs/REPLAY.md).
pub(crate) fn form_number(form: Form) -> u64 {
    match form {
        Form::Direct => 0,
        Form::PushData1 => 1,
        Form::PushData2 => 2,
        Form::PushData4 => 3,
    }
}

// The file's number for the class.
fn class_number(class: Class) -> u64 {
    match class {
        Class::Push(form) => form_number(form),
        Class::PushNum => 4,
        Class::Ordinary => 5,
    }
}

// The form with this number in the file.
fn form_of(n: u8) -> Form {
    match n {
        0 => Form::Direct,
        1 => Form::PushData1,
        2 => Form::PushData2,
        _ => Form::PushData4,
    }
}

fn write_name<'a>(code: u8, out: &mut [u8], want: &'a [u8]) -> Option<&'a [u8]> {
    let answer = names::write_name(code, out);
    expect::written(want, answer, out)
}

fn name_len_in(code: u8) -> usize {
    let lengths = pool::name_lengths();
    names::name_len_in(&lengths, code)
}

fn name_in(code: u8, want: &[u8]) -> Option<&[u8]> {
    let pool = pool::name_pool();
    let starts = pool::name_starts();
    let lengths = pool::name_lengths();
    let rest = expect::number(want, 0)?;
    expect::bytes(rest, names::name_in(&pool, &starts, &lengths, code))
}

pub(crate) fn answer<'a>(kind: u8, code: u8, out: &mut [u8], want: &'a [u8]) -> Option<&'a [u8]> {
    match kind {
        1 => expect::value(want, class_number(opcodes::classify(code))),
        2 => expect::value(want, opcodes::length_bytes(form_of(code)) as u64),
        3 => expect::answer(want, Ok(opcodes::decode_pushnum(code))),
        4 => expect::answer(want, Ok(opcodes::opcode_to_verify(code))),
        5 => expect::value(want, names::name_len(code) as u64),
        6 => write_name(code, out, want),
        7 => expect::value(want, name_len_in(code) as u64),
        8 => name_in(code, want),
        _ => None,
    }
}
