// The entries of `templates`, by their numbers in the file, 18 to 33.
use crate::{expect, file};
use refusal::Refusal;
use templates::{Place, Template};

fn hash_or_witness(kind: u8, input: &[u8]) -> Result<bool, Refusal> {
    match kind {
        18 => templates::is_p2pkh(input),
        19 => templates::is_p2sh(input),
        20 => templates::is_p2wpkh(input),
        21 => templates::is_p2wsh(input),
        22 => templates::is_p2tr(input),
        _ => templates::is_p2a(input),
    }
}

fn other_judged(kind: u8, input: &[u8]) -> Result<bool, Refusal> {
    match kind {
        24 => templates::is_witness_program(input),
        25 => templates::is_p2pk(input),
        26 => templates::is_multisig(input),
        27 => templates::is_op_return(input),
        _ => templates::is_push_only(input),
    }
}

// A place and a length, and whether the part handed back holds the bytes there; where there is no place, that the part is empty.
fn placed<'a>(
    input: &[u8],
    part: &[u8],
    want: &'a [u8],
    answer: Result<Option<Place>, Refusal>,
) -> Option<&'a [u8]> {
    let rest = expect::answer(want, answer)?;
    match answer {
        Ok(Some(Place { start, len })) => {
            expect::flag(rest, part == file::part(input, start, len))
        }
        _ => if part.is_empty() { Some(rest) } else { None },
    }
}

fn p2wpkh_script_code<'a>(input: &[u8], out: &mut [u8], want: &'a [u8]) -> Option<&'a [u8]> {
    let answer = templates::p2wpkh_script_code(input, out);
    expect::written(want, answer, out)
}

// The file's number for the template (docs/REPLAY.md).
fn kind_number(kind: Template) -> u64 {
    match kind {
        Template::P2pkh => 0,
        Template::P2sh => 1,
        Template::P2wpkh => 2,
        Template::P2wsh => 3,
        Template::P2tr => 4,
        Template::P2a => 5,
        Template::Witness => 6,
        Template::P2pk => 7,
        Template::Multisig => 8,
        Template::OpReturn => 9,
        Template::Other => 10,
    }
}

// The input, the lent buffer and the wanted bytes, named at each call.
pub(crate) fn answer<'a>(
    kind: u8,
    input: &[u8],
    out: &mut [u8],
    want: &'a [u8],
) -> Option<&'a [u8]> {
    match kind {
        18..=23 => expect::answer(want, hash_or_witness(kind, input)),
        24..=28 => expect::answer(want, other_judged(kind, input)),
        29 => expect::answer(want, templates::witness_version(input)),
        30 => placed(
            input,
            templates::p2pk_key_part(input),
            want,
            templates::p2pk_key(input),
        ),
        31 => placed(
            input,
            templates::redeem_part(input),
            want,
            templates::redeem_script(input),
        ),
        32 => p2wpkh_script_code(input, out, want),
        33 => expect::answer(want, templates::kind(input).map(kind_number)),
        _ => None,
    }
}
