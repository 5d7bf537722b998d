// The entries of `counts`, `text` and `witness`, by their numbers in the file, 34 to 39 and 48.
use crate::expect;

fn write_asm<'a>(input: &[u8], out: &mut [u8], want: &'a [u8]) -> Option<&'a [u8]> {
    let answer = text::write_asm(input, out);
    expect::written(want, answer, out)
}

fn witness_program<'a>(
    version: u8,
    input: &[u8],
    out: &mut [u8],
    want: &'a [u8],
) -> Option<&'a [u8]> {
    let answer = witness::witness_program(version, input, out);
    expect::written(want, answer, out)
}

pub(crate) fn counted<'a>(kind: u8, rate: u64, input: &[u8], want: &'a [u8]) -> Option<&'a [u8]> {
    match kind {
        34 => expect::answer(want, counts::count_sigops(input)),
        35 => expect::answer(want, counts::count_sigops_legacy(input)),
        36 => expect::answer(want, dust::minimal_non_dust(input)),
        37 => expect::answer(want, dust::minimal_non_dust_custom(input, rate)),
        _ => None,
    }
}

// The input, the lent buffer and the wanted bytes, named at each call.
pub(crate) fn written<'a>(
    kind: u8,
    version: u8,
    input: &[u8],
    out: &mut [u8],
    want: &'a [u8],
) -> Option<&'a [u8]> {
    match kind {
        38 => expect::answer(want, text::asm_len(input)),
        39 => write_asm(input, out, want),
        48 => witness_program(version, input, out, want),
        _ => None,
    }
}
