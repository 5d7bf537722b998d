// The entries of `numbers`, by their numbers in the file, 9 to 13. A number stands in the file as its magnitude, with an input that is not empty where it is negative;
// in an answer as its sign and its magnitude.
use crate::expect;

// The number with this sign and magnitude; the one that is nearest, where there is none.
pub(crate) fn signed(negative: bool, m: u64) -> i64 {
    match i64::try_from(m) {
        Ok(n) => { if negative { -n } else { n } }
        Err(_) => { if negative { i64::MIN } else { i64::MAX } }
    }
}

fn write_scriptint<'a>(n: i64, out: &mut [u8], want: &'a [u8]) -> Option<&'a [u8]> {
    let answer = numbers::write_scriptint(n, out);
    expect::written(want, answer, out)
}

// The input, the lent buffer and the wanted bytes, named at each call.
pub(crate) fn answer<'a>(
    kind: u8,
    arg: u64,
    input: &[u8],
    out: &mut [u8],
    want: &'a [u8],
) -> Option<&'a [u8]> {
    let n = signed(!input.is_empty(), arg);
    match kind {
        9 => expect::answer(want, numbers::scriptint_len(n)),
        10 => write_scriptint(n, out, want),
        11 => expect::answer(want, numbers::read_scriptint(input)),
        12 => expect::answer(want, numbers::read_scriptint_non_minimal(input)),
        13 => expect::answer(want, numbers::read_scriptbool(input)),
        _ => None,
    }
}
