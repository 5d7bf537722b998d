// Answers against the bytes that the file has for them: 0 or the refusal's number first, and then the values. Each function is given the wanted bytes
// that are left and answers which of them the next is given, or None where the bytes are others. An answer agrees if nothing is left in the end.
use crate::file;
use refusal::{Refusal, Value};
use templates::Place;

pub(crate) fn number(want: &[u8], n: u64) -> Option<&[u8]> {
    let (value, rest) = file::number(want)?;
    if value == n { Some(rest) } else { None }
}

pub(crate) fn size(want: &[u8], n: usize) -> Option<&[u8]> {
    number(want, n as u64)
}

pub(crate) fn flag(want: &[u8], yes: bool) -> Option<&[u8]> {
    number(want, u64::from(yes))
}

pub(crate) fn bytes<'a>(want: &'a [u8], s: &[u8]) -> Option<&'a [u8]> {
    want.strip_prefix(s)
}

// That there is an answer, and that it is one number.
pub(crate) fn value(want: &[u8], n: u64) -> Option<&[u8]> {
    number(number(want, 0)?, n)
}

// The refusal's number, and then its values, as the file has them.
pub(crate) fn refused(want: &[u8], r: Refusal) -> Option<&[u8]> {
    let rest = number(want, u64::from(r.number()))?;
    match r.value() {
        Value::Is(n) => size(rest, n),
        Value::Both(n, m) => size(size(rest, n)?, m),
        Value::Nothing => Some(rest),
    }
}

// What an entry answers, as it stands in the file.
pub(crate) trait Recorded: Drop {
    fn follows(self, want: &[u8]) -> Option<&[u8]>;
}

// The answer, or the refusal.
pub(crate) fn answer<T: Recorded>(want: &[u8], answer: Result<T, Refusal>) -> Option<&[u8]> {
    match answer {
        Ok(said) => said.follows(number(want, 0)?),
        Err(r) => refused(want, r),
    }
}

// The count or the refusal, and all of the lent buffer.
pub(crate) fn written<'a, T: Recorded>(
    want: &'a [u8],
    said: Result<T, Refusal>,
    out: &[u8],
) -> Option<&'a [u8]> {
    bytes(answer(want, said)?, out)
}

impl Recorded for () {
    fn follows(self, want: &[u8]) -> Option<&[u8]> {
        Some(want)
    }
}

impl Recorded for bool {
    fn follows(self, want: &[u8]) -> Option<&[u8]> {
        flag(want, self)
    }
}

impl Recorded for u8 {
    fn follows(self, want: &[u8]) -> Option<&[u8]> {
        number(want, u64::from(self))
    }
}

impl Recorded for u64 {
    fn follows(self, want: &[u8]) -> Option<&[u8]> {
        number(want, self)
    }
}

impl Recorded for usize {
    fn follows(self, want: &[u8]) -> Option<&[u8]> {
        size(want, self)
    }
}

// Its sign and its magnitude.
impl Recorded for i64 {
    fn follows(self, want: &[u8]) -> Option<&[u8]> {
        number(flag(want, self < 0)?, self.unsigned_abs())
    }
}

impl Recorded for Place {
    fn follows(self, want: &[u8]) -> Option<&[u8]> {
        size(size(want, self.start)?, self.len)
    }
}

// 1 and what there is, or 0 for nothing.
impl<T: Recorded> Recorded for Option<T> {
    fn follows(self, want: &[u8]) -> Option<&[u8]> {
        match self {
            Some(said) => said.follows(number(want, 1)?),
            None => number(want, 0),
        }
    }
}
