// The recorded file: a header line, and records. A record is a kind, two numbers, and counted bytes. Nothing is read past the end.
ghost use Rattle.std.specs.Prelude.{◌<◌, length};
ghost use Rattle.std.specs.Option.{IfSome};

// A record: its kind, its two numbers, its bytes, and where the next record starts.
#[derive(Clone, Copy)]
pub(crate) struct Head<'a> {
    pub(crate) kind: u8,
    pub(crate) arg: u64,
    pub(crate) room: usize,
    pub(crate) bytes: &'a [u8],
    pub(crate) next: usize,
}

// The lowest byte, where the file has a byte as a number.
pub(crate) fn low(n: u64) -> u8 {
    (n % 256) as u8
}

// A number, and the bytes behind it. One below 254 is one byte; else it is 254 and two bytes, or 255 and eight, low byte first.
pub(crate) fn number(bytes: &[u8]) -> Option<(u64, &[u8])>
    ensures { IfSome result (λ r. length r.1.now < length bytes.now) }
{
    let (first, rest) = bytes.split_first()?;
    match *first {
        254 => {
            let (two, rest) = rest.split_first_chunk::<2>()?;
            Some((u64::from(u16::from_le_bytes(*two)), rest))
        }
        255 => {
            let (eight, rest) = rest.split_first_chunk::<8>()?;
            Some((u64::from_le_bytes(*eight), rest))
        }
        small => Some((u64::from(small), rest)),
    }
}

// The record that starts at this place, where all of it is there.
pub(crate) fn read_head(file: &[u8], at: usize) -> Option<Head<'_>> {
    let (kind, rest) = file.get(at..)?.split_first()?;
    let (arg, rest) = number(rest)?;
    let (room, rest) = number(rest)?;
    let (len, rest) = number(rest)?;
    let (bytes, rest) = rest.split_at_checked(len as usize)?;
    Some(Head {
        kind: *kind,
        arg,
        room: room as usize,
        bytes,
        next: file.len() - rest.len(),
    })
}

// So many bytes from there on; none where not so many are there.
pub(crate) fn part(bytes: &[u8], from: usize, len: usize) -> &[u8] {
    bytes
        .get(from..)
        .and_then(|rest| rest.get(..len))
        .unwrap_or(b"")
}
