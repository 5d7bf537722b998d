// The entries that keep nothing for the next record, each asked in a lent buffer that holds a pattern.
use crate::file::Head;
use crate::{file, lent, on_numbers, on_opcodes, on_scripts, on_templates, on_walk};

// By the entry's number in the file.
fn dispatch<'a>(h: Head<'a>, input: &[u8], out: &mut [u8]) -> Option<&'a [u8]> {
    let want = h.bytes;
    match h.kind {
        1..=8 => on_opcodes::answer(h.kind, file::low(h.arg), out, want),
        9..=13 => on_numbers::answer(h.kind, h.arg, input, out, want),
        14..=17 => on_walk::answer(h.kind, out.len(), input, want),
        18..=33 => on_templates::answer(h.kind, input, out, want),
        34..=37 => on_scripts::counted(h.kind, h.arg, input, want),
        _ => on_scripts::written(h.kind, file::low(h.arg), input, out, want),
    }
}

// In the first bytes of the space lent, as many as the record says; what is left of the wanted bytes.
pub(crate) fn answered<'a>(h: Head<'a>, input: &[u8], space: &mut [u8]) -> Option<&'a [u8]> {
    let out = space.get_mut(..h.room)?;
    lent::fill(b"", lent::PATTERN, out);
    dispatch(h, input, out)
}
