// Each part of the screen, stored in a buffer that has room for it.
ghost use Rattle.std.specs.Prelude.{◌≡◌, ◌∷◌, ◌++◌, ◌+◌, ◌<◌, length, drop};
ghost use Rattle.asm.specs.Asm.{text_of};

use crate::facts::Inspected;

// Stores the text and a line end at the front of a buffer that has room for them.
fn put_text(inspected: &Inspected, out: &mut [u8])
    requires { length (text_of inspected.now) < length out.old }
    ensures { out.new ≡ text_of inspected.now ++ (10 ∷ drop (length (text_of inspected.now) + 1) out.old) }
{
    let n = inspected.write_text(out);
    out[n] = b'\n';
}

// Stores the head, the text and a line end at the front of a buffer that has room for them.
pub(crate) fn put_screen(head: &[u8], inspected: &Inspected, out: &mut [u8])
    requires { length head.now + length (text_of inspected.now) < length out.old }
    ensures { out.new ≡ head.now ++ (text_of inspected.now ++ (10 ∷ drop (length head.now + length (text_of inspected.now) + 1) out.old)) }
{
    let n = copying::copy(head, out);
    put_text(inspected, &mut out[n..]);
}
