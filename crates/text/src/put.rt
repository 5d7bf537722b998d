// Each part of an instruction's text, stored in a buffer from a place on that has room for it. The two go side by side: what a struct with the buffer in it
// leaves behind is told to a proof only under names that may change.
ghost use Rattle.std.specs.Prelude.{◌≡◌, ◌+◌, ◌≤◌, ◌<◌, length};
ghost use Rattle.std.proofs.lemmas.List.Edits.{sets};
ghost use Rattle.pool.specs.Text.{text};
ghost use Rattle.asm.specs.Asm.{hex_digit, hex, opcode_text, data_text, space_at};

use names::Names;

// Stores bytes from n on; the place behind them.
#[tactic(auto, using(copying::proofs::Whole::part_copied, laws::proofs::Stored::to_end_lem))]
fn put_bytes(out: &mut [u8], n: usize, piece: &[u8]) -> usize
    requires { n + length piece.now ≤ length out.old }
    ensures next { result ≡ n + length piece.now }
    ensures left { out.new ≡ sets out.old n piece.now }
{
    n + copying::copy(piece, &mut out[n..])
}

// The hex digit of a half byte.
fn hex_digit(half: u8) -> u8
    requires { half < 16 }
    ensures { result ≡ hex_digit half }
{
    if half < 10 {
        b'0' + half
    } else {
        b'a' - 10 + half
    }
}

// Stores bytes in hex from n on; the place behind them. The place goes on by two: over pairs of the buffer the loop is no plainer.
#[tactic(auto, using(asm::proofs::Sizes::hex_length), unfolding(asm::specs::Asm::hex))]
fn put_hex(out: &mut [u8], n: usize, bytes: &[u8]) -> usize
    requires { n + length (hex bytes.now) ≤ length out.old }
    ensures next { result ≡ n + length (hex bytes.now) }
    ensures left { out.new ≡ sets out.old n (hex bytes.now) }
{
    let mut m = n;
    for b in bytes {
        out[m] = hex_digit(*b / 16);
        out[m + 1] = hex_digit(*b % 16);
        m += 2;
    }
    m
}

// Stores the space before the instruction at `at`, where there is one; the place behind it.
#[tactic(auto, unfolding(asm::specs::Asm::space_at))]
pub(crate) fn put_space(out: &mut [u8], n: usize, at: usize) -> usize
    requires { n + length (space_at at) ≤ length out.old }
    ensures next { result ≡ n + length (space_at at) }
    ensures left { out.new ≡ sets out.old n (space_at at) }
{
    if at == 0 {
        return n;
    }
    out[n] = b' ';
    n + 1
}

// Stores the name of an opcode; the place behind it.
#[tactic(auto, unfolding(asm::specs::Asm::opcode_text))]
pub(crate) fn put_opcode(out: &mut [u8], n: usize, names: &Names, code: u8) -> usize
    requires { n + length (opcode_text code) ≤ length out.old }
    ensures next { result ≡ n + length (opcode_text code) }
    ensures left { out.new ≡ sets out.old n (opcode_text code) }
{
    if code == 0 {
        return put_bytes(out, n, b"OP_0");
    }
    put_bytes(out, n, names.name(code))
}

// Stores a push's data, a space before them; nothing for no data. The place behind them.
#[tactic(auto, unfolding(asm::specs::Asm::data_text))]
pub(crate) fn put_data(out: &mut [u8], n: usize, bytes: &[u8]) -> usize
    requires { n + length (data_text bytes.now) ≤ length out.old }
    ensures next { result ≡ n + length (data_text bytes.now) }
    ensures left { out.new ≡ sets out.old n (data_text bytes.now) }
{
    if bytes.len() == 0 {
        return n;
    }
    out[n] = b' ';
    put_hex(out, n + 1, bytes)
}

// Stores the mark for cut length bytes.
pub(crate) fn put_unexpected_end(out: &mut [u8], n: usize)
    requires { n + 16 ≤ length out.old }
    ensures { out.new ≡ sets out.old n (text "<unexpected end>") }
{
    put_bytes(out, n, b"<unexpected end>");
}

// Stores the mark for a cut body, with the space before it.
pub(crate) fn put_push_past_end(out: &mut [u8], n: usize)
    requires { n + 16 ≤ length out.old }
    ensures { out.new ≡ sets out.old n (text " <push past end>") }
{
    put_bytes(out, n, b" <push past end>");
}
