// The screen up to the text, made line by line.
#![tactic(auto, using(crate::proofs::Short::lengths))]

ghost use Rattle.std.specs.Prelude.{◌≡◌, [], ◌∷◌, ◌++◌, ◌+◌, ◌≤◌, length};
ghost use Rattle.pool.specs.Text.{text, decimal};
ghost use Rattle.templates.specs.Answer.{said_template};
ghost use Rattle.screen.specs.Screen.{kind_name, line};

use itoa::Buffer;
use std::marker::Model;
use templates::Template;

// The screen up to the text, as far as it is made: the first len bytes of an array, in fixed memory, since nothing here has a heap. Behind them the array stays zero, so that the
// bytes shown give it back.
#[derive(Clone, Copy)]
pub struct Head {
    bytes: [u8; 160],
    len: usize,
}

impl Model for Head {
    ghost use Rattle.std.specs.Prelude.{◌≡◌, List, ℕ, ◌-◌, ◌≤◌, length, drop, replicate};
    ghost use Rattle.head.specs.Shown.{shown_in, filled, shown_length, given_back};

    ghost Value = { List ℕ };

    ghost view = { λ h. shown_in h.bytes h.len };

    ghost invariant = { λ h. (length h.bytes ≡ 160) × (h.len ≤ 160) × (drop h.len h.bytes ≡ replicate (160 - h.len) 0) };

    ghost inverse = { λ shown. record { bytes = filled shown; len = length shown } };

    ghost inverse_ok = { λ h holds i. record {
      bytes = given_back h.bytes h.len holds.0 holds.1 holds.2 i;
      len = shown_length h.bytes h.len holds.0 holds.1 i;
    } };
}

// What a kind is called.
fn name_of(kind: Template) -> &'static [u8]
    ensures { result.now ≡ text (kind_name (said_template kind)) }
{
    match kind {
        Template::P2pkh => b"p2pkh",
        Template::P2sh => b"p2sh",
        Template::P2wpkh => b"p2wpkh",
        Template::P2wsh => b"p2wsh",
        Template::P2tr => b"p2tr",
        Template::P2a => b"p2a",
        Template::Witness => b"witness",
        Template::P2pk => b"p2pk",
        Template::Multisig => b"multisig",
        Template::OpReturn => b"opreturn",
        Template::Other => b"other",
    }
}

impl Head {
    // No byte.
    fn new() -> Head
        ensures { result ≡ [] }
    {
        Head {
            bytes: [0; 160],
            len: 0,
        }
    }

    // The bytes.
    pub fn as_bytes(&self) -> &[u8]
        ensures { result.now ≡ self.now }
    {
        &self.bytes[..self.len]
    }

    // The bytes, appended.
    fn add(mut self, piece: &[u8]) -> Head
        requires { length self + length piece.now ≤ 160 }
        ensures { result ≡ self ++ piece.now }
    {
        let len = self.len;
        self.len = len + copying::copy(piece, &mut self.bytes[len..]);
        self
    }

    // The number in decimal, appended.
    #[tactic(auto, using(crate::proofs::Short::lengths, crate::proofs::Decimal::same_decimal))]
    fn add_number(self, n: u64) -> Head
        requires { length self + 20 ≤ 160 }
        ensures { result ≡ self ++ decimal n }
    {
        let mut digits = Buffer::new();
        self.add(digits.format(n).as_bytes())
    }

    // A word, a number and a line end, appended.
    fn number_line(self, word: &[u8], n: u64) -> Head
        requires { length self + (length word.now + 21) ≤ 160 }
        ensures { result ≡ self ++ (word.now ++ (decimal n ++ (10 ∷ []))) }
    {
        self.add(word).add_number(n).add(b"\n")
    }

    // The line with the script's kind, appended.
    fn kind_line(self, kind: Template) -> Head
        requires { length self + 14 ≤ 160 }
        ensures { result ≡ self ++ line "kind" (text (kind_name (said_template kind))) }
    {
        self.add(b"kind ").add(name_of(kind)).add(b"\n")
    }

    // The line with both counts, the accurate one first, appended.
    fn counts_line(self, accurate: u64, legacy: u64) -> Head
        requires { length self + 49 ≤ 160 }
        ensures { result ≡ self ++ line "sigops" (decimal accurate ++ (text " " ++ decimal legacy)) }
    {
        self.add(b"sigops ")
            .add_number(accurate)
            .number_line(b" ", legacy)
    }

    // The line with the dust figure, and the word before the text, appended.
    fn last_lines(self, dust: u64) -> Head
        requires { length self + 30 ≤ 160 }
        ensures { result ≡ self ++ (line "dust" (decimal dust) ++ text "asm ") }
    {
        self.number_line(b"dust ", dust).add(b"asm ")
    }
}

// The screen up to the text: the script's length, its kind, both counts, the dust figure, and the word before the text; 121 bytes at most.
pub fn head_lines(size: u64, kind: Template, accurate: u64, legacy: u64, dust: u64) -> Head
    ensures bytes { result ≡ line "length" (decimal size) ++ line "kind" (text (kind_name (said_template kind))) ++ line "sigops" (decimal accurate ++ (text " " ++ decimal legacy)) ++ (line "dust" (decimal dust) ++ text "asm ") }
    ensures short { length result ≤ 121 }
{
    Head::new()
        .number_line(b"length ", size)
        .kind_line(kind)
        .counts_line(accurate, legacy)
        .last_lines(dust)
}
