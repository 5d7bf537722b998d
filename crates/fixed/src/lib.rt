// Tests of the bytes that stand at fixed places of a script. Each looks at the length first, and none at more than five bytes.
#![tactic(auto)]

ghost use Rattle.std.specs.Prelude.{◌≡◌};
ghost use Rattle.fixed.specs.Fixed.{is_pay_to_script_hash, is_pay_to_pubkey_hash, witness_version, is_program_of, is_pay_to_anchor, is_key_of, is_pay_to_pubkey, is_op_return, is_witness_program};

use opcodes::{
    OP_0, OP_CHECKSIG, OP_DUP, OP_EQUAL, OP_EQUALVERIFY, OP_HASH160, OP_PUSHNUM_1, OP_RETURN,
};

// The bytes of the scripts whose length is fixed.
const P2SH_LEN: usize = 23;

const P2PKH_LEN: usize = 25;

const P2A_LEN: usize = 4;

// The bytes of a hash of 160 bits, and so the opcode that pushes it.
pub const HASH160_SIZE: u8 = 20;

// The bytes of a hash of 256 bits, or of a taproot key.
pub const HASH256_SIZE: u8 = 32;

// The bytes of a public key in its two forms.
const KEY_SIZE: u8 = 65;

const COMPRESSED_KEY_SIZE: u8 = 33;

// The two bytes of the program that pays to an anchor.
const ANCHOR_SIZE: u8 = 2;

const ANCHOR_FIRST: u8 = 0x4e;

const ANCHOR_SECOND: u8 = 0x73;

// The fewest and the most bytes of a witness program.
const MIN_WITNESS: usize = 4;

const MAX_WITNESS: usize = 42;

// Pay to script hash.
#[tactic(auto, unfolding(crate::specs::Fixed::is_pay_to_script_hash))]
pub fn p2sh(s: &[u8]) -> bool
    ensures { result ≡ is_pay_to_script_hash s.now }
{
    if s.len() == P2SH_LEN {
        (s[0] == OP_HASH160) & (s[1] == HASH160_SIZE) & (s[22] == OP_EQUAL)
    } else {
        false
    }
}

// Pay to pubkey hash.
#[tactic(auto, unfolding(crate::specs::Fixed::is_pay_to_pubkey_hash))]
pub fn p2pkh(s: &[u8]) -> bool
    ensures { result ≡ is_pay_to_pubkey_hash s.now }
{
    if s.len() == P2PKH_LEN {
        (s[0] == OP_DUP)
            & (s[1] == OP_HASH160)
            & (s[2] == HASH160_SIZE)
            & (s[23] == OP_EQUALVERIFY)
            & (s[24] == OP_CHECKSIG)
    } else {
        false
    }
}

// The version of a witness program.
#[tactic(auto, unfolding(crate::specs::Fixed::witness_version, crate::specs::Fixed::is_witness_program))]
pub fn version(s: &[u8]) -> Option<u8>
    ensures { result ≡ witness_version s.now }
{
    let n = s.len();
    if n < MIN_WITNESS {
        return None;
    }
    if MAX_WITNESS < n {
        return None;
    }
    if s[1] as usize + 2 != n {
        return None;
    }
    let code = s[0];
    if code == OP_0 {
        return Some(0);
    }
    opcodes::decode_pushnum(code)
}

// Whether a script is a witness program.
#[tactic(auto, using(crate::proofs::Versions::some_version))]
pub fn witness(s: &[u8]) -> bool
    ensures { result ≡ is_witness_program s.now }
{
    version(s).is_some()
}

// Whether a script is a witness program of this version, with a program of so many bytes.
#[tactic(auto, using(crate::proofs::Versions::same_length, crate::proofs::Versions::other_length))]
pub fn program(s: &[u8], number: u8, size: u8) -> bool
    ensures { result ≡ is_program_of number size s.now }
{
    if s.len() == size as usize + 2 {
        version(s) == Some(number)
    } else {
        false
    }
}

// Pay to anchor.
#[tactic(auto, unfolding(crate::specs::Fixed::is_pay_to_anchor))]
pub fn p2a(s: &[u8]) -> bool
    ensures { result ≡ is_pay_to_anchor s.now }
{
    if s.len() == P2A_LEN {
        (s[0] == OP_PUSHNUM_1)
            & (s[1] == ANCHOR_SIZE)
            & (s[2] == ANCHOR_FIRST)
            & (s[3] == ANCHOR_SECOND)
    } else {
        false
    }
}

// Whether a script is a key of so many bytes and OP_CHECKSIG.
#[tactic(auto, unfolding(crate::specs::Fixed::is_key_of))]
fn keyed(s: &[u8], size: u8) -> bool
    ensures { result ≡ is_key_of size s.now }
{
    let n = size as usize;
    if s.len() == n + 2 {
        (s[0] == size) & (s[n + 1] == OP_CHECKSIG)
    } else {
        false
    }
}

// Pay to pubkey.
#[tactic(auto, unfolding(crate::specs::Fixed::is_pay_to_pubkey))]
pub fn p2pk(s: &[u8]) -> bool
    ensures { result ≡ is_pay_to_pubkey s.now }
{
    keyed(s, KEY_SIZE) | keyed(s, COMPRESSED_KEY_SIZE)
}

// Whether a script starts with OP_RETURN.
#[tactic(auto, unfolding(crate::specs::Fixed::is_op_return))]
pub fn op_return(s: &[u8]) -> bool
    ensures { result ≡ is_op_return s.now }
{
    if s.len() < 1 {
        false
    } else {
        s[0] == OP_RETURN
    }
}
