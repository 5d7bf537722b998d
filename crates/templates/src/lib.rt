// Templates: which of the standard forms a script has, and what stands in it.
#![tactic(auto, unfolding(crate::specs::Says::judges))]

ghost use Rattle.std.specs.Prelude.{◌≡◌, false, ◌++◌, ◌+◌, ◌≤◌, length, drop};
ghost use Rattle.laws.specs.Buffer.{after};
ghost use Rattle.walk.specs.Part.{Part};
ghost use Rattle.fixed.specs.Fixed.{is_pay_to_pubkey_hash, witness_version, code_for, script_code};
ghost use Rattle.walked.specs.Walked.{redeem_script};
ghost use Rattle.templates.specs.Kind.{kind_of};
ghost use Rattle.templates.specs.Says.{judges, pubkey_of, start_of, len_of, code_says};
ghost use Rattle.templates.specs.Answer.{said_template};
ghost use Rattle.refusal.specs.Answer.{said};
ghost use Rattle.refusal.specs.Answer.{said_by};
ghost use Rattle.walked.specs.Answer.{said_place};

use fixed::{HASH160_SIZE, HASH256_SIZE};
use opcodes::{OP_CHECKSIG, OP_DUP, OP_EQUALVERIFY, OP_HASH160};
use refusal::Refusal;

mod judged;

pub use judged::{
    is_multisig, is_op_return, is_p2a, is_p2pk, is_p2pkh, is_p2sh, is_p2tr, is_p2wpkh, is_p2wsh,
    is_push_only, is_witness_program,
};
pub use walked::Place;

// Where the program stands in a witness program, behind the version and the length.
pub const PROGRAM_START: usize = 2;

// The bytes of a script code, and where the hash lies in it.
const SCRIPT_CODE_SIZE: usize = 25;

const HASH_START: usize = 3;

const HASH_END: usize = 23;

// The kinds of script, in the order in which they are tried.
#[derive(Clone, Copy, Debug, PartialEq, Eq)]
pub enum Template {
    P2pkh,
    P2sh,
    P2wpkh,
    P2wsh,
    P2tr,
    P2a,
    Witness,
    P2pk,
    Multisig,
    OpReturn,
    Other,
}

// The witness version of a witness program; nothing for any other script. Refused with 1 for a script over the limit.
pub fn witness_version(script: &[u8]) -> Result<Option<u8>, Refusal>
    ensures { said result ≡ judges witness_version script.now }
{
    refusal::check_limit(script)?;
    Ok(fixed::version(script))
}

// Where the key of a pay-to-pubkey script lies; nothing for any other script. Refused with 1 for a script over the limit.
#[tactic(auto, using(crate::proofs::Parts::key_long), unfolding(crate::specs::Says::judges, crate::specs::Says::pubkey_of))]
pub fn p2pk_key(script: &[u8]) -> Result<Option<Place>, Refusal>
    ensures { said_by said_place result ≡ judges pubkey_of script.now }
{
    refusal::check_limit(script)?;
    if fixed::p2pk(script) {
        return Ok(Some(Place {
            start: 1,
            len: script.len() - 2,
        }));
    }
    Ok(None)
}

// Where the last body of a script of pushes alone lies; nothing for any other script. Refused with 1 for a script over the limit.
pub fn redeem_script(script: &[u8]) -> Result<Option<Place>, Refusal>
    ensures { said_by said_place result ≡ judges redeem_script script.now }
{
    refusal::check_limit(script)?;
    Ok(walked::last_push(script))
}

// The bytes at a place, as a part of the script itself; an empty part at its front where there is no place.
fn part_at<'a>(script: &'a [u8], place: Result<Option<Place>, Refusal>) -> &'a [u8]
    requires { start_of (said_by said_place place) + len_of (said_by said_place place) ≤ length script.now }
    ensures { Part result script.entry (start_of (said_by said_place place)) (len_of (said_by said_place place)) }
{
    match place {
        Ok(Some(Place { start, len })) => &script[start..start + len],
        Ok(None) => &script[..0],
        Err(_) => &script[..0],
    }
}

// The key of a pay-to-pubkey script, as a part of the caller's own bytes; empty for any other script and for one over the limit.
#[tactic(auto, using(crate::proofs::Parts::key_inside))]
pub fn p2pk_key_part<'a>(script: &'a [u8]) -> &'a [u8]
    ensures { Part result script.entry (start_of (judges pubkey_of script.now)) (len_of (judges pubkey_of script.now)) }
{
    part_at(script, p2pk_key(script))
}

// The last body of a script of pushes alone, as a part of the caller's own bytes; empty for any other script and for one over the limit.
#[tactic(auto, using(crate::proofs::Parts::redeem_inside))]
pub fn redeem_part<'a>(script: &'a [u8]) -> &'a [u8]
    ensures { Part result script.entry (start_of (judges redeem_script script.now)) (len_of (judges redeem_script script.now)) }
{
    part_at(script, redeem_script(script))
}

// Writes the script code of a P2WPKH script to the front of a buffer that has room for it: its hash, as pay to pubkey hash has it.
fn write_script_code(script: &[u8], out: &mut [u8])
    requires { (length script.now ≡ 22) × (25 ≤ length out.old) }
    ensures { out.new ≡ code_for (drop 2 script.now) ++ drop 25 out.old }
{
    out[0] = OP_DUP;
    out[1] = OP_HASH160;
    out[2] = HASH160_SIZE;
    copying::copy(&script[PROGRAM_START..], &mut out[HASH_START..]);
    out[HASH_END] = OP_EQUALVERIFY;
    out[HASH_END + 1] = OP_CHECKSIG;
}

// Writes the script code by which a P2WPKH script is spent, and answers its length; nothing for any other script. Refused with 1 for a script
// over the limit, and with 7 and the bytes needed where the buffer is shorter than the code; a refused call leaves the buffer.
#[tactic(auto, using(crate::proofs::Spending::code_size), unfolding(crate::specs::Says::code_says, fixed::specs::Fixed::script_code))]
pub fn p2wpkh_script_code(script: &[u8], out: &mut [u8]) -> Result<Option<usize>, Refusal>
    ensures { (said result ≡ code_says script.now (length out.old)) × (out.new ≡ after (code_says script.now (length out.old)) (script_code script.now) out.old) }
{
    refusal::check_limit(script)?;
    if fixed::program(script, 0, HASH160_SIZE) {
        if out.len() < SCRIPT_CODE_SIZE {
            return Err(Refusal::NoRoom(SCRIPT_CODE_SIZE));
        }
        write_script_code(script, out);
        return Ok(Some(SCRIPT_CODE_SIZE));
    }
    Ok(None)
}

// The first kind that fits a script that pays to no hash of a public key. Tests of a few bytes come before the one walk, which leaves at the first
// byte unless that is a number opcode.
#[tactic(auto, unfolding(crate::specs::Kind::kind_of))]
fn later_template(s: &[u8]) -> Template
    requires { is_pay_to_pubkey_hash s.now ≡ false }
    ensures { said_template result ≡ kind_of s.now }
{
    if fixed::p2sh(s) {
        return Template::P2sh;
    }
    if fixed::program(s, 0, HASH160_SIZE) {
        return Template::P2wpkh;
    }
    if fixed::program(s, 0, HASH256_SIZE) {
        return Template::P2wsh;
    }
    if fixed::program(s, 1, HASH256_SIZE) {
        return Template::P2tr;
    }
    if fixed::p2a(s) {
        return Template::P2a;
    }
    if fixed::witness(s) {
        return Template::Witness;
    }
    if fixed::p2pk(s) {
        return Template::P2pk;
    }
    if walked::multisig(s) {
        return Template::Multisig;
    }
    if fixed::op_return(s) {
        return Template::OpReturn;
    }
    Template::Other
}

// The first kind that fits. The most frequent one has its test here, where a caller's code can take it in.
#[tactic(auto, unfolding(crate::specs::Kind::kind_of))]
fn template_of(s: &[u8]) -> Template
    ensures { said_template result ≡ kind_of s.now }
{
    if fixed::p2pkh(s) {
        return Template::P2pkh;
    }
    later_template(s)
}

// The kind of a script. Refused with 1 for a script over the limit.
pub fn kind(script: &[u8]) -> Result<Template, Refusal>
    ensures { said_by said_template result ≡ judges kind_of script.now }
{
    refusal::check_limit(script)?;
    Ok(template_of(script))
}
