// Yes or no to each template, an entry for each that document 01 names. Every answer is refused with 1 for a script over the limit.
ghost use Rattle.std.specs.Prelude.{◌≡◌};
ghost use Rattle.refusal.specs.Answer.{said};
ghost use Rattle.fixed.specs.Fixed.{is_pay_to_script_hash, is_pay_to_pubkey_hash, is_pay_to_witness_pubkey_hash, is_pay_to_witness_script_hash, is_pay_to_taproot, is_pay_to_anchor, is_pay_to_pubkey, is_op_return, is_witness_program};
ghost use Rattle.walked.specs.Walked.{is_multisig, is_push_only};
ghost use Rattle.templates.specs.Says.{judges};

use fixed::{HASH160_SIZE, HASH256_SIZE};
use refusal::Refusal;

// The answer, unless the script is over the limit.
fn judge(script: &[u8], answer: bool) -> Result<bool, Refusal>
    ensures { said result ≡ judges (λ _. answer) script.now }
{
    refusal::check_limit(script)?;
    Ok(answer)
}

// Whether a script pays to a script hash.
pub fn is_p2sh(script: &[u8]) -> Result<bool, Refusal>
    ensures { said result ≡ judges is_pay_to_script_hash script.now }
{
    judge(script, fixed::p2sh(script))
}

// Whether a script pays to the hash of a public key.
pub fn is_p2pkh(script: &[u8]) -> Result<bool, Refusal>
    ensures { said result ≡ judges is_pay_to_pubkey_hash script.now }
{
    judge(script, fixed::p2pkh(script))
}

// Whether a script is a witness program.
pub fn is_witness_program(script: &[u8]) -> Result<bool, Refusal>
    ensures { said result ≡ judges is_witness_program script.now }
{
    judge(script, fixed::witness(script))
}

// Whether a script pays to the hash of a public key, as a witness program.
pub fn is_p2wpkh(script: &[u8]) -> Result<bool, Refusal>
    ensures { said result ≡ judges is_pay_to_witness_pubkey_hash script.now }
{
    judge(script, fixed::program(script, 0, HASH160_SIZE))
}

// Whether a script pays to a script hash, as a witness program.
pub fn is_p2wsh(script: &[u8]) -> Result<bool, Refusal>
    ensures { said result ≡ judges is_pay_to_witness_script_hash script.now }
{
    judge(script, fixed::program(script, 0, HASH256_SIZE))
}

// Whether a script pays to taproot.
pub fn is_p2tr(script: &[u8]) -> Result<bool, Refusal>
    ensures { said result ≡ judges is_pay_to_taproot script.now }
{
    judge(script, fixed::program(script, 1, HASH256_SIZE))
}

// Whether a script pays to an anchor.
pub fn is_p2a(script: &[u8]) -> Result<bool, Refusal>
    ensures { said result ≡ judges is_pay_to_anchor script.now }
{
    judge(script, fixed::p2a(script))
}

// Whether a script pays to a public key.
pub fn is_p2pk(script: &[u8]) -> Result<bool, Refusal>
    ensures { said result ≡ judges is_pay_to_pubkey script.now }
{
    judge(script, fixed::p2pk(script))
}

// Whether a script starts with OP_RETURN.
pub fn is_op_return(script: &[u8]) -> Result<bool, Refusal>
    ensures { said result ≡ judges is_op_return script.now }
{
    judge(script, fixed::op_return(script))
}

// Whether a script is a bare multisig.
pub fn is_multisig(script: &[u8]) -> Result<bool, Refusal>
    ensures { said result ≡ judges is_multisig script.now }
{
    judge(script, walked::multisig(script))
}

// Whether a script is whole and has no opcode above OP_PUSHNUM_16.
pub fn is_push_only(script: &[u8]) -> Result<bool, Refusal>
    ensures { said result ≡ judges is_push_only script.now }
{
    judge(script, walked::push_only(script))
}
