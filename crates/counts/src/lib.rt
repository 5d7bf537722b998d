// Signature operations of a script, as a node counts them.
#![tactic(auto)]

ghost use Rattle.std.specs.Prelude.{true, false, ◌≡◌, ◌≤◌};
ghost use Rattle.refusal.specs.Answer.{said};
ghost use Rattle.counts.specs.Count.{multisig_ops, sig_ops, count_says};

use opcodes::{
    OP_CHECKMULTISIG, OP_CHECKMULTISIGVERIFY, OP_CHECKSIG, OP_CHECKSIGVERIFY, OP_INVALIDOPCODE,
};
use refusal::Refusal;
use walk::{Cursor, Instruction, Mode};

// What a multisig counts where the number of its keys is not known.
const MAX_PUBKEYS_PER_MULTISIG: usize = 20;

// How many keys the multisig after `last` has: what a number opcode says, else the most.
#[tactic(auto, unfolding(crate::specs::Count::multisig_ops))]
fn keys_after(last: u8) -> usize
    ensures { (result ≡ multisig_ops true last) × (result ≤ 20) }
{
    match opcodes::decode_pushnum(last) {
        Some(n) => n as usize,
        None => MAX_PUBKEYS_PER_MULTISIG,
    }
}

// How many signature operations the opcode counts, where `last` is the one before it.
#[tactic(auto, unfolding(crate::specs::Count::multisig_ops, crate::specs::Count::sig_ops))]
fn sigops_of(accurate: bool, last: u8, code: u8) -> usize
    ensures { (result ≡ sig_ops accurate last code) × (result ≤ 20) }
{
    match code {
        OP_CHECKSIG | OP_CHECKSIGVERIFY => 1,
        OP_CHECKMULTISIG | OP_CHECKMULTISIGVERIFY => {
            if accurate {
                keys_after(last)
            } else {
                MAX_PUBKEYS_PER_MULTISIG
            }
        }
        _ => 0,
    }
}

// The signature operations up to the script's end, or up to a cut push. Refused with 1 for a script over the limit.
fn count(script: &[u8], accurate: bool) -> Result<usize, Refusal>
    ensures { said result ≡ count_says accurate script.now }
{
    refusal::check_limit(script)?;
    let mut c = Cursor::new();
    let mut n: usize = 0;
    let mut last = OP_INVALIDOPCODE;
    loop {
        let at = c.at;
        let stepped = c.next(script, Mode::Plain);
        let Ok(found) = stepped.found else {
            return Ok(n);
        };
        match found {
            None => return Ok(n),
            Some(Instruction::Opcode { code, .. }) => {
                n += sigops_of(accurate, last, code);
                last = code;
                c = stepped.next;
            }
            Some(Instruction::Push { .. }) => {
                last = script[at];
                c = stepped.next;
            }
        }
    }
}

// The signature operations, where a multisig directly after a number opcode counts that number. Refused with 1 for a script over the limit.
pub fn count_sigops(script: &[u8]) -> Result<usize, Refusal>
    ensures { said result ≡ count_says true script.now }
{
    count(script, true)
}

// The signature operations, where each multisig counts 20. Refused with 1 for a script over the limit.
pub fn count_sigops_legacy(script: &[u8]) -> Result<usize, Refusal>
    ensures { said result ≡ count_says false script.now }
{
    count(script, false)
}
