// Templates.
ghost use Rattle.std.specs.Prelude.{◌≡◌, [], ◌∷◌};
ghost use Rattle.fixed.specs.Fixed.{is_pay_to_script_hash, is_pay_to_pubkey_hash, is_pay_to_witness_pubkey_hash, is_pay_to_witness_script_hash, is_pay_to_taproot, is_pay_to_anchor, is_pay_to_pubkey, is_op_return, witness_version, is_witness_program};
ghost use Rattle.walked.specs.Walked.{is_multisig, is_push_only, redeem_script};
ghost use Rattle.templates.specs.Kind.{kind_of};
ghost use Rattle.templates.specs.Says.{judges, pubkey_of, start_of, len_of};
ghost use Rattle.hand.specs.Handed.{handed, says, gives, one, yes, maybe, two_of, kind_row};

// Whether a script pays to a script hash.
#[unsafe(no_mangle)]
pub extern "C" fn bb_is_p2sh(script: &[u8], values: &mut [u64]) -> u32
    ensures { handed result values.new ≡ says 1 yes (judges is_pay_to_script_hash script.now) values.old }
{
    hand::over(templates::is_p2sh(script), values)
}

// Whether a script pays to the hash of a public key.
#[unsafe(no_mangle)]
pub extern "C" fn bb_is_p2pkh(script: &[u8], values: &mut [u64]) -> u32
    ensures { handed result values.new ≡ says 1 yes (judges is_pay_to_pubkey_hash script.now) values.old }
{
    hand::over(templates::is_p2pkh(script), values)
}

// Whether a script is a witness program.
#[unsafe(no_mangle)]
pub extern "C" fn bb_is_witness_program(script: &[u8], values: &mut [u64]) -> u32
    ensures { handed result values.new ≡ says 1 yes (judges is_witness_program script.now) values.old }
{
    hand::over(templates::is_witness_program(script), values)
}

// Whether a script pays to the hash of a public key, as a witness program.
#[unsafe(no_mangle)]
pub extern "C" fn bb_is_p2wpkh(script: &[u8], values: &mut [u64]) -> u32
    ensures { handed result values.new ≡ says 1 yes (judges is_pay_to_witness_pubkey_hash script.now) values.old }
{
    hand::over(templates::is_p2wpkh(script), values)
}

// Whether a script pays to a script hash, as a witness program.
#[unsafe(no_mangle)]
pub extern "C" fn bb_is_p2wsh(script: &[u8], values: &mut [u64]) -> u32
    ensures { handed result values.new ≡ says 1 yes (judges is_pay_to_witness_script_hash script.now) values.old }
{
    hand::over(templates::is_p2wsh(script), values)
}

// Whether a script pays to a taproot output key.
#[unsafe(no_mangle)]
pub extern "C" fn bb_is_p2tr(script: &[u8], values: &mut [u64]) -> u32
    ensures { handed result values.new ≡ says 1 yes (judges is_pay_to_taproot script.now) values.old }
{
    hand::over(templates::is_p2tr(script), values)
}

// Whether a script pays to an anchor.
#[unsafe(no_mangle)]
pub extern "C" fn bb_is_p2a(script: &[u8], values: &mut [u64]) -> u32
    ensures { handed result values.new ≡ says 1 yes (judges is_pay_to_anchor script.now) values.old }
{
    hand::over(templates::is_p2a(script), values)
}

// Whether a script pays to a public key.
#[unsafe(no_mangle)]
pub extern "C" fn bb_is_p2pk(script: &[u8], values: &mut [u64]) -> u32
    ensures { handed result values.new ≡ says 1 yes (judges is_pay_to_pubkey script.now) values.old }
{
    hand::over(templates::is_p2pk(script), values)
}

// Whether a script is a multisig script.
#[unsafe(no_mangle)]
pub extern "C" fn bb_is_multisig(script: &[u8], values: &mut [u64]) -> u32
    ensures { handed result values.new ≡ says 1 yes (judges is_multisig script.now) values.old }
{
    hand::over(templates::is_multisig(script), values)
}

// Whether a script starts with OP_RETURN.
#[unsafe(no_mangle)]
pub extern "C" fn bb_is_op_return(script: &[u8], values: &mut [u64]) -> u32
    ensures { handed result values.new ≡ says 1 yes (judges is_op_return script.now) values.old }
{
    hand::over(templates::is_op_return(script), values)
}

// Whether a script has pushes alone.
#[unsafe(no_mangle)]
pub extern "C" fn bb_is_push_only(script: &[u8], values: &mut [u64]) -> u32
    ensures { handed result values.new ≡ says 1 yes (judges is_push_only script.now) values.old }
{
    hand::over(templates::is_push_only(script), values)
}

// The witness version.
#[unsafe(no_mangle)]
pub extern "C" fn bb_witness_version(script: &[u8], values: &mut [u64]) -> u32
    ensures { handed result values.new ≡ says 2 (maybe one) (judges witness_version script.now) values.old }
{
    hand::over(templates::witness_version(script), values)
}

// Where the key of a pay-to-pubkey script lies.
#[tactic(auto, using(hand::proofs::Handing::says_place))]
#[unsafe(no_mangle)]
pub extern "C" fn bb_p2pk_key(script: &[u8], values: &mut [u64]) -> u32
    ensures { handed result values.new ≡ says 3 (maybe two_of) (judges pubkey_of script.now) values.old }
{
    hand::over(templates::p2pk_key(script), values)
}

// Where the last body of a script of pushes alone lies.
#[tactic(auto, using(hand::proofs::Handing::says_place))]
#[unsafe(no_mangle)]
pub extern "C" fn bb_redeem_script(script: &[u8], values: &mut [u64]) -> u32
    ensures { handed result values.new ≡ says 3 (maybe two_of) (judges redeem_script script.now) values.old }
{
    hand::over(templates::redeem_script(script), values)
}

// The key of a pay-to-pubkey script, as a part.
#[unsafe(no_mangle)]
pub extern "C" fn bb_p2pk_key_part(script: &[u8], values: &mut [u64]) -> u32
    ensures { handed result values.new ≡ gives 2 (start_of (judges pubkey_of script.now) ∷ (len_of (judges pubkey_of script.now) ∷ [])) values.old }
{
    hand::part(templates::p2pk_key(script), values)
}

// The last body of a script of pushes alone, as a part.
#[unsafe(no_mangle)]
pub extern "C" fn bb_redeem_part(script: &[u8], values: &mut [u64]) -> u32
    ensures { handed result values.new ≡ gives 2 (start_of (judges redeem_script script.now) ∷ (len_of (judges redeem_script script.now) ∷ [])) values.old }
{
    hand::part(templates::redeem_script(script), values)
}

// The first kind that fits.
#[unsafe(no_mangle)]
pub extern "C" fn bb_kind(script: &[u8], values: &mut [u64]) -> u32
    ensures { handed result values.new ≡ says 1 kind_row (judges kind_of script.now) values.old }
{
    hand::over(templates::kind(script), values)
}
