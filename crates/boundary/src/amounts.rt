// Signature operations, dust, and the length of the text.
ghost use Rattle.std.specs.Prelude.{◌≡◌, true, false};
ghost use Rattle.counts.specs.Count.{count_says};
ghost use Rattle.dust.specs.Dust.{dust_says, custom_says};
ghost use Rattle.asm.specs.Asm.{asm_len_says};
ghost use Rattle.hand.specs.Handed.{handed, says, one};

// The signature operations, as a node counts them in a redeem script.
#[unsafe(no_mangle)]
pub extern "C" fn bb_count_sigops(script: &[u8], values: &mut [u64]) -> u32
    ensures { handed result values.new ≡ says 1 one (count_says true script.now) values.old }
{
    hand::over(counts::count_sigops(script), values)
}

// The signature operations with 20 for every CHECKMULTISIG.
#[unsafe(no_mangle)]
pub extern "C" fn bb_count_sigops_legacy(script: &[u8], values: &mut [u64]) -> u32
    ensures { handed result values.new ≡ says 1 one (count_says false script.now) values.old }
{
    hand::over(counts::count_sigops_legacy(script), values)
}

// The least amount that is no dust.
#[unsafe(no_mangle)]
pub extern "C" fn bb_minimal_non_dust(script: &[u8], values: &mut [u64]) -> u32
    ensures { handed result values.new ≡ says 1 one (dust_says script.now) values.old }
{
    hand::over(dust::minimal_non_dust(script), values)
}

// The same at a rate in satoshi per 1000 weight units.
#[unsafe(no_mangle)]
pub extern "C" fn bb_minimal_non_dust_custom(script: &[u8], rate: u64, values: &mut [u64]) -> u32
    ensures { handed result values.new ≡ says 1 one (custom_says script.now rate) values.old }
{
    hand::over(dust::minimal_non_dust_custom(script, rate), values)
}

// The length of the asm text.
#[unsafe(no_mangle)]
pub extern "C" fn bb_asm_len(script: &[u8], values: &mut [u64]) -> u32
    ensures { handed result values.new ≡ says 1 one (asm_len_says script.now) values.old }
{
    hand::over(text::asm_len(script), values)
}
