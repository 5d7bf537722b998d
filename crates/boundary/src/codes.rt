// Opcodes and script numbers.
ghost use Rattle.std.specs.Prelude.{◌≡◌, true, false, length};
ghost use Rattle.laws.specs.Said.{answers};
ghost use Rattle.opcodes.specs.Opcode.{sort_of, pushnum_of, verify_of};
ghost use Rattle.pool.specs.Names.{name_of};
ghost use Rattle.numbers.specs.ScriptNum.{script_num, n_default_max_num_size};
ghost use Rattle.numbers.specs.Answer.{len_says, bool_says};
ghost use Rattle.hand.specs.Handed.{handed, says, reads, one, yes, maybe, sort_row};

// The sort of an opcode byte.
#[unsafe(no_mangle)]
pub extern "C" fn bb_classify(code: u8, values: &mut [u64]) -> u32
    ensures { handed result values.new ≡ says 2 sort_row (answers (sort_of code)) values.old }
{
    hand::over(Ok(opcodes::classify(code)), values)
}

// The number that a number opcode carries.
#[unsafe(no_mangle)]
pub extern "C" fn bb_decode_pushnum(code: u8, values: &mut [u64]) -> u32
    ensures { handed result values.new ≡ says 2 (maybe one) (answers (pushnum_of code)) values.old }
{
    hand::over(Ok(opcodes::decode_pushnum(code)), values)
}

// The opcode that does the same and then verifies.
#[unsafe(no_mangle)]
pub extern "C" fn bb_opcode_to_verify(code: u8, values: &mut [u64]) -> u32
    ensures { handed result values.new ≡ says 2 (maybe one) (answers (verify_of code)) values.old }
{
    hand::over(Ok(opcodes::opcode_to_verify(code)), values)
}

// The length of an opcode's name.
#[unsafe(no_mangle)]
pub extern "C" fn bb_name_len(code: u8, values: &mut [u64]) -> u32
    ensures { handed result values.new ≡ says 1 one (answers (length (name_of code))) values.old }
{
    hand::over(Ok(names::name_len(code)), values)
}

// How many bytes `bb_write_scriptint` needs.
#[unsafe(no_mangle)]
pub extern "C" fn bb_scriptint_len(n: i64, values: &mut [u64]) -> u32
    ensures { handed result values.new ≡ says 1 one (len_says n) values.old }
{
    hand::over(numbers::scriptint_len(n), values)
}

// A number in the writer's form.
#[unsafe(no_mangle)]
pub extern "C" fn bb_read_scriptint(v: &[u8], number: &mut [i64]) -> u32
    ensures { handed result number.new ≡ reads (script_num n_default_max_num_size true v.now) number.old }
{
    hand::number(numbers::read_scriptint(v), number)
}

// Any 0 to 4 bytes as a number.
#[unsafe(no_mangle)]
pub extern "C" fn bb_read_scriptint_non_minimal(v: &[u8], number: &mut [i64]) -> u32
    ensures { handed result number.new ≡ reads (script_num n_default_max_num_size false v.now) number.old }
{
    hand::number(numbers::read_scriptint_non_minimal(v), number)
}

// Bytes as yes or no.
#[unsafe(no_mangle)]
pub extern "C" fn bb_read_scriptbool(v: &[u8], values: &mut [u64]) -> u32
    ensures { handed result values.new ≡ says 1 yes (bool_says v.now) values.old }
{
    hand::over(numbers::read_scriptbool(v), values)
}
