// The name of an opcode, read off the pool of names.
#![tactic(auto)]

ghost use Rattle.std.specs.Prelude.{◌≡◌, ◌+◌, length, get_or};
ghost use Rattle.laws.specs.Buffer.{writes, after};
ghost use Rattle.refusal.specs.Answer.{said};
ghost use Rattle.pool.specs.Names.{name_of};
ghost use Rattle.pool.specs.Pool.{pool_of_names, starts_of_names, lengths_of_names, placed, place_in};

use pool::{name_lengths, name_pool, name_starts};
use refusal::Refusal;

// How many bytes the name of an opcode has, by lent lengths.
pub fn name_len_in(lengths: &[u8; 256], code: u8) -> usize
    ensures { result ≡ get_or lengths.now code 0 }
{
    usize::from(lengths[code as usize])
}

// The name of an opcode as a part of the lent pool: so many bytes from its start on as the lent tables say, or as many of them as the
// pool has.
#[tactic(auto, unfolding(pool::specs::Pool::placed, pool::specs::Pool::place_in))]
pub fn name_in<'a>(pool: &'a [u8], starts: &[u16; 256], lengths: &[u8; 256], code: u8) -> &'a [u8]
    ensures bytes { result.now ≡ placed pool.now starts.now lengths.now code }
    ensures place { result.ref_ptr ≡ (pool.entry.ref_ptr.0, place_in pool.now starts.now code + pool.entry.ref_ptr.1) }
{
    let start = usize::from(starts[code as usize]);
    let len = name_len_in(lengths, code);
    let size = pool.len();
    if size < start {
        return &pool[size..];
    }
    if size - start < len {
        return &pool[start..];
    }
    let end = start + len;
    &pool[start..end]
}

// How many bytes each name has: the table of lengths, known to be that of the names.
#[derive(Drop)]
pub struct NameLengths {
    table: [u8; 256],
    ghost of_names: { table ≡ lengths_of_names },
}

impl NameLengths {
    // The table, built once to be lent. Laid into its caller at once, it is built where the caller keeps it and copied no more.
    #[inline(always)]
    pub fn new() -> Self {
        NameLengths {
            table: name_lengths(),
        }
    }

    // How many bytes the name of an opcode has.
    #[tactic(auto, using(pool::proofs::Pooled::length_at))]
    pub fn len(&self, code: u8) -> usize
        ensures { result ≡ length (name_of code) }
    {
        name_len_in(&self.table, code)
    }
}

// The names: the pool and the two tables that say where each name lies in it, known to be those of the names.
#[derive(Drop)]
pub struct Names {
    pool: [u8; 3095],
    starts: [u16; 256],
    lengths: NameLengths,
    ghost pool_is: { pool ≡ pool_of_names },
    ghost starts_are: { starts ≡ starts_of_names },
}

impl Names {
    // The pool and the tables, built once to be lent.
    pub fn new() -> Self {
        Names {
            pool: name_pool(),
            starts: name_starts(),
            lengths: NameLengths::new(),
        }
    }

    // The name of an opcode, a part of the pool.
    #[tactic(auto, using(pool::proofs::Pooled::name_at))]
    pub fn name(&self, code: u8) -> &[u8]
        ensures { result.now ≡ name_of code }
    {
        name_in(&self.pool, &self.starts, &self.lengths.table, code)
    }
}

// How many bytes the name of an opcode has.
pub fn name_len(code: u8) -> usize
    ensures { result ≡ length (name_of code) }
{
    let lengths = NameLengths::new();
    lengths.len(code)
}

// Writes the name of an opcode to the front of a lent buffer and answers its length; NoRoom, with the buffer untouched, where the buffer is
// shorter.
#[tactic(auto, using(copying::proofs::Whole::all_copied, copying::proofs::Whole::copied_whole))]
pub fn write_name(code: u8, out: &mut [u8]) -> Result<usize, Refusal>
    ensures answer { said result ≡ writes (name_of code) (length out.old) }
    ensures left { out.new ≡ after (writes (name_of code) (length out.old)) (name_of code) out.old }
{
    let names = Names::new();
    let name = names.name(code);
    if out.len() < name.len() {
        return Err(Refusal::NoRoom(name.len()));
    }
    Ok(copying::copy(name, out))
}
