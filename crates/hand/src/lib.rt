// Answers handed over: a number, and values at the front of a lent slice.
#![tactic(auto)]

ghost use Rattle.std.specs.Prelude.{◌≡◌, ◌≤◌, ◌+◌, ℕ, List, [], ◌∷◌, length};
ghost use Rattle.std.proofs.Common.{rules};
ghost use Rattle.std.proofs.lemmas.List.Edits.{sets};
ghost use Rattle.refusal.specs.Refusal as refusals;
ghost use Rattle.refusal.specs.Answer.{said, said_by};
ghost use Rattle.templates.specs.Says.{start_of, len_of};
ghost use Rattle.walked.specs.Answer.{said_place};
ghost use Rattle.hand.specs.Handed.{handed, into, says, gives, reads, one, yes, maybe};
ghost use Rattle.hand.specs.Row.{one_fits, yes_fits, maybe_fits, place_row, place_fits, class_row, class_fits, template_row, template_fits};

use opcodes::Class;
use refusal::{Refusal, Value};
use templates::Template;
use walked::Place;

// What a call returns that is lent too short a slice for its answer, whatever the answer would be. It then changes nothing. That is no refusal.
pub const SHORT_VALUES: u32 = 255;

// A value in this entry, if the slice has it.
fn put(values: &mut [u64], at: usize, n: u64)
    ensures { values.new ≡ sets values.old at (n ∷ []) }
{
    if at < values.len() {
        values[at] = n;
    }
}

// Two values from this entry on, as far as the slice has entries for them.
fn pair(values: &mut [u64], at: usize, n: u64, m: u64)
    ensures { values.new ≡ sets values.old at (n ∷ (m ∷ [])) }
{
    if at < values.len() {
        put(values, at, n);
        put(values, at + 1, m);
    }
}

// A refusal: its number, and its values from this entry on, as far as the slice has entries for them. Slice and entry go side by side, as C lends the one.
pub fn refusal(why: Refusal, values: &mut [u64], at: usize) -> u32
    ensures { (result ≡ refusals.number_of why) × (values.new ≡ sets values.old at (refusals.values_of why)) }
{
    match why.value() {
        Value::Is(n) => put(values, at, n as u64),
        Value::Both(n, m) => pair(values, at, n as u64, m as u64),
        Value::Nothing => {}
    }
    why.number()
}

// A refusal at the slice's front. A slice without room for all its values is left as it was.
fn refused(why: Refusal, values: &mut [u64]) -> u32
    ensures { handed result values.new ≡ into 0 (refusals.number_of why) (refusals.values_of why) values.old }
{
    if values.len() < why.value().len() {
        return SHORT_VALUES;
    }
    refusal(why, values, 0)
}

// An answer that goes over as a row of values.
pub trait Row: Copy {
    // How many entries the slice for it must have.
    const LEAST: usize;

    ghost LEAST: { ℕ };

    ghost row_of: { Self → List ℕ };

    // Stores the row from this entry on, as far as the slice has entries for it.
    fn store(self, values: &mut [u64], at: usize)
        ensures { values.new ≡ sets values.old at (row_of self) };

    // What each `impl` must prove: the slice has an entry for every value.
    ghost fits: { (x : Self) → length (row_of x) ≤ LEAST };
}

// A row that may stand behind the 1 for something. It has two values at most, so that the least number with the 1 is known to fit its type.
pub trait Behind: Row {
    ghost brief: { Self.LEAST ≤ 2 };
}

// A count, a length.
impl Row for usize {
    const LEAST: usize = 1;

    ghost LEAST = { 1 };

    ghost row_of = { one };

    ghost fits = { one_fits };

    fn store(self, values: &mut [u64], at: usize) {
        put(values, at, self as u64);
    }
}

impl Behind for usize {
    ghost brief = { Prim.search rules };
}

// An amount.
impl Row for u64 {
    const LEAST: usize = 1;

    ghost LEAST = { 1 };

    ghost row_of = { one };

    ghost fits = { one_fits };

    fn store(self, values: &mut [u64], at: usize) {
        put(values, at, self);
    }
}

// An opcode, a version.
impl Row for u8 {
    const LEAST: usize = 1;

    ghost LEAST = { 1 };

    ghost row_of = { one };

    ghost fits = { one_fits };

    fn store(self, values: &mut [u64], at: usize) {
        put(values, at, self as u64);
    }
}

impl Behind for u8 {
    ghost brief = { Prim.search rules };
}

// 1 for yes.
impl Row for bool {
    const LEAST: usize = 1;

    ghost LEAST = { 1 };

    ghost row_of = { yes };

    ghost fits = { yes_fits };

    fn store(self, values: &mut [u64], at: usize) {
        put(values, at, u64::from(self));
    }
}

// Where bytes of a script lie.
impl Row for Place {
    const LEAST: usize = 2;

    ghost LEAST = { 2 };

    ghost row_of = { place_row };

    ghost fits = { place_fits };

    fn store(self, values: &mut [u64], at: usize) {
        pair(values, at, self.start as u64, self.len as u64);
    }
}

impl Behind for Place {
    ghost brief = { Prim.search rules };
}

// 1 and what there is, or 0 for nothing.
impl<T: Behind> Row for Option<T> {
    const LEAST: usize = 1 + T::LEAST;

    ghost LEAST = { 1 + T.LEAST };

    ghost row_of = { maybe T.row_of };

    ghost fits = { maybe_fits T.row_of T.LEAST T.fits };

    fn store(self, values: &mut [u64], at: usize) {
        match self {
            Some(row) => {
                put(values, at, 1);
                if at < values.len() {
                    row.store(values, at + 1);
                }
            }
            None => put(values, at, 0),
        }
    }
}

// The sort of an opcode byte.
impl Row for Class {
    const LEAST: usize = 2;

    ghost LEAST = { 2 };

    ghost row_of = { class_row };

    ghost fits = { class_fits };

    fn store(self, values: &mut [u64], at: usize) {
        match self {
            Class::Push(form) => pair(values, at, 0, opcodes::length_bytes(form) as u64),
            Class::PushNum => put(values, at, 1),
            Class::Ordinary => put(values, at, 2),
        }
    }
}

// A kind: its number, from 1 in document 01's order, as C has it.
impl Row for Template {
    const LEAST: usize = 1;

    ghost LEAST = { 1 };

    ghost row_of = { template_row };

    ghost fits = { template_fits };

    fn store(self, values: &mut [u64], at: usize) {
        let number = match self {
            Template::P2pkh => 1,
            Template::P2sh => 2,
            Template::P2wpkh => 3,
            Template::P2wsh => 4,
            Template::P2tr => 5,
            Template::P2a => 6,
            Template::Witness => 7,
            Template::P2pk => 8,
            Template::Multisig => 9,
            Template::OpReturn => 10,
            Template::Other => 11,
        };
        put(values, at, number);
    }
}

// An answer handed over: its row, or a refusal.
#[tactic(auto, using(crate::proofs::Handing::says_short, crate::proofs::Handing::says_refused))]
pub fn over<T: Row>(answer: Result<T, Refusal>, values: &mut [u64]) -> u32
    ensures { handed result values.new ≡ says T.LEAST T.row_of (said answer) values.old }
{
    if values.len() < T::LEAST {
        return SHORT_VALUES;
    }
    match answer {
        Ok(row) => {
            row.store(values, 0);
            0
        }
        Err(why) => refused(why, values),
    }
}

// A number that was read. It goes to a slice of signed numbers, and its refusals have no values, so it is no row.
#[tactic(auto, using(crate::proofs::Handing::reads_short))]
pub fn number(answer: Result<i64, Refusal>, values: &mut [i64]) -> u32
    ensures { handed result values.new ≡ reads (said answer) values.old }
{
    if values.len() < 1 {
        return SHORT_VALUES;
    }
    match answer {
        Ok(n) => {
            values[0] = n;
            0
        }
        Err(why) => why.number(),
    }
}

// Two numbers.
#[tactic(auto, using(crate::proofs::Handing::gives_short, crate::proofs::Handing::gives_row))]
pub fn two(a: usize, b: usize, values: &mut [u64]) -> u32
    ensures { handed result values.new ≡ gives 2 (a ∷ (b ∷ [])) values.old }
{
    if values.len() < 2 {
        return SHORT_VALUES;
    }
    values[0] = a as u64;
    values[1] = b as u64;
    0
}

// A part as its place and length; nothing at the front where there is none.
pub fn part(place: Result<Option<Place>, Refusal>, values: &mut [u64]) -> u32
    ensures { handed result values.new ≡ gives 2 (start_of (said_by said_place place) ∷ (len_of (said_by said_place place) ∷ [])) values.old }
{
    match place {
        Ok(Some(Place { start, len })) => two(start, len, values),
        _ => two(0, 0, values),
    }
}
