// Script numbers: how many bytes one takes, written into a lent buffer, read strictly or not, and read as yes or no.
#![tactic(auto)]

mod read;
mod write;

pub use read::{read_scriptbool, read_scriptint, read_scriptint_non_minimal};
pub use write::{scriptint_len, write_scriptint};

// The sign of a script number: the top bit of its last byte.
pub(crate) const SIGN_BIT: u8 = 0x80;
