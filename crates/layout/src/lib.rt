// What a builder's calls share: whether they take the builder, the opcode that they choose, and a push laid out behind the used bytes.
#![tactic(auto)]

mod choose;
mod given;
mod store;

pub use choose::{int_opcode, last_opcode, verify_form};
pub use given::{check, shown_len};
pub use store::lay;
