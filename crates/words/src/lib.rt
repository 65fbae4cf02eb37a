// The words of a request, and the reply to it. Part of the programs inspect and bench.
#![tactic(auto)]

mod put;
mod word;

pub use put::Reply;
pub use word::{MESSAGES, Words, byte, hex, plain};
