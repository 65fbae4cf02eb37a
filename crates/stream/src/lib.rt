// What the programs share: standard input, a line at a time and of any length, or whole; standard output in parts; the lines of a
// capture; and why a program failed.
#![tactic(auto)]

mod arguments;
mod capture;
mod failure;
mod input;
mod output;
mod whole;

pub use arguments::is_given;
pub use capture::{Capture, lines};
pub use failure::Failure;
pub use input::{Input, Reader};
pub use output::{Output, Writer};
pub use whole::{read_all, read_full};
