// The program's arguments.
use std::env::{Env, FillError};

// Whether there is an argument i.
pub fn is_given(rt: &impl Env, i: usize) -> bool {
    let mut word = [0u8; 1];
    !matches!(rt.arg(i, &mut word), Err(FillError::NotPresent))
}
