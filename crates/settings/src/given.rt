// The program's arguments, as one text.
ghost use Rattle.std.specs.Prelude.{◌≤◌, length};

use std::env::Env;

// Puts the arguments to the front of input, a space behind each; answers how many bytes they are. Where one does not fit, all of input
// counts as used.
pub fn arguments(rt: &impl Env, input: &mut [u8]) -> usize {
    let mut used = 0;
    for i in 1..usize::MAX {
        if !stream::is_given(rt, i) {
            break;
        }
        used = add(rt, i, input, used);
    }
    used
}

// Puts argument i behind the bytes that are used.
fn add(rt: &impl Env, i: usize, input: &mut [u8], used: usize) -> usize
    requires { used ≤ length input.old }
    ensures { result ≤ length input.new }
{
    let most = input.len();
    let free = &mut input[used..];
    match rt.arg(i, free) {
        Ok(n) if n < free.len() => {
            free[n] = b' ';
            used + n + 1
        }
        _ => most,
    }
}
