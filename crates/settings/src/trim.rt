// Settings tidied: a comma ends a setting as the end of a line does, tabs and carriage returns are spaces, as is all from
// a # to the end of its line, and the spaces at either end of a setting count for nothing.

// Tidies settings.
pub fn tidy(s: &mut [u8]) {
    let mut comment = false;
    for b in s.iter_mut() {
        comment = match *b {
            b'\n' => false,
            b'#' => true,
            _ => comment,
        };
        *b = tidied(comment, *b);
    }
}

// A byte tidied, in a comment or not.
fn tidied(comment: bool, b: u8) -> u8 {
    match b {
        _ if comment => b' ',
        b',' => b'\n',
        b'\t' | b'\r' => b' ',
        _ => b,
    }
}

// s without the spaces at either end.
pub fn bare(s: &[u8]) -> &[u8] {
    let start = s.iter().take_while(|b| **b == b' ').count();
    let t = lines::tail(s, start);
    match t.iter().rposition(|b| *b != b' ') {
        Some(last) => &t[..=last],
        None => t,
    }
}

// The first word of s, and the words behind it.
pub fn split(s: &[u8]) -> (&[u8], &[u8]) {
    (lines::first(s), bare(lines::rest(s)))
}
