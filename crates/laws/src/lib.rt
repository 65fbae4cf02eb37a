// What the other crates share: the search for a byte. The definitions and laws beside it are what all proofs cite.
#![tactic(auto)]

ghost use Rattle.std.specs.Prelude.{◌≡◌, ◌+◌, ◌≤◌, length, drop};
ghost use Rattle.laws.specs.Lists.{index_of};

// The place of the first b of t, or one of the last few places before which there is none: four bytes are looked at in each turn.
// Kept: counted by hand; over lines as they come `iter().position` executes 33 % more instructions, `memchr` 13 % more.
fn find_by_fours(t: &[u8], b: u8) -> usize
    ensures { (result ≤ length t.now) × (index_of b t.now ≡ result + index_of b (drop result t.now)) }
{
    let mut i: usize = 0;
    while i + 3 < t.len() {
        if t[i] == b {
            return i;
        }
        if t[i + 1] == b {
            return i + 1;
        }
        if t[i + 2] == b {
            return i + 2;
        }
        if t[i + 3] == b {
            return i + 3;
        }
        i += 4;
    }
    i
}

// The place of the first b of t, or t's length.
// Kept: counted by hand; with `for x in &t[i..]` the search executes 9 % more instructions.
pub fn find(t: &[u8], b: u8) -> usize
    ensures { result ≡ index_of b t.now }
{
    let mut i = find_by_fours(t, b);
    while i < t.len() {
        if t[i] == b {
            return i;
        }
        i += 1;
    }
    i
}
