// Lines of text: the parts of a line, and the lines of a lent capture.
#![tactic(auto)]

ghost use Rattle.std.specs.Prelude.{◌≡◌, length, take, drop};
ghost use Rattle.lines.specs.Parts.{first_word, other_words};
ghost use Rattle.lines.specs.Lines.{without_return, line_at};

// ---- parts of a line

// The first n bytes of s, or all of it where it has fewer.
pub fn cut(s: &[u8], n: usize) -> &[u8]
    ensures { result.now ≡ take n s.now }
{
    &s[..n.min(s.len())]
}

// What stands behind the first n bytes of s.
pub fn tail(s: &[u8], n: usize) -> &[u8]
    ensures { result.now ≡ drop n s.now }
{
    &s[n.min(s.len())..]
}

// The first word of s.
#[tactic(auto, unfolding(crate::specs::Parts::first_word))]
pub fn first(s: &[u8]) -> &[u8]
    ensures { result.now ≡ first_word s.now }
{
    cut(s, laws::find(s, b' '))
}

// What stands behind the first word and its space.
#[tactic(auto, unfolding(crate::specs::Parts::other_words))]
pub fn rest(s: &[u8]) -> &[u8]
    ensures { result.now ≡ other_words s.now }
{
    tail(tail(s, laws::find(s, b' ')), 1)
}

// ---- the lines of a capture

// A line of a capture: where it starts and ends, and the place of the next one.
#[derive(Clone, Copy)]
pub struct Line {
    pub start: usize,
    pub end: usize,
    pub next: usize,
}

// How many bytes stand before an LF, without a CR that ends them.
#[tactic(auto, unfolding(crate::specs::Lines::without_return))]
fn length_of(line: &[u8]) -> usize
    ensures { result ≡ length (without_return line.now) }
{
    match line {
        [text @ .., b'\r'] => text.len(),
        _ => line.len(),
    }
}

// The line that starts at the place `from`, if there is one. It ends before its LF, and before a CR in front of that; the last line
// may have no LF.
pub fn line_at(s: &[u8], from: usize) -> Option<Line>
    ensures { result ≡ line_at s.now from }
{
    if s.len() <= from {
        return None;
    }
    let t = &s[from..];
    let n = laws::find(t, b'\n');
    if n == t.len() {
        return Some(Line {
            start: from,
            end: s.len(),
            next: s.len(),
        });
    }
    Some(Line {
        start: from,
        end: from + length_of(&t[..n]),
        next: from + n + 1,
    })
}
