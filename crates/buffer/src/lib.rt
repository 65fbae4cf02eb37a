// Bytes in a lent buffer: what a writer or lister answers and leaves there, pieces put one behind the other, and those in use
// moved to the front.
#![tactic(auto)]

ghost use Rattle.std.specs.Prelude.{◌≡◌, [], ◌∷◌, ◌++◌, ◌+◌, ◌≤◌, length, take};
ghost use Rattle.std.proofs.Math.Seq.{paste};
ghost use Rattle.buffer.specs.Wrote.{refused_by, no_room, done_by, ends, over_by, wrote};
ghost use Rattle.buffer.specs.Filled.{filled, in_use, added, shifted};

// What a writer or lister answers: the refusal's number or 0, what it reports (bytes written or fields
// listed), and at 16 the bytes needed.
// Kept: a number beside the values, since C has the record as it stands.
#[repr(C)]
#[derive(Drop)]
pub struct Answer {
    pub refusal: u8,
    pub reported: usize,
    pub needed: usize,
}

// The answer of a refusal: nothing reported, nothing needed.
pub fn refused(n: u8) -> Answer
    ensures { result ≡ refused_by n }
{
    Answer {
        refusal: n,
        reported: 0,
        needed: 0,
    }
}

// The answer where the buffer is too short for n bytes.
pub fn no_room(n: usize) -> Answer
    ensures { result ≡ no_room n }
{
    Answer {
        refusal: 16,
        reported: 0,
        needed: n,
    }
}

// The answer where all is done and n reported.
pub fn done(n: usize) -> Answer
    ensures { result ≡ done_by n }
{
    Answer {
        refusal: 0,
        reported: n,
        needed: 0,
    }
}

// Copies all of s into out from the place `at` on.
fn copy(s: &[u8], out: &mut [u8], at: usize)
    requires { at + length s.now ≤ length out.old }
    ensures { out.new ≡ paste out.old at s.now (length s.now) }
{
    for i in 0..s.len() {
        out[at + i] = s[i];
    }
}

// Writes bytes to the front of out, or answers 16 and leaves it alone.
pub fn write(bytes: &[u8], out: &mut [u8]) -> Answer
    ensures { ends result out.new ≡ wrote 0 bytes.now out.old }
{
    let n = bytes.len();
    if out.len() < n {
        return no_room(n);
    }
    copy(bytes, out, 0);
    done(n)
}

// Writes head, middle and tail to the front of out, one behind the other and at most `limit` bytes: over it answers 1, without room
// 16, and either leaves out alone.
pub fn write_three(limit: usize, head: &[u8], middle: &[u8], tail: &[u8], out: &mut [u8]) -> Answer
    ensures { ends result out.new ≡ wrote (over_by limit (head.now ++ (middle.now ++ tail.now))) (head.now ++ (middle.now ++ tail.now)) out.old }
{
    let n = head.len();
    let m = middle.len();
    let k = tail.len();
    if limit < n {
        return refused(1);
    }
    if limit - n < m {
        return refused(1);
    }
    if limit - n - m < k {
        return refused(1);
    }
    if out.len() < n + m + k {
        return no_room(n + m + k);
    }
    copy(head, out, 0);
    copy(middle, out, n);
    copy(tail, out, n + m);
    done(n + m + k)
}

// Writes head and tail in the same way.
pub fn write_two(limit: usize, head: &[u8], tail: &[u8], out: &mut [u8]) -> Answer
    ensures { ends result out.new ≡ wrote (over_by limit (head.now ++ tail.now)) (head.now ++ tail.now) out.old }
{
    write_three(limit, head, tail, b"", out)
}

// ---- pieces

// A lent buffer, and how many bytes at its front are in use. A piece goes behind those; one that does not fit is left out.
#[derive(Drop)]
pub struct Pieces<'a> {
    pub bytes: &'a mut [u8],
    pub len: usize,
}

impl<'a> Pieces<'a> {
    // A buffer of which nothing is in use.
    pub fn new(bytes: &'a mut [u8]) -> Pieces<'a>
        ensures same_reference { result.bytes.ghost_name ≡ bytes.entry.ghost_name }
        ensures value { in_use result ≡ filled bytes.old 0 }
    {
        Pieces { bytes, len: 0 }
    }

    // A buffer whose first `len` bytes are in use.
    pub fn behind(bytes: &'a mut [u8], len: usize) -> Pieces<'a>
        ensures same_reference { result.bytes.ghost_name ≡ bytes.entry.ghost_name }
        ensures value { in_use result ≡ filled bytes.old len }
    {
        Pieces { bytes, len }
    }

    // Puts a text.
    pub fn put(&mut self, s: &[u8])
        ensures same_reference { self.new.bytes.ghost_name ≡ self.old.bytes.ghost_name }
        ensures value { in_use self.new ≡ added (in_use self.old) s.now }
    {
        if self.len <= self.bytes.len() {
            let answer = write(s, &mut self.bytes[self.len..]);
            self.len += answer.reported;
        }
    }

    // Puts one byte.
    pub fn put_byte(&mut self, b: u8)
        ensures same_reference { self.new.bytes.ghost_name ≡ self.old.bytes.ghost_name }
        ensures value { in_use self.new ≡ added (in_use self.old) (b ∷ []) }
    {
        if self.len < self.bytes.len() {
            self.bytes[self.len] = b;
            self.len += 1;
        }
    }

    // The bytes in use; all of the buffer where it has fewer.
    pub fn written(&self) -> &[u8]
        ensures { result.now ≡ take self.now.len self.now.bytes.now }
    {
        &self.bytes[..self.len.min(self.bytes.len())]
    }
}

// Moves the bytes of buffer from the place `from` up to `to` to its front; answers how many they are.
pub fn shift(buffer: &mut [u8], from: usize, to: usize) -> usize
    ensures { filled buffer.new result ≡ shifted buffer.old from to }
{
    if to < from || buffer.len() < to {
        return 0;
    }
    buffer.copy_within(from..to, 0);
    to - from
}
