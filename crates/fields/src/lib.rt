// All the fields of three bytes that read as a speed and course, or as a longitude: not the writer's only. One call makes
// 256 tests of a first byte and at most 378 of a pair (6 first bytes with 63 second bytes each; for motion 60), one pass
// in all.
#![tactic(auto)]

ghost use Rattle.std.specs.Prelude.{◌≡◌, ℕ, ◌+◌, ◌*◌, ◌≤◌, Bool, length};
ghost use Rattle.std.specs.Option.{unwrap_or};
ghost use Rattle.buffer.specs.Wrote.{ends};
ghost use Rattle.buffer.specs.Filled.{in_use, added};
ghost use Rattle.lonlat.specs.Longitude.{longitude_refusal};
ghost use Rattle.fields.specs.Each.{cell, row, all_fields, flat};
ghost use Rattle.fields.specs.Lists.{listed, motion_fields, motion_refusal, longitude_fields};
ghost use Rattle.fields.specs.Search.{motion_hits, size_hits, fields_of, third_at, base_of, ten_from, no_span, Spans};

use buffer::Pieces;
use lonlat::Longitude;
use mic_e::{Course, Motion, Speed};
use std::ops::Range;

// What a list is asked for: which fields are on it, and where they are looked for.
trait Target {
    ghost hits: { Self → ℕ → ℕ → ℕ → Bool };

    // The second bytes that a first byte leaves; none is no second byte at all.
    fn seconds(&self, a: u8) -> Option<Range<u32>>
        ensures { Spans (hits self.now) a (unwrap_or result no_span) };

    // The third byte that a first and a second leave: there is one at most.
    fn third(&self, a: u8, b: u8) -> Option<u8>
        ensures { fields_of a b result ≡ cell (hits self.now) a b };
}

// ---- a speed and course

// The third byte z + 28, if the motion then reads as s knots, course c.
fn motion_at(s: u32, c: u32, a: u8, b: u8, z: u32) -> Option<u8>
    ensures { result ≡ third_at (motion_hits s c) a b z }
{
    if 227 < z {
        return None;
    }
    let d = (z + 28) as u8;
    let Motion { speed, course } = mic_e::read_motion(a, b, d)?;
    if speed.0 == s && course.0 == c {
        Some(d)
    } else {
        None
    }
}

// The ten second bytes, or what of them are bytes, whose tens are `gap`.
#[tactic(auto, unfolding(crate::specs::Search::ten_from))]
fn ten_from(gap: u32) -> Range<u32>
    ensures { result ≡ ten_from gap }
{
    match gap {
        0..=21 => 28 + 10 * gap..38 + 10 * gap,
        22 => 248..256,
        _ => 0..0,
    }
}

impl Target for Motion {
    ghost hits = { λ m. motion_hits m.speed.0 m.course.0 };

    // The tens of the second byte are what the first leaves to the speed, or to the speed and 800.
    fn seconds(&self, a: u8) -> Option<Range<u32>> {
        let first = u32::from(a).checked_sub(28)?;
        let s = self.speed.0;
        if 799 < s {
            return None;
        }
        let low = 10 * first;
        if low <= s {
            return Some(ten_from(s - low));
        }
        if s + 800 < low {
            return None;
        }
        Some(ten_from(s + 800 - low))
    }

    // What the first two leave to the course, 400 off or not.
    fn third(&self, a: u8, b: u8) -> Option<u8> {
        let second = u32::from(b).checked_sub(28)?;
        let s = self.speed.0;
        let c = self.course.0;
        if 360 < c {
            return None;
        }
        let e = 100 * (second % 10);
        if e <= c {
            return motion_at(s, c, a, b, c - e);
        }
        if c + 400 < e {
            return None;
        }
        motion_at(s, c, a, b, c + 400 - e)
    }
}

// ---- a longitude

// A longitude's size, and whether the offset is 100.
#[derive(Clone, Copy)]
struct Lying {
    size: u32,
    hundred: bool,
}

// The size that two bytes give, or nothing where no field begins with them.
fn base_of(hundred: bool, a: u8, b: u8) -> Option<u32>
    ensures { result ≡ base_of hundred a b }
{
    let longitude = mic_e::read_longitude(hundred, false, a, b, 28)?;
    Some(longitude.0.unsigned_abs())
}

impl Target for Lying {
    ghost hits = { λ l. size_hits l.size l.hundred };

    // The minutes are what the first byte leaves to the size, or one or two less; the second byte may stand for 60 more.
    fn seconds(&self, a: u8) -> Option<Range<u32>> {
        let low = base_of(self.hundred, a, 28)?;
        let rest = self.size.checked_sub(low)?;
        if 16927 < rest {
            return None;
        }
        let q = rest / 100;
        Some(q + 26..(q + 89).min(256))
    }

    // What the first two leave to the size.
    fn third(&self, a: u8, b: u8) -> Option<u8> {
        if 1080000 < self.size {
            return None;
        }
        let low = base_of(self.hundred, a, b)?;
        let rest = self.size.checked_sub(low)?;
        if 227 < rest {
            return None;
        }
        Some((rest + 28) as u8)
    }
}

// ---- the fields found, put one behind the other

// The field, if there is one.
fn put(x: Option<u8>, a: u8, b: u8, out: &mut Pieces)
    ensures same_reference { out.new.bytes.ghost_name ≡ out.old.bytes.ghost_name }
    ensures value { in_use out.new ≡ added (in_use out.old) (flat (fields_of a b x)) }
{
    if let Some(d) = x {
        out.put(&[a, b, d]);
    }
}

// The fields that begin with a.
fn fill_row<T: Target>(t: &T, a: u8, out: &mut Pieces)
    requires { out.old.len + 3 * length (row (T.hits t.now) a) ≤ length out.old.bytes.now }
    ensures same_reference { out.new.bytes.ghost_name ≡ out.old.bytes.ghost_name }
    ensures value { in_use out.new ≡ added (in_use out.old) (flat (row (T.hits t.now) a)) }
{
    for b in t.seconds(a).unwrap_or(0..0) {
        put(t.third(a, b as u8), a, b as u8, out);
    }
}

// All of them.
fn fill<T: Target>(t: &T, out: &mut Pieces)
    requires { out.old.len + 3 * length (all_fields (T.hits t.now)) ≤ length out.old.bytes.now }
    ensures same_reference { out.new.bytes.ghost_name ≡ out.old.bytes.ghost_name }
    ensures value { in_use out.new ≡ added (in_use out.old) (flat (all_fields (T.hits t.now))) }
{
    for a in 0..=255u8 {
        fill_row(t, a, out);
    }
}

// ---- lists

// A list holds at most 36 fields: they are found in a buffer of that size, and then written out.
fn list<T: Target>(t: &T, out: &mut [u8]) -> buffer::Answer
    requires { length (all_fields (T.hits t.now)) ≤ 36 }
    ensures { ends result out.new ≡ listed 0 (all_fields (T.hits t.now)) out.old }
{
    let mut bytes = [0u8; 108];
    let mut found = Pieces::new(&mut bytes);
    fill(t, &mut found);
    let count = found.len / 3;
    let answer = buffer::write(found.written(), out);
    if answer.refusal == 0 {
        buffer::done(count)
    } else {
        answer
    }
}

// All the fields that read as that speed and course, in ascending order; or 15 or 16.
pub fn list_motion(speed: Speed, course: Course, out: &mut [u8]) -> buffer::Answer
    ensures { ends result out.new ≡ listed (motion_refusal speed.0 course.0) (motion_fields speed.0 course.0) out.old }
{
    if 799 < speed.0 || 360 < course.0 {
        return buffer::refused(15);
    }
    list(&Motion { speed, course }, out)
}

// All the fields that read as that longitude under the offset and the side, in ascending order; or 15 or 16. A longitude that is not
// on that side has none, and 0 is on both.
pub fn list_longitude(
    target: Longitude,
    hundred: bool,
    west: bool,
    out: &mut [u8],
) -> buffer::Answer
    ensures { ends result out.new ≡ listed (longitude_refusal target.0) (longitude_fields hundred west target.0) out.old }
{
    let size = target.0.unsigned_abs();
    if 1080000 < size {
        return buffer::refused(15);
    }
    if numbers::is_on(west, target.0) {
        list(&Lying { size, hundred }, out)
    } else {
        buffer::done(0)
    }
}
