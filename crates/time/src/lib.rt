// A time in seven bytes, as a packet carries it: six digits and the letter that says what they are; read and written.
#![tactic(auto)]

ghost use Rattle.std.specs.Prelude.{◌≡◌};
ghost use Rattle.buffer.specs.Wrote.{ends, wrote};
ghost use Rattle.time.specs.Time.{in_day, is_day_time, is_clock_time, is_time, no_time, is_no_time, time_of, read_time, seven_bytes, present_text, time_text, time_refusal};
ghost use Rattle.time.specs.Private.{pair_of};

// A time by its numbers. Its form is the byte behind its digits: `z`, day, hour and minute in UTC; `/`, the same in local time; `h`,
// hour, minute and second in UTC. A number that the form lacks is 0, and all are where there is no time.
#[repr(C)]
#[derive(Clone, Copy, Debug, Default, PartialEq, Eq)]
pub struct Time {
    pub day: u8,
    pub hour: u8,
    pub minute: u8,
    pub second: u8,
    pub form: u8,
}

// ---- nothing

// No time.
#[tactic(auto, unfolding(crate::specs::Time::no_time))]
pub fn blank() -> Time
    ensures { result ≡ no_time }
{
    Time::default()
}

// Whether there is no time.
#[tactic(auto, unfolding(crate::specs::Time::is_no_time, crate::specs::Time::no_time))]
pub fn is_blank(t: Time) -> bool
    ensures { result ≡ is_no_time t }
{
    t == blank()
}

// ---- which are times

// Whether hour and minute are in range.
#[tactic(auto, unfolding(crate::specs::Time::in_day))]
fn in_day(t: Time) -> bool
    ensures { result ≡ in_day t }
{
    t.hour <= 23 && t.minute <= 59
}

#[tactic(auto, unfolding(crate::specs::Time::is_day_time, laws::specs::Bytes::within))]
fn is_day_time(t: Time) -> bool
    ensures { result ≡ is_day_time t }
{
    matches!(t.day, 1..=31) && in_day(t) && t.second == 0
}

#[tactic(auto, unfolding(crate::specs::Time::is_clock_time))]
fn is_clock_time(t: Time) -> bool
    ensures { result ≡ is_clock_time t }
{
    t.day == 0 && in_day(t) && t.second <= 59
}

// Whether there is a time, of one of the three forms and with each number in range.
#[tactic(auto, unfolding(crate::specs::Time::is_time, crate::specs::Time::is_day))]
fn is_time(t: Time) -> bool
    ensures { result ≡ is_time t }
{
    match t.form {
        b'z' | b'/' => is_day_time(t),
        b'h' => is_clock_time(t),
        _ => false,
    }
}

// ---- read

// The number of two digits.
#[tactic(auto, unfolding(crate::specs::Private::pair_of, laws::specs::Bytes::within, numbers::specs::Numbers::number_of, numbers::specs::Numbers::number_after))]
fn pair(tens: u8, ones: u8) -> Option<u8>
    ensures { result ≡ pair_of tens ones }
{
    if tens.is_ascii_digit() && ones.is_ascii_digit() {
        Some(10 * (tens - b'0') + (ones - b'0'))
    } else {
        None
    }
}

// Three numbers in the places that the form gives them, whatever they are.
#[tactic(auto, unfolding(crate::specs::Time::time_of))]
pub fn time_of(first: u8, second: u8, third: u8, form: u8) -> Time
    ensures { result ≡ time_of first second third form }
{
    if form == b'h' {
        return Time {
            day: 0,
            hour: first,
            minute: second,
            second: third,
            form,
        };
    }
    Time {
        day: first,
        hour: second,
        minute: third,
        second: 0,
        form,
    }
}

// Reads exactly seven bytes: six digits and `z`, `/` or `h`, each number in its range. It goes into its callers, so that what they
// make of the answer is made once.
#[inline]
pub fn read_time(s: &[u8]) -> Option<Time>
    ensures { result ≡ read_time s.now }
{
    let [a, b, c, d, e, f, form] = *s else {
        return None;
    };
    let t = time_of(pair(a, b)?, pair(c, d)?, pair(e, f)?, form);
    if is_time(t) { Some(t) } else { None }
}

// ---- written

// Three numbers of two digits each, and the letter.
#[tactic(auto, unfolding(crate::specs::Time::seven_bytes, numbers::specs::Numbers::digits_of, numbers::specs::Numbers::digit_of))]
fn seven_bytes(first: u8, second: u8, third: u8, form: u8) -> [u8; 7]
    ensures { result ≡ seven_bytes first second third form }
{
    [
        b'0' + first / 10 % 10,
        b'0' + first % 10,
        b'0' + second / 10 % 10,
        b'0' + second % 10,
        b'0' + third / 10 % 10,
        b'0' + third % 10,
        form,
    ]
}

#[tactic(auto, unfolding(crate::specs::Time::present_text))]
fn present_text(t: Time) -> [u8; 7]
    ensures { result ≡ present_text t }
{
    if t.form == b'h' {
        seven_bytes(t.hour, t.minute, t.second, t.form)
    } else {
        seven_bytes(t.day, t.hour, t.minute, t.form)
    }
}

// Writes those seven bytes, or none where there is no time. A number out of range is 15, and so is another letter; a buffer without
// room is 16.
pub fn write_time(t: Time, out: &mut [u8]) -> buffer::Answer
    ensures { ends result out.new ≡ wrote (time_refusal t) (time_text t) out.old }
{
    if is_blank(t) {
        return buffer::done(0);
    }
    if !is_time(t) {
        return buffer::refused(15);
    }
    let text = present_text(t);
    buffer::write(&text, out)
}
