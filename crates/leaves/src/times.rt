// Times read from their text, and written.
use time::Time;
use words::{Reply, Words};

// A time by its numbers and the letter behind its digits.
fn shown(t: Time, reply: &mut Reply) {
    reply.count(b"0 day=", usize::from(t.day));
    reply.count(b" hour=", usize::from(t.hour));
    reply.count(b" minute=", usize::from(t.minute));
    reply.count(b" second=", usize::from(t.second));
    reply.bytes(b" form=", &[t.form]);
}

// `time TEXT`
pub fn time(text: &[u8], reply: &mut Reply) {
    match time::read_time(text) {
        Some(t) => shown(t, reply),
        None => reply.refusal(17),
    }
}

// `time-text DAY HOUR MINUTE SECOND FORM`
pub fn time_text(mut asked: Words, reply: &mut Reply) -> Option<()> {
    let day = asked.byte()?;
    let hour = asked.byte()?;
    let minute = asked.byte()?;
    let second = asked.byte()?;
    let [form] = asked.rest() else {
        return None;
    };
    let t = Time {
        day,
        hour,
        minute,
        second,
        form: *form,
    };
    let mut text = [0u8; 16];
    let w = time::write_time(t, &mut text);
    reply.written(w, &text);
    Some(())
}
