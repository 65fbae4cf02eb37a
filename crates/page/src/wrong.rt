// What is wrong with a setting, told on standard error: its number, its text, and what is expected.
use crate::field;
use settings::SettingError;
use std::fmt;
use std::fmt::{Display, Formatter};

// Tells what is wrong with a setting.
pub fn tell(rt: &impl Eprint, number: usize, text: &[u8], error: SettingError) {
    let text = Characters(text);
    let _ = eprintln!(rt; "usage: setting {number}, \"{text}\": {error}");
}

// The first 64 bytes of a text, as characters.
#[derive(Clone, Copy)]
struct Characters<'a>(&'a [u8]);

impl Display for Characters<'_> {
    fn fmt<W: fmt::Write>(&self, f: &mut Formatter<W>) -> fmt::Result {
        for b in self.0.iter().take(64) {
            f.write_char(char::from(field::character(*b)))?;
        }
        Ok(())
    }
}
