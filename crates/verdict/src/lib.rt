// The lines of a capture held against the page of a setting: what is said of a Mic-E packet, also of one inside others, and how many
// lines there were of each kind. Part of the program on_page.
#![tactic(auto)]

mod against;
mod heard;
mod tally;

pub use against::Verdict;
use page::Page;
pub use tally::Tally;

// What a line is: a Mic-E packet, by its field and what is said of that; another packet; or none.
#[derive(Clone, Copy)]
pub enum Line {
    MicE([u8; 3], Verdict),
    Other,
    Refused,
}

impl Line {
    // A line held against a page. With packets inside, the innermost one counts, as its sender made it.
    pub fn of(text: &[u8], page: Page<'_>) -> Line {
        let read = packet::read_text(text);
        if read.refusal != 0 {
            return Line::Refused;
        }
        let record = read.record;
        let body = record.body;
        let inside = heard::innermost(text, record.inner);
        match heard::mic_e(inside, body.kind) {
            Some(heard) => {
                let field = against::field_of(page, heard.body);
                let verdict = against::verdict_of(page, field, heard.way);
                Line::MicE(field, verdict)
            }
            None => Line::Other,
        }
    }
}
