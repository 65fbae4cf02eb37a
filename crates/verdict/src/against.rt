// A packet held against a page.
use buffer::Pieces;
use page::Page;
use settings::{Setting, Way};

// What is said of a packet. Elsewhere: its destination says another way than the page's.
#[derive(Clone, Copy)]
pub enum Verdict {
    OnPage,
    NotOnPage,
    Elsewhere(Way),
}

// The field of a body that a page asks for; zeros, which are no field, where the body ends before.
pub fn field_of(page: Page<'_>, body: &[u8]) -> [u8; 3] {
    let at = match page.setting {
        Setting::Lying(_, _) => 1,
        Setting::Moving(_, _) => 4,
    };
    match lines::tail(body, at) {
        [a, b, c, ..] => [*a, *b, *c],
        _ => [0; 3],
    }
}

// What is said of a packet with that field, sent in that way.
pub fn verdict_of(page: Page<'_>, field: [u8; 3], way: Way) -> Verdict {
    match page.setting {
        Setting::Lying(_, asked) if asked != way => Verdict::Elsewhere(way),
        _ if page.fields.contains(&field) => Verdict::OnPage,
        _ => Verdict::NotOnPage,
    }
}

impl Verdict {
    // Puts what is said.
    pub fn put(self, out: &mut Pieces) {
        match self {
            Verdict::OnPage => out.put(b"on the page"),
            Verdict::NotOnPage => out.put(b"not on the page"),
            Verdict::Elsewhere(way) => {
                out.put(b"not on the page: its destination says ");
                way.put(out);
            }
        }
    }
}
