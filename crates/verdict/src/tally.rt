// How many lines of each kind were heard.
use crate::{Line, Verdict};
use std::fmt;
use std::fmt::{Display, Formatter};

// Mic-E packets, those of them on the page, other lines, and those of them refused. A capture has no more lines than bytes, 65,536.
#[derive(Clone, Copy, Default)]
pub struct Tally {
    pub packets: usize,
    pub on_page: usize,
    pub others: usize,
    pub refused: usize,
}

impl Tally {
    // Counts a line.
    pub fn count(&mut self, line: Line) {
        match line {
            Line::MicE(_, verdict) => {
                self.packets = self.packets.saturating_add(1);
                let on_page = matches!(verdict, Verdict::OnPage) as usize;
                self.on_page = self.on_page.saturating_add(on_page);
            }
            Line::Other => self.others = self.others.saturating_add(1),
            Line::Refused => {
                self.others = self.others.saturating_add(1);
                self.refused = self.refused.saturating_add(1);
            }
        }
    }
}

// `3 Mic-E packets, 2 on the page; 1 other line, 0 refused`
impl Display for Tally {
    fn fmt<W: fmt::Write>(&self, f: &mut Formatter<W>) -> fmt::Result {
        let packets = Counted(self.packets, "Mic-E packet");
        let others = Counted(self.others, "other line");
        write!(f, "{packets}, {} on the page; ", self.on_page)?;
        write!(f, "{others}, {} refused", self.refused)
    }
}

// So many of what has that name.
#[derive(Clone, Copy)]
struct Counted(usize, &'static str);

impl Display for Counted {
    fn fmt<W: fmt::Write>(&self, f: &mut Formatter<W>) -> fmt::Result {
        let plural = if self.0 == 1 { "" } else { "s" };
        write!(f, "{} {}{plural}", self.0, self.1)
    }
}
