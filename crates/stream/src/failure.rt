// Why a program did not do what it was asked.
use std::error::Error;
use std::fmt::{Display, Formatter, InlineText};
use std::{fmt, io};

// What is said on standard error, in one line. ./tusselgro turns its first word into a status.
#[derive(Clone, Copy, Debug)]
pub enum Failure {
    Usage(&'static str),
    Refused(&'static str),
    Unread(io::Error),
    Unwritten(io::Error),
}

impl Display for Failure {
    fn fmt<W: fmt::Write>(&self, f: &mut Formatter<W>) -> fmt::Result {
        match *self {
            Failure::Usage(why) => write!(f, "usage: {why}"),
            Failure::Refused(why) => write!(f, "refused: {why}"),
            Failure::Unread(error) => write!(f, "unread: {}", Reason(error)),
            Failure::Unwritten(error) => write!(f, "unwritten: {}", Reason(error)),
        }
    }
}

impl Error for Failure {}

// The system's words for an error, without the number that it puts behind them in parentheses.
#[derive(Clone, Copy)]
struct Reason(io::Error);

impl Display for Reason {
    fn fmt<W: fmt::Write>(&self, f: &mut Formatter<W>) -> fmt::Result {
        let text = InlineText::<128>::of(self.0);
        let text = text.as_str();
        let words = text.split_once(" (").map_or(text, |(words, _)| words);
        f.write_str(words)
    }
}
