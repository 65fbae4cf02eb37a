// The settings of the bench in words: a speed and course, or a longitude with its offset and direction. Part of the programs
// appendix and on_page.
#![tactic(auto)]

mod given;
mod title;
mod trim;
mod words;
mod wrong;

pub use given::arguments;
use lonlat::Longitude;
use mic_e::{Course, Destination, Speed};
pub use trim::{bare, tidy};
pub use words::read;
pub use wrong::SettingError;

// What a destination says of a longitude: whether the offset is 100, and whether the direction is west.
#[derive(Clone, Copy, PartialEq, Eq)]
pub struct Way {
    pub hundred: bool,
    pub west: bool,
}

impl From<Destination> for Way {
    fn from(destination: Destination) -> Way {
        Way {
            hundred: destination.hundred,
            west: destination.west,
        }
    }
}

// A speed and course, or a longitude and the way that it is sent.
#[derive(Clone, Copy)]
pub enum Setting {
    Moving(Speed, Course),
    Lying(Longitude, Way),
}
