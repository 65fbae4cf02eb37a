// The leaves asked: angles, callsigns, lists of fields and times, each with its answer in words. Part of the programs inspect and
// bench. A question that is none answers None, and puts nothing.
#![tactic(auto)]

mod angles;
mod callsigns;
mod list;
mod times;

pub use angles::{latitude, latitude_text, longitude, longitude_text};
pub use callsigns::{address, from, last_hop, spelled, text, to};
pub use list::{information, longitudes, motions};
pub use times::{time, time_text};
