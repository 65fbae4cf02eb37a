// A longitude: the destination that goes with it, and how the standard's own writer sends it.
use crate::writer;
use buffer::Pieces;
use lonlat::Longitude;
use settings::Way;

// Puts what stands above the table: what the offset and the direction are in the destination, and where the longitude lies on the
// other side than the direction.
pub fn above(longitude: Longitude, way: Way, out: &mut Pieces) {
    let fifth = if way.hundred {
        "P to Z (offset 100)"
    } else {
        "0 to 9 or L (offset 0)"
    };
    let sixth = if way.west {
        "P to Z (west)"
    } else {
        "0 to 9 or L (east)"
    };
    out.put(b"In the destination the fifth character is ");
    out.put(fifth.as_bytes());
    out.put(b", the sixth ");
    out.put(sixth.as_bytes());
    out.put(b".\n");
    if way.west && 0 < longitude.0 {
        out.put(b"The longitude lies east, the direction is west.\n");
    }
    if !way.west && longitude.0 < 0 {
        out.put(b"The longitude lies west, the direction is east.\n");
    }
}

// Puts what stands below the table: how the standard's own writer sends the longitude, where that is another setting.
pub fn below(longitude: Longitude, way: Way, out: &mut Pieces) {
    match writer::way_of(longitude) {
        None => out.put(b"The standard's own writer sends no longitude of 180 degrees.\n"),
        Some(sent) if sent == way => {}
        Some(sent) => {
            out.put(b"The standard's own writer sends this longitude with ");
            sent.put(out);
            out.put(b".\n");
        }
    }
}
