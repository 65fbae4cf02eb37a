// Request B: the bounds of an angle as floats, and its box on the page.
use lonlat::{Latitude, Longitude};
use position::{BoundsAnswer, PageBox};
use words::{Reply, Words};

fn put(b: BoundsAnswer, page: PageBox, reply: &mut Reply) {
    reply.refusal(b.refusal);
    reply.float(b.bounds.lower);
    reply.float(b.bounds.upper);
    reply.number(b" ", page.from);
    reply.number(b" ", page.to);
    reply.count(b" box=", usize::from(page.refusal));
}

// `[SIDE]`, the angle's letter: whether it is the second of two; left out, it is the angle's own, which at 0 is the first.
fn side(angle: i32, asked: Words, letters: [u8; 2]) -> Option<bool> {
    if asked.is_over() {
        return Some(angle < 0);
    }
    let [first, second] = letters;
    match asked.rest() {
        [letter] if *letter == first => Some(false),
        [letter] if *letter == second => Some(true),
        _ => None,
    }
}

// `B ANGLE BLANKS LIMIT [SIDE]`
pub fn answer(mut asked: Words, reply: &mut Reply) -> Option<()> {
    let angle = asked.number()?;
    let blanks = asked.byte()?;
    let (bounds, page) = match asked.next()? {
        b"lat" => {
            let south = side(angle, asked, [b'N', b'S'])?;
            let latitude = Latitude(angle);
            (
                position::latitude_bounds(latitude, blanks),
                position::latitude_box(latitude, blanks, south),
            )
        }
        b"lon" => {
            let west = side(angle, asked, [b'E', b'W'])?;
            let longitude = Longitude(angle);
            (
                position::longitude_bounds(longitude, blanks),
                position::longitude_box(longitude, blanks, west),
            )
        }
        _ => return None,
    };
    put(bounds, page, reply);
    Some(())
}
