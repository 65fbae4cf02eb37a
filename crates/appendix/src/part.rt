// The part of the page for a setting: a heading, a table of its fields and their number.
use crate::table;
use buffer::Pieces;
use page::Page;

// What stands once, at the top.
pub const NOTE: &str =
    "Every field of three bytes that a unit may send for a setting, in ascending order.
Behind the type byte of a Mic-E body, bytes 1 to 3 are longitude, 4 to 6 motion.
Between bars stand the characters; a dot there is a byte that does not print, or a dot (2e).
A star marks the field that the standard's own writer sends.
";

// Puts the part for a setting, behind what opens it and a blank line.
pub fn put(opening: &str, page: Page<'_>, out: &mut Pieces) {
    let setting = page.setting;
    out.put(opening.as_bytes());
    out.put_byte(b'\n');
    setting.put(out);
    out.put_byte(b'\n');
    notes::above(setting, out);
    table::put(page.fields, notes::sent(setting), out);
    notes::below(setting, out);
}
