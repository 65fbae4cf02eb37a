// The table of a setting's fields, and their number.
use buffer::Pieces;
use page::Columns;

// Puts the table of the fields, of which one may be what the standard's own writer sends.
pub fn put(fields: &[[u8; 3]], sent: Option<[u8; 3]>, out: &mut Pieces) {
    if fields.is_empty() {
        out.put(b"no field: no unit can send this setting\n");
        return;
    }
    out.put_byte(b' ');
    out.put(page::HEADING.as_bytes());
    out.put_byte(b'\n');
    for field in fields {
        out.put_byte(if sent == Some(*field) { b'*' } else { b' ' });
        out.put(&Columns(*field).text());
        out.put_byte(b'\n');
    }
    let unit = if fields.len() == 1 {
        " field\n"
    } else {
        " fields\n"
    };
    numbers::put_count(fields.len(), out);
    out.put(unit.as_bytes());
}
