// The row of a Mic-E packet: its line's number, the columns of its field, and what is said of it.
use buffer::Pieces;
use page::Columns;
use verdict::Verdict;

// Puts the row.
pub fn put(number: usize, field: [u8; 3], verdict: Verdict, out: &mut Pieces) {
    put_number(number, out);
    out.put(&Columns(field).text());
    out.put(b"   ");
    verdict.put(out);
    out.put_byte(b'\n');
}

// Puts a number, five places wide or more.
fn put_number(number: usize, out: &mut Pieces) {
    let mut digits = [0; 20];
    let mut text = Pieces::new(&mut digits);
    numbers::put_count(number, &mut text);
    out.put(lines::tail(b"     ", text.len));
    out.put(text.written());
}
