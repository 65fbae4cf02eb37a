// A line of the table, `QUESTION => EXPECTED`. EXPECTED is the words of the answer that matter: they stand in it in that order, and
// the first of them is its first. `refused`, as first word or as a value, stands for any refusal.
// What is asked, and what the answer should be, which is nothing where there is no arrow.
pub fn parts(s: &[u8]) -> (&[u8], &[u8]) {
    match s.windows(4).position(|part| part == b" => ".as_slice()) {
        Some(n) => (lines::cut(s, n), lines::tail(lines::tail(s, n), 4)),
        None => (s, b""),
    }
}

// Whether a line is of a recorded answer.
pub fn is_recorded(s: &[u8]) -> bool {
    matches!(s, [b'T' | b'F', b' ', ..])
}

// Whether a word starts with the number of a refusal, alone or before a colon.
fn is_refusal(word: &[u8]) -> bool {
    let number = lines::cut(word, laws::find(word, b':'));
    numbers::read_count(number, u32::MAX).is_ok_and(|n| n != 0)
}

// Whether a word `name=value` of an answer is as it should be.
fn is_word(expected: &[u8], word: &[u8]) -> bool {
    if expected == word {
        return true;
    }
    let n = laws::find(word, b'=');
    let asked = expected.strip_prefix(lines::cut(word, n));
    matches!(asked, Some(b"=refused")) && is_refusal(lines::tail(lines::tail(word, n), 1))
}

// Whether the first word of an answer is.
fn is_first(expected: &[u8], word: &[u8]) -> bool {
    match expected {
        b"refused" => is_refusal(word),
        _ => expected == word,
    }
}

// Whether words stand in an answer in their order. Each turn passes a word of the answer, which has no more than bytes.
fn stand_in(mut words: &[u8], mut answer: &[u8]) -> bool {
    for _ in 0..answer.len() {
        let found = is_word(lines::first(words), lines::first(answer));
        answer = lines::rest(answer);
        if found {
            words = lines::rest(words);
        }
    }
    words.is_empty()
}

// Whether an answer is as it should be.
pub fn agrees(expected: &[u8], answer: &[u8]) -> bool {
    is_first(lines::first(expected), lines::first(answer))
        && stand_in(lines::rest(expected), lines::rest(answer))
}
