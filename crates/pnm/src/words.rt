//! The bytes that words of a header, and what stands between them, are made of.
ghost use Rattle.std.specs.Prelude.{◌≡◌, ℕ, ◌≤◌, List, ◌∷◌, MatchOption, false, drop, take, length, min};
ghost use Rattle.pnm.specs.Fault.{after_digits, after_filling, begins, front_digits};
ghost use Rattle.pnm.specs.Grammar.{is_decimal, is_line_end, is_white, number_from, opens_gap};

// The text without its first `n` bytes.
pub(crate) fn skip(text: &[u8], n: usize) -> &[u8]
    requires { n ≤ length text.now }
    ensures { result.now ≡ drop n text.now }
{
    &text[n..]
}

// The first `n` bytes of the text.
pub(crate) fn front(text: &[u8], n: usize) -> &[u8]
    requires { n ≤ length text.now }
    ensures { result.now ≡ take n text.now }
{
    &text[..n]
}

// Space, TAB, LF, VT, FF or CR.
pub(crate) fn is_white(byte: u8) -> bool
    ensures { result ≡ is_white byte }
{
    byte == 32 || (9 <= byte && byte <= 13)
}

fn is_line_end(byte: u8) -> bool
    ensures { result ≡ is_line_end byte }
{
    byte == 10 || byte == 13
}

fn is_decimal(byte: u8) -> bool
    ensures { result ≡ is_decimal byte }
{
    48 <= byte && byte <= 57
}

// Whether the text begins with a white byte.
pub(crate) fn begins_white(text: &[u8]) -> bool
    ensures { result ≡ begins is_white text.now }
{
    match text {
        [] => false,
        [first, ..] => is_white(*first),
    }
}

// Whether the text begins with a white byte or a comment.
pub(crate) fn begins_gap(text: &[u8]) -> bool
    ensures { result ≡ begins opens_gap text.now }
{
    match text {
        [] => false,
        [first, ..] => is_white(*first) || *first == 35,
    }
}

// Whether the text begins with a digit.
pub(crate) fn begins_number(text: &[u8]) -> bool
    ensures { result ≡ begins is_decimal text.now }
{
    match text {
        [] => false,
        [first, ..] => is_decimal(*first),
    }
}

// Whether a comment goes on behind the byte, or nothing where the byte ends what stands between words.
fn behind_byte(inside: bool, byte: u8) -> Option<bool>
    ensures { MatchOption result
        ((t : List ℕ) → after_filling inside (byte ∷ t) ≡ byte ∷ t)
        (λ next. (t : List ℕ) → after_filling inside (byte ∷ t) ≡ after_filling next t) }
{
    if inside {
        return Some(!is_line_end(byte));
    }
    if is_white(byte) {
        return Some(false);
    }
    if byte == 35 {
        return Some(true);
    }
    None
}

// How many bytes at the front of the text are white or in comments.
pub(crate) fn filling_len(text: &[u8]) -> usize
    ensures within { result ≤ length text.now }
    ensures rest { drop result text.now ≡ after_filling false text.now }
{
    let mut inside = false;
    for (k, byte) in text.iter().enumerate() {
        let Some(next) = behind_byte(inside, *byte) else {
            return k;
        };
        inside = next;
    }
    text.len()
}

// The number that the digits at the front of the text write, and how many these are. A number above a
// million is read as a million.
pub(crate) fn front_number(text: &[u8]) -> (u32, usize)
    ensures within { result.1 ≤ length text.now }
    ensures number { result.0 ≡ min (number_from 0 (front_digits text.now)) 1000000 }
    ensures rest { drop result.1 text.now ≡ after_digits text.now }
{
    let mut value = 0;
    for (k, byte) in text.iter().enumerate() {
        if !is_decimal(*byte) {
            return (value, k);
        }
        value = (value * 10 + u32::from(*byte - 48)).min(1_000_000);
    }
    (value, text.len())
}
