// Text on slices: places and words in a line, numbers and hex, putting an answer together in a lent room.
#![tactic(auto)]

ghost use Rattle.std.specs.Prelude.{◌≡◌, ◌+◌, ◌-◌, ◌*◌, ◌/◌, ◌<◌, ◌≤◌, min, leb, length, drop, SomeIff, Bool, true, ℕ};
ghost use Rattle.io.specs.Counts.{IsPrefixLen};
ghost use Rattle.text.specs.Places.{leading, IsTest, up_to, past, same_list, trim_len};
ghost use Rattle.text.specs.Words.{NextIs};
ghost use Rattle.text.specs.Numbers.{is_digit, number_in, nibble_of, is_hex_digit, all_hex, bytes_said, hex_text, glyph_of, decimal_text, labelled, numbered, numbers_text};
ghost use Rattle.text.specs.Putting.{PutFree, fronted};

// The bytes that end lines and part words.
pub const LF: u8 = b'\n';

pub const CR: u8 = b'\r';

pub const SPACE: u8 = b' ';

// The place of the first byte from `from` on that does not pass a test, or the end.
fn place_past<F: Fn(u8) -> bool>(s: &[u8], from: usize, passes: F) -> usize
    requires { F.IsAlwaysCallable passes }
    ensures { (test : ℕ → Bool) → IsTest (F.post passes) test → result ≡ from + leading test (drop from s.now) }
{
    // By number: the number is the answer, and `from` may stand past the end.
    for i in from..s.len() {
        if !passes(s[i]) {
            return i;
        }
    }
    from.max(s.len())
}

// The place of the first c from `from` on, or the end.
// The end and no Option: `find` and `skip` promise it, and `desk` reads on from there.
pub fn find(s: &[u8], from: usize, c: u8) -> usize
    ensures { result ≡ from + up_to c (drop from s.now) }
{
    place_past(s, from, |x| x != c)
}

// The place of the first byte from `from` on that is not c, or the end.
pub fn skip(s: &[u8], from: usize, c: u8) -> usize
    ensures { result ≡ from + past c (drop from s.now) }
{
    place_past(s, from, |x| x == c)
}

// The value of a decimal digit.
fn digit(x: u8) -> Option<u64>
    ensures { SomeIff result (is_digit x ≡ true) (x - 48) }
{
    match x {
        b'0'..=b'9' => Some(u64::from(x - b'0')),
        _ => None,
    }
}

// A decimal number, 0 to 2^64 - 1.
// Not inlined, and the product tested before it is taken: laid into a long caller, a way out of the loop costs each turn.
#[inline(never)]
pub fn read_number(s: &[u8]) -> Option<u64>
    ensures { result ≡ number_in s.now }
{
    if s.is_empty() {
        return None;
    }
    let mut acc: u64 = 0;
    for &x in s {
        let d = digit(x)?;
        if u64::MAX / 10 < acc {
            return None;
        }
        acc = (acc * 10).checked_add(d)?;
    }
    Some(acc)
}

// The value of a hexadecimal digit.
pub fn nibble(x: u8) -> Option<u8>
    ensures { SomeIff result (nibble_of x < 16) (nibble_of x) }
{
    match x {
        b'0'..=b'9' => Some(x - b'0'),
        b'A'..=b'F' => Some(x - b'A' + 10),
        b'a'..=b'f' => Some(x - b'a' + 10),
        _ => None,
    }
}

// Whether a byte is a hexadecimal digit.
fn is_hex_digit(x: u8) -> bool
    ensures { result ≡ is_hex_digit x }
{
    nibble(x).is_some()
}

// Whether each byte is one.
pub fn all_hex(s: &[u8]) -> bool
    ensures { result ≡ all_hex s.now }
{
    s.iter().all(|&x| is_hex_digit(x))
}

// Whether `size` bytes are free from `at` on in a room of `len`.
pub fn is_free(len: usize, at: usize, size: usize) -> bool
    ensures { result ≡ leb (at + size) len }
{
    size <= len && at <= len - size
}

// Puts bytes at `at`, or nothing where they do not fit, and answers the next free place.
// The next free place in both cases and no Option, here and below: `PutFree` promises it.
// Room and place go side by side here too: see `put_name` of `listing` for what was tried.
pub fn put(room: &mut [u8], at: usize, bytes: &[u8]) -> usize
    ensures { PutFree room.old at (length bytes.now) bytes.now room.new result }
{
    if !is_free(room.len(), at, bytes.len()) {
        return at;
    }
    let end = at + bytes.len();
    room[at..end].copy_from_slice(bytes);
    end
}

// The length of a line without a CR at its end.
pub fn trim(line: &[u8]) -> usize
    ensures { (result ≡ trim_len line.now) × IsPrefixLen result line.now }
{
    match line {
        [front @ .., CR] => front.len(),
        _ => line.len(),
    }
}

// A word stands from `from` to `to`.
#[derive(Clone, Copy)]
pub struct Word {
    pub from: usize,
    pub to: usize,
}

// The next word from `at` on, if one is left.
pub fn next_word(line: &[u8], at: usize) -> Option<Word>
    ensures { NextIs line.now at result }
{
    let from = skip(line, at, SPACE);
    let to = find(line, from, SPACE);
    if from < to {
        Some(Word { from, to })
    } else {
        None
    }
}

// Puts a number's decimal digits at `at`, or nothing where they do not fit.
fn put_decimal(room: &mut [u8], at: usize, n: u64) -> usize
    ensures { PutFree room.old at (length (decimal_text n)) (decimal_text n) room.new result }
{
    let mut digits = [0u8; 20];
    let k = io::decimal(n, &mut digits);
    put(room, at, &digits[..k])
}

// Puts a label and a number at `at`, or nothing where fewer bytes are free than the label and 20 digits take.
pub fn put_labelled(room: &mut [u8], at: usize, label: &[u8], x: usize) -> usize
    ensures { PutFree room.old at (length label.now + 20) (labelled label.now x) room.new result }
{
    if !is_free(room.len(), at, label.len() + 20) {
        return at;
    }
    let next = put(room, at, label);
    // (`as u64`: there is no `u64::from` of a usize.)
    put_decimal(room, next, x as u64)
}

// Puts a letter and a number below 256 at `at`, or nothing where fewer than 4 bytes are free.
pub fn put_numbered(room: &mut [u8], at: usize, letter: u8, x: u8) -> usize
    ensures { PutFree room.old at 4 (numbered letter x) room.new result }
{
    if !is_free(room.len(), at, 4) {
        return at;
    }
    let name = [letter];
    let next = put(room, at, &name);
    put_decimal(room, next, u64::from(x))
}

// Puts a space and a number below 65,536 at `at`, or nothing where fewer than 6 bytes are free.
// Not `put_numbered`, whose promise is for numbers below 256 and 4 free bytes.
fn put_spaced(room: &mut [u8], at: usize, x: u16) -> usize
    ensures { PutFree room.old at 6 (numbered 32 x) room.new result }
{
    if !is_free(room.len(), at, 6) {
        return at;
    }
    let next = put(room, at, b" ");
    put_decimal(room, next, u64::from(x))
}

// Puts each number, after a space, at `at`, or nothing where fewer than 6 bytes are free for each.
pub fn put_numbers(room: &mut [u8], at: usize, numbers: &[u16]) -> usize
    ensures { PutFree room.old at (6 * length numbers.now) (numbers_text numbers.now) room.new result }
{
    // 6 times the count is tested in this form first, since it may be larger than any usize
    if room.len() / 6 < numbers.len() {
        return at;
    }
    if !is_free(room.len(), at, 6 * numbers.len()) {
        return at;
    }
    let mut next = at;
    for &x in numbers {
        next = put_spaced(room, next, x);
    }
    next
}

// Puts bytes as hexadecimal digits at `at`, or nothing where they do not fit.
pub fn put_hex(room: &mut [u8], at: usize, bytes: &[u8]) -> usize
    ensures { PutFree room.old at (2 * length bytes.now) (hex_text bytes.now) room.new result }
{
    if !is_free(room.len(), at, 2 * bytes.len()) {
        return at;
    }
    for (i, &x) in bytes.iter().enumerate() {
        room[at + 2 * i] = glyph(x / 16);
        room[at + 2 * i + 1] = glyph(x % 16);
    }
    at + 2 * bytes.len()
}

// The digit of a value below 16.
fn glyph(d: u8) -> u8
    requires { d < 16 }
    ensures { result ≡ glyph_of d }
{
    if d < 10 { b'0' + d } else { b'a' + d - 10 }
}

// Puts the bytes that pairs of digits say at `at`, or nothing where a byte is no digit or they do not fit.
pub fn put_unhex(room: &mut [u8], at: usize, digits: &[u8]) -> usize
    ensures { PutFree room.old at (length digits.now / 2) (bytes_said digits.now) room.new result }
{
    let n = digits.len() / 2;
    if !is_free(room.len(), at, n) {
        return at;
    }
    if !all_hex(digits) {
        return at;
    }
    // By number: two digits are read for each byte. Each is one, so the 0 is not taken: with no way out, several bytes are put at a time.
    for i in 0..n {
        let a = nibble(digits[2 * i]).unwrap_or(0);
        let b = nibble(digits[2 * i + 1]).unwrap_or(0);
        room[at + i] = a * 16 + b;
    }
    at + n
}

// Moves the bytes from `from` to `to`, or to the room's end, to the front, and answers how many they are.
pub fn to_front(room: &mut [u8], from: usize, to: usize) -> usize
    ensures { (result ≡ min to (length room.old) - from) × (room.new ≡ fronted room.old from result) }
{
    let end = to.min(room.len());
    if end < from {
        return 0;
    }
    let n = end - from;
    if from == 0 {
        return n;
    }
    room.copy_within(from..end, 0);
    n
}

// Whether two texts are the same.
// A function for `==`, since the definitions of `script` say `same_list`.
#[tactic(auto, using(crate::proofs::Places::same_as))]
pub fn same(a: &[u8], b: &[u8]) -> bool
    ensures { result ≡ same_list a.now b.now }
{
    a == b
}
