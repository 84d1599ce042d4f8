// Texts as the lines of the program have them: fields parted by tabs, octets in hex, numbers in decimal, and printing these into a lent
// buffer. What is printed past the buffer's end is dropped, and the place goes on, so that a caller sees how long all of it is.
#![tactic(auto)]

ghost use Rattle.std.specs.Prelude.{◌≡◌, [], ◌∷◌, ◌+◌, ◌<◌, ◌≤◌, ◌^◌, length};
ghost use Rattle.text.specs.Spelling.{is_from};
ghost use Rattle.text.specs.Hex.{is_hex_digit, hex_value, hex_digit, are_octets, octets_in, hex_of, word_in};
ghost use Rattle.text.specs.Decimal.{starts_well, read_number, decimal_of};
ghost use Rattle.text.specs.Field.{place_of, field_end};
ghost use Rattle.text.specs.Print.{laid, Printed};

use octets::number_at;

// ---- Fields ----

// Where the first octet that is a mark stands, or the end where there is none.
pub fn place_of(mark: u8, s: &[u8]) -> usize
    ensures { (result ≡ place_of mark s.now) × (result ≤ length s.now) }
{
    s.iter().position(|octet| *octet == mark).unwrap_or(s.len())
}

// Where the field of a line that begins at a place ends: at the first tab from there on, or at the line's end.
pub fn field_end(line: &[u8], from: usize) -> usize
    requires { from ≤ length line.now }
    ensures { (result ≡ field_end line.now from) × (from ≤ result) × (result ≤ length line.now) }
{
    let size = place_of(b'\t', &line[from..]);
    from + size
}

// ---- Signs ----

// Whether a sign is one from `low` to `high`.
fn is_from(low: u8, high: u8, sign: u8) -> bool
    ensures { result ≡ is_from low high sign }
{
    (low <= sign) & (sign <= high)
}

// ---- Hex ----

// Whether a sign is a hex digit.
fn is_hex_digit(sign: u8) -> bool
    ensures { result ≡ is_hex_digit sign }
{
    let decimal = is_from(b'0', b'9', sign);
    let letter = is_from(b'a', b'f', sign);
    decimal | letter
}

// What a hex digit stands for, and 0 for any other sign.
fn hex_value(sign: u8) -> u8
    ensures { (result ≡ hex_value sign) × (result < 16) }
{
    if is_from(b'0', b'9', sign) {
        return sign - b'0';
    }
    if is_from(b'a', b'f', sign) {
        return sign - b'a' + 10;
    }
    0
}

// Whether a text is octets in hex.
pub fn are_octets(text: &[u8]) -> bool
    ensures { result ≡ are_octets text.now }
{
    text.len() % 2 == 0 && text.iter().all(|sign| is_hex_digit(*sign))
}

// Fills the front of a room with the octets that a text spells, as far as the room reaches: how many they are.
pub fn read_octets(text: &[u8], room: &mut [u8]) -> usize
    ensures { (room.new ≡ laid room.old 0 (octets_in text.now)) × (result ≡ length (octets_in text.now)) }
{
    let mut count = 0;
    for pair in text.chunks_exact(2) {
        let octet = hex_value(pair[0]) * 16 + hex_value(pair[1]);
        count = put_octet(room, count, octet);
    }
    count
}

// The number of 32 bits that a text of eight digits spells.
pub fn word_in(text: &[u8]) -> u32
    ensures { result ≡ word_in text.now }
{
    let mut room = [0u8; 4];
    read_octets(text, &mut room);
    number_at(4, &room, 0) as u32
}

// ---- Decimal ----

// Whether a text has a first digit that may stand there.
fn starts_well(text: &[u8]) -> bool
    ensures { result ≡ starts_well text.now }
{
    match text {
        [] => false,
        [_] => true,
        [first, ..] => *first != b'0',
    }
}

// The number that a text spells, if it is one: a number is decimal, within 32 bits, and has no leading zero.
pub fn read_number(text: &[u8]) -> Option<u32>
    ensures { result ≡ read_number text.now }
{
    if !starts_well(text) {
        return None;
    }
    let mut number: u64 = 0;
    for sign in text {
        if !is_from(b'0', b'9', *sign) {
            return None;
        }
        let digit = *sign - b'0';
        number = number * 10 + digit as u64;
        if 4294967295 < number {
            return None;
        }
    }
    Some(number as u32)
}

// ---- Printing ----

// Prints an octet as it is: where to go on.
pub fn put_octet(out: &mut [u8], at: usize, octet: u8) -> usize
    requires { at + 1 < 2 ^ 64 }
    ensures { Printed out.old at (octet ∷ []) out.new result }
{
    if out.len() <= at {
        return at + 1;
    }
    out[at] = octet;
    at + 1
}

// Prints octets as they are: where to go on.
pub fn put_octets(out: &mut [u8], at: usize, s: &[u8]) -> usize
    requires { at + length s.now < 2 ^ 64 }
    ensures { Printed out.old at s.now out.new result }
{
    let mut place = at;
    for octet in s {
        place = put_octet(out, place, *octet);
    }
    place
}

// The digit for a number below 16.
fn hex_digit(n: u8) -> u8
    requires { n < 16 }
    ensures { result ≡ hex_digit n }
{
    if n < 10 { b'0' + n } else { b'a' + (n - 10) }
}

// Prints octets in hex: where to go on.
pub fn put_hex(out: &mut [u8], at: usize, s: &[u8]) -> usize
    requires { at + length (hex_of s.now) < 2 ^ 64 }
    ensures { Printed out.old at (hex_of s.now) out.new result }
{
    let mut place = at;
    for octet in s {
        let high = hex_digit(*octet / 16);
        let low = hex_digit(*octet % 16);
        let second = put_octet(out, place, high);
        place = put_octet(out, second, low);
    }
    place
}

// Prints a number in decimal: where to go on.
pub fn put_decimal(out: &mut [u8], at: usize, n: u64) -> usize
    requires { at + length (decimal_of n) < 2 ^ 64 }
    ensures { Printed out.old at (decimal_of n) out.new result }
{
    if n < 10 {
        return put_octet(out, at, b'0' + n as u8);
    }
    let last = n % 10;
    let next = put_decimal(out, at, n / 10);
    put_octet(out, next, b'0' + last as u8)
}
