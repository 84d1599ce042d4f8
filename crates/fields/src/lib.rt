// Vectors as lines, for the program that runs them: a line is a call of the door, and its answer is a line of standard output. A line's
// fields are parted by tabs: the call's name, then octets in hex, and from a `;` on a reason for the reader. Octets are parts joined by
// `+`, and `00*3` is a part three times. An answer is what the call says in 01's terms: numbers in decimal and octets in hex, parted by
// tabs. A line that has no call's name, as one that begins with `#`, is for the reader alone.
#![tactic(auto)]

ghost use Rattle.std.specs.Prelude.{◌+◌, ◌<◌, ◌≤◌, length};
ghost use Rattle.io.specs.Counts.{IsPrefixLen};

use action::Actions;
use octets::number_at;
use text::{field_end, place_of};

// Standard output's number.
const STDOUT_FILENO: i32 = 1;

// How many octets the lines may have together.
pub const INPUT: usize = 4000000;

// How many octets a field may hold.
pub const FIELD: usize = 70000;

// How many octets the fields of a line may hold together: those that a call only reads stand one behind another.
pub const FIELDS: usize = 350000;

// How many words a field may hold.
pub const WORDS: usize = 30000;

// ---- Lines ----

// The call in the line that begins at a place of the input: what the line has before its `;`.
pub fn call_at(input: &[u8], at: usize) -> &[u8]
    requires { at ≤ length input.now }
{
    let rest = &input[at..];
    let end = place_of(b'\n', rest);
    let line = &rest[0..end];
    let stop = place_of(b';', line);
    &line[0..stop]
}

// Where the line behind the one that begins at a place of the input begins.
pub fn line_after(input: &[u8], at: usize) -> usize
    requires { at ≤ length input.now }
    ensures { (at < result) × (result ≤ length input.now + 1) }
{
    let end = at + place_of(b'\n', &input[at..]);
    end + 1
}

// ---- Fields ----

// The field of a line behind so many tabs, empty where the line has fewer.
fn field_of(line: &[u8], number: usize) -> &[u8] {
    let mut at = 0;
    for _ in 0..number {
        let tab = field_end(line, at);
        if line.len() <= tab {
            return &line[..0];
        }
        at = tab + 1;
    }
    let end = field_end(line, at);
    &line[at..end]
}

// How often a part is to stand: once where it has no star, else the number behind the star, and 0 where that is none.
fn times_of(star: &[u8]) -> usize {
    match star {
        [] => 1,
        [_, number @ ..] => text::read_number(number).unwrap_or(0) as usize,
    }
}

// Fills the front of a room with the octets that digits spell, as far as it reaches: how many there are.
fn put_digits(digits: &[u8], room: &mut [u8]) -> usize
    ensures { result ≤ length room.old }
{
    text::read_octets(digits, room).min(room.len())
}

// Fills the front of a room with a part, as often as it is to stand: how many octets there are.
fn put_part(part: &[u8], room: &mut [u8]) -> usize
    ensures { result ≤ length room.old }
{
    let star = place_of(b'*', part);
    let digits = &part[0..star];
    let mut at = 0;
    for _ in 0..times_of(&part[star..]) {
        at += put_digits(digits, &mut room[at..]);
    }
    at
}

// Fills the front of a room with a field's octets: how many there are.
fn put_field(field: &[u8], room: &mut [u8]) -> usize
    ensures { result ≤ length room.old }
{
    let mut at = 0;
    for part in field.split(|octet| *octet == b'+') {
        at += put_part(part, &mut room[at..]);
    }
    at
}

// Fills the front of a room with the octets of a line's field: how many there are.
pub fn put_octets(line: &[u8], number: usize, room: &mut [u8]) -> usize
    ensures { IsPrefixLen result room.new }
{
    put_field(field_of(line, number), room)
}

// Where the second of two fields begins, which is where the first ends, and where it ends.
#[derive(Clone, Copy)]
pub struct Two {
    pub middle: usize,
    pub end: usize,
}

// Fills the front of a room with the octets of two fields, one behind the other.
pub fn put_two(line: &[u8], first: usize, second: usize, room: &mut [u8]) -> Two
    ensures { (result.middle ≤ result.end) × (result.end ≤ length room.new) }
{
    let middle = put_octets(line, first, room);
    let count = put_octets(line, second, &mut room[middle..]);
    let end = middle + count;
    Two { middle, end }
}

// The number in a line's field of four octets.
pub fn number_of(line: &[u8], number: usize) -> u32 {
    text::word_in(field_of(line, number))
}

// The first octet of a line's field, 0 where it has none.
pub fn octet_of(line: &[u8], number: usize) -> u8 {
    let mut room = [0u8; 1];
    put_octets(line, number, &mut room);
    room[0]
}

// Fills the front of words with the numbers in octets, four each, as far as they reach: how many there are.
fn fill_words(octets: &[u8], words: &mut [u32]) -> usize
    ensures { result ≤ length words.old }
{
    for (word, four) in words.iter_mut().zip(octets.chunks_exact(4)) {
        *word = number_at(4, four, 0) as u32;
    }
    words.len().min(octets.len() / 4)
}

// Fills the front of words with those of a line's field, whose octets a room holds meanwhile: how many there are.
pub fn put_words(line: &[u8], number: usize, room: &mut [u8], words: &mut [u32]) -> usize
    ensures { IsPrefixLen result words.new }
{
    let end = put_octets(line, number, room);
    fill_words(&room[..end], words)
}

// ---- Printing ----

// Prints the first number of an answer.
pub fn print_first(number: u64) {
    io::print_decimal(STDOUT_FILENO, number);
}

// Prints one more number of an answer.
pub fn print_number(number: u64) {
    io::write_all(STDOUT_FILENO, b"\t");
    io::print_decimal(STDOUT_FILENO, number);
}

// Prints a refusal's number and place; 0 and 0 where a call is done.
pub fn print_refusal(number: u8, place: usize) {
    print_first(number as u64);
    print_number(place as u64);
}

// Prints a refusal's number and place, and a value.
pub fn print_valued(number: u8, place: usize, value: usize) {
    print_refusal(number, place);
    print_number(value as u64);
}

// Prints an octet as two digits.
fn print_octet(octet: u8) {
    io::print_hex(STDOUT_FILENO, octet as u64, 2);
}

// Prints octets as one more field of an answer.
pub fn print_octets(s: &[u8]) {
    io::write_all(STDOUT_FILENO, b"\t");
    for octet in s {
        print_octet(*octet);
    }
}

// Prints the values of actions.
pub fn print_actions(actions: Actions) {
    for value in &entry::values_of(actions) {
        print_number(*value);
    }
}

// Ends an answer.
pub fn print_end() {
    io::write_all(STDOUT_FILENO, b"\n");
}
