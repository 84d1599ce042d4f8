// Octets lent as a slice: reading and writing numbers of several octets, comparing two slices, storing one in another, and taking
// octets out of a buffer or making room in it.
#![tactic(auto)]

ghost use Rattle.std.specs.Prelude.{◌≡◌, ◌++◌, length, get_or, take, drop};
ghost use Prim.Native.Nat.{◌+◌, ◌<◌, ◌≤◌, ◌^◌, compare};
ghost use Rattle.octets.specs.Bit.{bit_if};
ghost use Rattle.octets.specs.Number.{number_at, octets_of};
ghost use Rattle.octets.specs.Order.{lex, ordered};
ghost use Rattle.octets.specs.Store.{stored, cleared, cut_out, gap_opened};
ghost use Rattle.octets.specs.Test.{all_zero, same_list};

use std::cmp::Ordering;

// A bit where a test holds, and 0 where it does not.
pub fn bit_if(holds: bool, bit: u8) -> u8
    ensures { (result ≡ bit_if holds bit) × (result ≤ bit) }
{
    if holds { bit } else { 0 }
}

// The octet at a place, and 0 past the end.
pub fn octet_at(s: &[u8], at: usize) -> u8
    ensures { (result ≡ get_or s.now at 0) × (result < 256) }
{
    if at < s.len() { s[at] } else { 0 }
}

// The number in at most eight octets, the highest first.
fn number_of(s: &[u8]) -> u64
    requires { length s.now ≤ 8 }
    ensures { (result ≡ number_at (length s.now) s.now 0) × (result < 256 ^ length s.now) }
{
    let mut number: u64 = 0;
    for octet in s {
        number = number * 256 + *octet as u64;
    }
    number
}

// The number in the n octets that begin at a place, the highest first; each that lies past the end counts as 0.
pub fn number_at(n: usize, s: &[u8], at: usize) -> u64
    requires { (n ≤ 8) × (at + n < 2 ^ 64) }
    ensures { (result ≡ number_at n s.now at) × (result < 256 ^ n) }
{
    let end = at + n;
    if end <= s.len() {
        return number_of(&s[at..end]);
    }
    if s.len() <= at {
        return 0;
    }
    let missing = end - s.len();
    number_of(&s[at..]) << (missing * 8)
}

// Which of two slices comes first: octet by octet, and what runs out first comes later.
pub fn compare_octets(a: &[u8], b: &[u8]) -> Ordering
    ensures { result ≡ ordered (lex compare a.now b.now) }
{
    for (x, y) in a.iter().zip(b) {
        if x != y {
            return x.cmp(y);
        }
    }
    b.len().cmp(&a.len())
}

// Whether two slices hold the same octets.
pub fn same_octets(a: &[u8], b: &[u8]) -> bool
    ensures { result ≡ same_list a.now b.now }
{
    a == b
}

// Stores octets in a buffer from a place on, and keeps the rest of the buffer: one by one, since `copy_from_slice` asks the C library for
// memmove.
pub fn store(buffer: &mut [u8], at: usize, s: &[u8])
    requires { at + length s.now ≤ length buffer.old }
    ensures { buffer.new ≡ stored buffer.old at s.now }
{
    for (i, octet) in s.iter().enumerate() {
        buffer[at + i] = *octet;
    }
}

// Writes the n lowest octets of a number from a place on, the highest of them first.
pub fn write_number(n: usize, number: u64, buffer: &mut [u8], at: usize)
    requires { at + n ≤ length buffer.old }
    ensures { buffer.new ≡ stored buffer.old at (octets_of n number) }
{
    let mut rest = number;
    for i in (0..n).rev() {
        buffer[at + i] = (rest % 256) as u8;
        rest /= 256;
    }
}

// Clears the octets of a buffer from a place on.
pub fn clear(buffer: &mut [u8], from: usize)
    ensures { buffer.new ≡ cleared buffer.old from }
{
    let start = from.min(buffer.len());
    buffer[start..].fill(0);
}

// Takes the `size` octets at a place out of a buffer, and clears as many at its end.
pub fn cut_out(buffer: &mut [u8], at: usize, size: usize)
    requires { at + size ≤ length buffer.old }
    ensures { buffer.new ≡ cut_out buffer.old at size }
{
    buffer.copy_within(at + size.., at);
    let end = buffer.len() - size;
    clear(buffer, end);
}

// Moves all from a place on up by `size` octets, so that as many fall off at the end.
pub fn open_gap(buffer: &mut [u8], at: usize, size: usize)
    requires { at + size ≤ length buffer.old }
    ensures { buffer.new ≡ gap_opened buffer.old at size }
{
    let end = buffer.len() - size;
    buffer.copy_within(at..end, at + size);
}

// Whether every octet from a place on is 0: whether no bit is set in any, so that no octet has to wait for the one before it.
pub fn is_zero(s: &[u8], from: usize) -> bool
    ensures { result ≡ all_zero (drop from s.now) }
{
    let start = from.min(s.len());
    s[start..].iter().fold(0, |seen, octet| seen | *octet) == 0
}
