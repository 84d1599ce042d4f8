// Prefixes of addresses of any width up to 128 bits, which may begin behind an offset: whether one contains another or covers an
// address, which of two comes first, and the prefix that a component's body spells.
#![tactic(auto)]

ghost use Rattle.std.specs.Prelude.{◌≡◌, ◌||◌, eqb};
ghost use Rattle.std.specs.Int.Bits.{bit_and};
ghost use Prim.Native.Nat.{◌-◌, ◌/◌, ◌%◌, ◌^◌, ◌≤◌, min};
ghost use Rattle.octets.specs.Number.{number_at};
ghost use Rattle.octets.specs.Order.{ordered};
ghost use Rattle.octets.specs.Test.{same_list};
ghost use Rattle.prefix.specs.Prefix.{address_of, pattern_of, bits_between, covers_address, contains, prefix_order, offset_in, pattern_start, pattern_in};

use std::cmp::Ordering;

// An address in two words; one of up to 64 bits stands in the low one. Addresses stand in the order of their numbers.
#[derive(Clone, Copy, PartialEq, Eq, PartialOrd, Ord)]
pub struct Address {
    pub high: u64,
    pub low: u64,
}

// The bits of an address from `offset` up to `length`; a plain prefix has no other bit set.
#[derive(Clone, Copy)]
pub struct Prefix {
    pub offset: u32,
    pub length: u32,
    pub address: Address,
}

// The mask of a word's lowest bits.
fn low_mask(count: u32) -> u64
    ensures { result ≡ 2 ^ min count 64 - 1 }
{
    if 64 <= count {
        return u64::MAX;
    }
    (1u64 << count) - 1
}

// The mask of a word's bits below `highest` that are not below `lowest`.
fn mask_between(highest: u32, lowest: u32) -> u64
    ensures { result ≡ 2 ^ min highest 64 - 2 ^ min lowest 64 }
{
    let below = low_mask(lowest);
    low_mask(highest) & !below
}

// Whether two words agree under a mask.
fn agree_under(mask: u64, a: u64, b: u64) -> bool
    ensures { result ≡ eqb (bit_and a mask) (bit_and b mask) }
{
    let x = a & mask;
    let y = b & mask;
    x == y
}

// The lowest bits of an address.
pub fn low_bits(count: u32, address: Address) -> Address
    ensures { address_of result ≡ address_of address % 2 ^ count }
{
    let high = address.high & low_mask(count.saturating_sub(64));
    let low = address.low & low_mask(count);
    Address { high, low }
}

// Whether the bits of two addresses behind their first `from`, up to their first `to`, are the same: where each word agrees under its
// mask. An address of fewer than 64 bits has but one word, so that the other is not asked.
pub fn same_bits(width: u8, from: u32, to: u32, a: Address, b: Address) -> bool
    ensures { result ≡ same_list (bits_between width from to (address_of a)) (bits_between width from to (address_of b)) }
{
    let bits = width as u32;
    if bits < 64 {
        let mask = mask_between(bits.saturating_sub(from), bits.saturating_sub(to));
        return agree_under(mask, a.low, b.low);
    }
    let highest = bits.saturating_sub(from);
    let lowest = bits.saturating_sub(to);
    let low = mask_between(highest, lowest);
    let high = mask_between(highest.saturating_sub(64), lowest.saturating_sub(64));
    agree_under(high, a.high, b.high) & agree_under(low, a.low, b.low)
}

// Whether an address has the bits of a pattern.
pub fn covers_address(width: u8, pattern: Prefix, address: Address) -> bool
    ensures { result ≡ covers_address width (pattern_of pattern) (address_of address) }
{
    same_bits(
        width,
        pattern.offset,
        pattern.length,
        pattern.address,
        address,
    )
}

// Whether the outer prefix contains the inner one; every prefix contains itself.
pub fn contains_prefix(width: u8, outer: Prefix, inner: Prefix) -> bool
    ensures { result ≡ contains width (pattern_of outer) (pattern_of inner) }
{
    if outer.offset != inner.offset {
        return false;
    }
    if inner.length < outer.length {
        return false;
    }
    covers_address(width, outer, inner.address)
}

// Whether one of two prefixes contains the other: where they begin alike and have the same bits up to the end of the shorter one.
pub fn are_nested(width: u8, first: Prefix, second: Prefix) -> bool
    ensures { result ≡ (contains width (pattern_of first) (pattern_of second) || contains width (pattern_of second) (pattern_of first)) }
{
    if first.offset != second.offset {
        return false;
    }
    let shared = first.length.min(second.length);
    same_bits(width, first.offset, shared, first.address, second.address)
}

// Which of two prefixes comes first: that of the lower offset, then the more specific if one contains the other, else the lower address.
pub fn compare_prefixes(width: u8, first: Prefix, second: Prefix) -> Ordering
    ensures { result ≡ ordered (prefix_order width (pattern_of first) (pattern_of second)) }
{
    if first.offset != second.offset {
        return first.offset.cmp(&second.offset);
    }
    if are_nested(width, first, second) {
        return second.length.cmp(&first.length);
    }
    first.address.cmp(&second.address)
}

// The number in at most eight octets that begin at a place, the highest first, where each that lies past the end counts as 0; only those
// that are there are asked for, so that the compiler takes the reading in and no address goes through memory.
fn word_at(count: usize, s: &[u8], at: usize) -> u64
    requires { (count ≤ 8) × (at ≤ 10) }
    ensures { result ≡ number_at count s.now at }
{
    let end = at + count;
    let stop = end.min(s.len());
    if stop <= at {
        return 0;
    }
    let missing = end - stop;
    octets::number_at(stop - at, s, at) << (missing * 8)
}

// The same of at most 16 octets, of which the last eight are the low word.
fn address_at(count: usize, s: &[u8], at: usize) -> Address
    requires { (count ≤ 16) × (at ≤ 2) }
    ensures { address_of result ≡ number_at count s.now at }
{
    let few = count.min(8);
    let rest = count - few;
    let high = word_at(rest, s, at);
    let low = word_at(few, s, at + rest);
    Address { high, low }
}

// An address shifted to the right.
fn shifted(count: u32, address: Address) -> Address
    ensures { address_of result ≡ address_of address / 2 ^ count }
{
    if count == 0 {
        return address;
    }
    if 64 <= count {
        return Address {
            high: 0,
            low: address.high.unbounded_shr(count - 64),
        };
    }
    let back = 64 - count;
    let high = address.high >> count;
    let low = (address.high << back) | (address.low >> count);
    Address { high, low }
}

// The offset that a component's body spells: its octet behind the length octet, where there are offsets.
fn offset_in(offsets: bool, body: &[u8]) -> u32
    ensures { result ≡ offset_in offsets body.now }
{
    if offsets {
        return octets::octet_at(body, 1) as u32;
    }
    0
}

// The place of a body where the octets of its pattern begin.
fn pattern_start(offsets: bool) -> usize
    ensures { result ≡ pattern_start offsets }
{
    if offsets { 2 } else { 1 }
}

// The prefix that a component's body spells: a length octet, an offset octet where there are offsets, then the pattern, whose octets not
// sent are 0.
pub fn prefix_of(width: u8, offsets: bool, body: &[u8]) -> Prefix
    requires { width ≤ 128 }
    ensures { pattern_of result ≡ pattern_in width offsets body.now }
{
    let bits = octets::octet_at(body, 0) as u32;
    let offset = offset_in(offsets, body);
    let start = pattern_start(offsets);
    let count = (width / 8) as usize;
    let address = shifted(offset, address_at(count, body, start));
    Prefix {
        offset,
        length: bits,
        address,
    }
}
