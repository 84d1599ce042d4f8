// The plain spelling of a value (01, "Plain spelling"), made body by body, and writing a rule in it (RFC 8955 section 4.1). What clears
// asks for a whole body, what fills or writes for an accepted value; `write_rule`, which checks its value, asks nothing.
#![tactic(auto)]

ghost use Rattle.std.specs.Prelude.{◌≡◌, ◌++◌, ◌≤◌, length, drop};
ghost use Rattle.rule.specs.Component.{prefix_end, body_end};
ghost use Rattle.rule.specs.Value.{most_value, check_value};
ghost use Rattle.spelling.specs.Plain.{Length, body_of, without_reserved, plain_operator, plain_operand, plain_pattern, plain_from, plain};
ghost use Rattle.spelling.specs.Writing.{length_field, into_room, filled, writing, after_writing};
ghost use Rattle.octets.specs.Store.{stored};

use octets::store;
use rule::{
    Family, MOST_VALUE, Refusal, check_value, next_component, offset_at, shape_of, size_of,
};

// The octets of a working array, in which a plain spelling is built.
pub const WORKING: usize = MOST_VALUE + 1;

// ---- Plain spelling ----

// An operator with its reserved bits cleared.
pub fn without_reserved(bitmask: bool, x: u8) -> u8
    ensures { result ≡ without_reserved bitmask x }
{
    if bitmask {
        return x & 0xf3;
    }
    x & 0xf7
}

// An operator, a list's first or a later one, with the bits that are to be ignored cleared.
pub fn plain_operator(bitmask: bool, first: bool, x: u8) -> u8
    ensures { result ≡ plain_operator bitmask first x }
{
    let operator = without_reserved(bitmask, x);
    if first {
        return operator & 0xbf;
    }
    operator
}

// A value of a type, or an octet of one, with the bits that are to be ignored cleared.
pub fn plain_operand(ignored: u8, x: u64) -> u64
    ensures { result ≡ plain_operand ignored x }
{
    let cleared = x & ignored as u64;
    x - cleared
}

// An octet of a pattern with only the bits still to come kept.
pub fn plain_pattern(left: u8, x: u8) -> u8
    ensures { result ≡ plain_pattern left x }
{
    if 8 <= left {
        return x;
    }
    let ignored = 8 - left;
    let kept = (x as u32) >> ignored;
    (kept << ignored) as u8
}

// Clears the bits past the length of a prefix's body, which only its last octet can have.
fn clear_prefix(family: Family, body: &mut [u8])
    requires { prefix_end family body.old 0 ≡ Ok (length body.old) }
    ensures { body.new ≡ plain_from family Length body.old }
{
    let bits = body[0] - offset_at(family, body, 1);
    let kept = bits % 8;
    if kept == 0 {
        return;
    }
    let place = body.len() - 1;
    let last = body[place];
    body[place] = plain_pattern(kept, last);
}

// Clears the bits of a body of a type that are to be ignored: in a list those of each operator and of the first octet of its value, since
// a value that loses bits has no other.
fn clear_body(family: Family, kind: u8, body: &mut [u8])
    requires { body_end family kind body.old 0 ≡ Ok (length body.old) }
    ensures { body.new ≡ plain_from family (body_of family kind) body.old }
{
    let shape = shape_of(family, kind);
    if shape.prefix {
        clear_prefix(family, body);
        return;
    }
    let mut first = true;
    let mut at = 0;
    while at < body.len() {
        let operator = body[at];
        let start = at + 1;
        let octet = body[start];
        body[at] = plain_operator(shape.bitmask, first, operator);
        body[start] = plain_operand(shape.ignored, octet as u64) as u8;
        first = false;
        at = start + size_of(operator);
    }
}

// Fills the front of a working array with the plain spelling of an accepted value: stores the value there and clears its bodies.
pub fn fill_plain(family: Family, value: &[u8], work: &mut [u8])
    requires { (check_value family value.now ≡ Ok tt) × (length value.now ≤ length work.old) }
    ensures { work.new ≡ plain family value.now ++ drop (length value.now) work.old }
{
    store(work, 0, value);
    let mut at = family.head;
    let mut previous = 0;
    while let Ok(Some(component)) = next_component(family, value, at, previous) {
        let start = at + 1;
        clear_body(family, component.kind, &mut work[start..component.next]);
        at = component.next;
        previous = component.kind;
    }
}

// ---- Writing (section 4.1) ----

// How many octets the length field of a value of this size has.
pub fn field_size_for(size: usize) -> usize
    ensures { (result ≡ length (length_field size)) × (result ≤ 2) }
{
    if size < 240 {
        return 1;
    }
    2
}

// Writes the length field to the front of a buffer, and keeps the rest.
pub fn write_length(size: usize, buffer: &mut [u8])
    requires { (size ≤ most_value) × (length (length_field size) ≤ length buffer.old) }
    ensures { buffer.new ≡ stored buffer.old 0 (length_field size) }
{
    if size < 240 {
        buffer[0] = size as u8;
        return;
    }
    let high = 240 + size / 256;
    buffer[0] = high as u8;
    buffer[1] = (size % 256) as u8;
}

// Writes an accepted value as a rule in its plain spelling where there is room.
pub fn write_accepted(family: Family, value: &[u8], buffer: &mut [u8]) -> Result<usize, Refusal>
    requires { check_value family value.now ≡ Ok tt }
    ensures { (result ≡ into_room family value.now (length buffer.old) (Ok tt)) × (buffer.new ≡ filled family value.now buffer.old result) }
{
    let size = value.len();
    let field = field_size_for(size);
    let total = field + size;
    if buffer.len() < total {
        return Err(Refusal::ShortBuffer);
    }
    let mut work = [0u8; WORKING];
    fill_plain(family, value, &mut work);
    write_length(size, buffer);
    store(buffer, field, &work[..size]);
    Ok(total)
}

// Writes a value as a rule in its plain spelling, and keeps the rest of the buffer; refused, it changes nothing.
pub fn write_rule(family: Family, value: &[u8], buffer: &mut [u8]) -> Result<usize, Refusal>
    ensures { (result ≡ writing family value.now (length buffer.old)) × (buffer.new ≡ after_writing family value.now buffer.old) }
{
    check_value(family, value)?;
    write_accepted(family, value, buffer)
}
