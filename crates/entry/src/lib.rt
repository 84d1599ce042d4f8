// A rule as the table holds it: writing its record, and telling what a record's octets stand for (01, "The table").
#![tactic(auto)]

ghost use Rattle.std.specs.Prelude.{◌≡◌, true, [], ◌∷◌, ◌+◌, ◌≤◌, length};
ghost use Rattle.octets.specs.Store.{stored};
ghost use Rattle.octets.specs.Test.{same_list};
ghost use Rattle.rule.specs.Shape.{shape_of};
ghost use Rattle.rule.specs.Component.{pairs_from, prefix_end, body_end};
ghost use Rattle.spelling.specs.Plain.{Length, Operator, body_of, plain_from};
ghost use Rattle.action.specs.Actions.{flags_of, notes_of, values_of};
ghost use Rattle.entry.specs.Entry.{entry_for, plain_value};
ghost use Rattle.entry.specs.Record.{head_cost, written, record_of, field_if, limit_if, actions_in, entry_of, Measured, good_record, tidy_head};

use action::{Actions, Given, Limit, could_be};
use octets::{bit_if, number_at, octet_at, store, write_number};
use route::Origin;
use rule::{Family, MOST_VALUE, component_body, next_component, offset_at, shape_of, size_of};
use spelling::{plain_operand, plain_operator, plain_pattern};

// How many octets each field of a record's head has: value length, originator, flags, DSCP, each rate, redirect community, notes, and each of
// three that are zero.
pub const LENGTH_WIDTH: usize = 2;

const ORIGINATOR_WIDTH: usize = 4;

const FLAGS_WIDTH: usize = 1;

const DSCP_WIDTH: usize = 1;

const RATE_WIDTH: usize = 8;

const REDIRECT_WIDTH: usize = 8;

const NOTES_WIDTH: usize = 1;

const SPARE_WIDTH: usize = 1;

// Where each field from the flags on begins in a record: behind the fields before it.
const FLAGS_PLACE: usize = LENGTH_WIDTH + ORIGINATOR_WIDTH;

const DSCP_PLACE: usize = FLAGS_PLACE + FLAGS_WIDTH;

const BYTES_PLACE: usize = DSCP_PLACE + DSCP_WIDTH;

const PACKETS_PLACE: usize = BYTES_PLACE + RATE_WIDTH;

const REDIRECT_PLACE: usize = PACKETS_PLACE + RATE_WIDTH;

const NOTES_PLACE: usize = REDIRECT_PLACE + REDIRECT_WIDTH;

const FIRST_SPARE: usize = NOTES_PLACE + NOTES_WIDTH;

const SECOND_SPARE: usize = FIRST_SPARE + SPARE_WIDTH;

const THIRD_SPARE: usize = SECOND_SPARE + SPARE_WIDTH;

// The octets of a record's head.
pub const HEAD_COST: usize = THIRD_SPARE + SPARE_WIDTH;

// What an announcement says of its rule: who announces it, and the actions.
#[derive(Clone, Copy)]
pub struct Head {
    pub origin: Origin,
    pub actions: Actions,
}

// Writes fields one behind the other from a place on, each by how many octets it has and its number.
fn write_fields(fields: &[(usize, u64)], buffer: &mut [u8], at: usize)
    requires { at + length (written fields.now) ≤ length buffer.old }
    ensures { buffer.new ≡ stored buffer.old at (written fields.now) }
{
    let mut place = at;
    for (width, number) in fields {
        let next = place + *width;
        write_number(*width, *number, buffer, place);
        place = next;
    }
}

// The flags of actions.
pub fn flags_of(actions: Actions) -> u8
    ensures { result ≡ flags_of actions }
{
    let bytes = bit_if(actions.bytes.present, 1);
    let packets = bit_if(actions.packets.present, 2);
    let sample = bit_if(actions.sample, 4);
    let onward = bit_if(actions.onward, 8);
    let marking = bit_if(actions.marking.present, 16);
    let redirect = bit_if(actions.redirect.present, 32);
    bytes + packets + sample + onward + marking + redirect
}

// The notes of actions: three bits for each rate, byte rate lowest.
pub fn notes_of(actions: Actions) -> u64
    ensures { result ≡ notes_of actions }
{
    let bytes = actions.bytes.note as u64;
    let packets = actions.packets.note as u64;
    bytes + packets * 8
}

// The values of actions in the order of a record: flags, DSCP, byte rate, packet rate, redirect community, notes.
pub fn values_of(actions: Actions) -> [u64; 6]
    ensures { result ≡ values_of actions }
{
    let flags = flags_of(actions);
    let notes = notes_of(actions);
    [
        flags as u64,
        actions.marking.number,
        actions.bytes.number,
        actions.packets.number,
        actions.redirect.number,
        notes,
    ]
}

// Writes the record of a rule at a place of a table: the head, and then the value.
pub fn write_record(table: &mut [u8], at: usize, head: Head, value: &[u8])
    requires { at + (head_cost + length value.now) ≤ length table.old }
    ensures { table.new ≡ stored table.old at (record_of (entry_for head value.now)) }
{
    let values = values_of(head.actions);
    let fields = [
        (LENGTH_WIDTH, value.len() as u64),
        (ORIGINATOR_WIDTH, head.origin.originator as u64),
        (FLAGS_WIDTH, values[0]),
        (DSCP_WIDTH, values[1]),
        (RATE_WIDTH, values[2]),
        (RATE_WIDTH, values[3]),
        (REDIRECT_WIDTH, values[4]),
        (NOTES_WIDTH, values[5]),
        (SPARE_WIDTH, 0),
        (SPARE_WIDTH, 0),
        (SPARE_WIDTH, 0),
    ];
    write_fields(&fields, table, at);
    let start = at + HEAD_COST;
    store(table, start, value);
}

// A field with its flag.
fn field_if(flags: u8, bit: u8, number: u64) -> Given
    ensures { result ≡ field_if flags bit number }
{
    Given {
        present: flags & bit != 0,
        number,
    }
}

// A rate with its flag and its note.
fn limit_if(flags: u8, bit: u8, number: u64, note: u8) -> Limit
    ensures { result ≡ limit_if flags bit number note }
{
    Limit {
        present: flags & bit != 0,
        number,
        note,
    }
}

// The actions that fields stand for.
fn actions_in(flags: u8, dscp: u64, bytes: u64, packets: u64, redirect: u64, notes: u8) -> Actions
    ensures { result ≡ actions_in flags dscp bytes packets redirect notes }
{
    let byte_note = notes % 8;
    let packet_note = notes / 8 % 8;
    let byte_rate = limit_if(flags, 1, bytes, byte_note);
    let packet_rate = limit_if(flags, 2, packets, packet_note);
    let marking = field_if(flags, 16, dscp);
    let community = field_if(flags, 32, redirect);
    Actions {
        bytes: byte_rate,
        packets: packet_rate,
        sample: flags & 4 != 0,
        onward: flags & 8 != 0,
        marking,
        redirect: community,
    }
}

// The actions of a record.
pub fn record_actions(octets: &[u8]) -> Actions
    ensures { result ≡ (entry_of octets.now).actions }
{
    let flags = octet_at(octets, FLAGS_PLACE);
    let dscp = octet_at(octets, DSCP_PLACE);
    let bytes = number_at(RATE_WIDTH, octets, BYTES_PLACE);
    let packets = number_at(RATE_WIDTH, octets, PACKETS_PLACE);
    let redirect = number_at(REDIRECT_WIDTH, octets, REDIRECT_PLACE);
    let notes = octet_at(octets, NOTES_PLACE);
    actions_in(flags, dscp as u64, bytes, packets, redirect, notes)
}

// Whether a prefix's body is its own plain spelling: only its last octet can have bits past the length.
fn is_plain_prefix(family: Family, body: &[u8]) -> bool
    requires { prefix_end family body.now 0 ≡ Ok (length body.now) }
    ensures { result ≡ same_list (plain_from family Length body.now) body.now }
{
    let bits = body[0] - offset_at(family, body, 1);
    let kept = bits % 8;
    if kept == 0 {
        return true;
    }
    let last = body[body.len() - 1];
    plain_pattern(kept, last) == last
}

// Whether an operator, a list's first or a later one, and the first octet of its value are their own plain spelling.
fn is_plain_pair(family: Family, kind: u8, first: bool, operator: u8, octet: u8) -> bool
    ensures { result ≡ same_list (plain_from family (Operator kind first) (operator ∷ octet ∷ [])) (operator ∷ octet ∷ []) }
{
    let shape = shape_of(family, kind);
    let value = octet as u64;
    let same = plain_operator(shape.bitmask, first, operator) == operator;
    same & (plain_operand(shape.ignored, value) == value)
}

// Whether a list's body is its own plain spelling: of a value only the first octet is looked at, since one that loses bits has no other.
fn is_plain_list(family: Family, kind: u8, body: &[u8]) -> bool
    requires { (pairs_from (shape_of family kind).largest body.now 0).ending ≡ Ok (length body.now) }
    ensures { result ≡ same_list (plain_from family (Operator kind true) body.now) body.now }
{
    let mut first = true;
    let mut at = 0;
    while at < body.len() {
        let operator = body[at];
        let start = at + 1;
        let octet = body[start];
        if !is_plain_pair(family, kind, first, operator, octet) {
            return false;
        }
        first = false;
        at = start + size_of(operator);
    }
    true
}

// Whether a body of a type is its own plain spelling.
fn is_plain_body(family: Family, kind: u8, body: &[u8]) -> bool
    requires { body_end family kind body.now 0 ≡ Ok (length body.now) }
    ensures { result ≡ same_list (plain_from family (body_of family kind) body.now) body.now }
{
    let shape = shape_of(family, kind);
    if shape.prefix {
        return is_plain_prefix(family, body);
    }
    is_plain_list(family, kind, body)
}

// Whether the table may hold a value: it is accepted, and in its plain spelling.
pub fn is_plain_value(family: Family, value: &[u8]) -> bool
    ensures { result ≡ plain_value family value.now }
{
    if (MOST_VALUE < value.len()) | (value.len() <= family.head) {
        return false;
    }
    let mut at = family.head;
    let mut previous = 0;
    loop {
        match next_component(family, value, at, previous) {
            Ok(Some(component)) => {
                let body = component_body(family, value, at, previous, component.next);
                if !is_plain_body(family, component.kind, body) {
                    return false;
                }
                at = component.next;
                previous = component.kind;
            }
            Ok(None) => {
                return true;
            }
            Err(_) => {
                return false;
            }
        }
    }
}

// Whether a head's octets that have bits to spare have none set: no bit beside six flags, none beside two notes, and three zeros.
fn is_tidy_head(octets: &[u8]) -> bool
    ensures { result ≡ tidy_head octets.now }
{
    let flags = octet_at(octets, FLAGS_PLACE);
    let notes = octet_at(octets, NOTES_PLACE);
    let first = octet_at(octets, FIRST_SPARE);
    let second = octet_at(octets, SECOND_SPARE);
    let third = octet_at(octets, THIRD_SPARE);
    (flags < 64) & (notes < 64) & (first == 0) & (second == 0) & (third == 0)
}

// Whether a record, as long as its length field says, could be: a tidy head, actions that some communities give, and a plain value.
pub fn is_good_record(family: Family, octets: &[u8]) -> bool
    requires { Measured octets.now }
    ensures { result ≡ good_record family octets.now }
{
    if !is_tidy_head(octets) {
        return false;
    }
    let actions = record_actions(octets);
    if !could_be(actions) {
        return false;
    }
    is_plain_value(family, &octets[HEAD_COST..])
}
