// Whether a packet matches a rule (RFC 8955 section 4.2): what an operator asks of a number, what a list of pairs asks of a field, and
// what a rule's components ask of a packet. `matches_rule` answers whatever octets it is lent.
#![tactic(auto)]

ghost use Rattle.std.specs.Prelude.{◌≡◌, ◌+◌, ◌<◌, ◌≤◌, length};
ghost use Rattle.prefix.specs.Prefix.{address_of};
ghost use Rattle.rule.specs.Value.{component};
ghost use Rattle.matching.specs.Operator.{numeric_holds, bitmask_holds};
ghost use Rattle.matching.specs.Evaluation.{with_pair, evaluate_pair};
ghost use Rattle.matching.specs.Match.{holds_for, body_holds, field_matches, body_covers, component_matches, matches};

use octets::{number_at, octet_at};
use packet::Packet;
use prefix::Address;
use rule::{Family, NextPair, Shape};

// A list of pairs evaluated so far: whether a group before the present one holds, and whether the present one does.
#[derive(Clone, Copy)]
struct Evaluated {
    pub found: bool,
    pub group: bool,
}

// ---- Operators (section 4.2.1) ----

// Whether a numeric operator holds between data and value: the low three bits choose the comparison.
fn numeric_holds(operator: u8, data: u64, value: u64) -> bool
    ensures { result ≡ numeric_holds operator «data» value }
{
    let comparison = operator & 7;
    match comparison {
        0 => false,
        1 => data == value,
        2 => value < data,
        3 => value <= data,
        4 => data < value,
        5 => data <= value,
        6 => data != value,
        // 7: all three, so always.
        _ => true,
    }
}

// Whether a bitmask operator holds between data and value: the low two bits choose the test.
fn bitmask_holds(operator: u8, data: u64, value: u64) -> bool
    ensures { result ≡ bitmask_holds operator «data» value }
{
    let common = data & value;
    let test = operator & 3;
    match test {
        0 => common != 0,
        1 => common == value,
        2 => common == 0,
        _ => common != value,
    }
}

// ---- Lists of pairs (section 4.2.1.1) ----

// Whether a pair of a list holds of the data; bits of its value that are to be ignored count as 0.
fn pair_holds(shape: Shape, operator: u8, value: u64, data: u64) -> bool
    ensures { result ≡ holds_for shape operator value «data» }
{
    let wanted = spelling::plain_operand(shape.ignored, value);
    if shape.bitmask {
        return bitmask_holds(operator, data, wanted);
    }
    numeric_holds(operator, data, wanted)
}

// A list evaluated one pair further: a pair that AND joins goes with the group before it, any other begins a new group.
fn with_pair(evaluated: Evaluated, joined: bool, holds: bool) -> Evaluated
    ensures { result ≡ with_pair evaluated joined holds }
{
    Evaluated {
        found: evaluated.found | (evaluated.group & !joined),
        group: holds & (evaluated.group | !joined),
    }
}

// A list evaluated one pair further, by the pair from one place up to another; the first pair's AND is ignored.
fn evaluate_pair(
    shape: Shape,
    body: &[u8],
    at: usize,
    next: usize,
    data: u64,
    evaluated: Evaluated,
) -> Evaluated
    requires { (at < next) × ((next ≤ length body.now) × (next ≤ at + 9)) }
    ensures { result ≡ evaluate_pair shape body.now at next «data» evaluated }
{
    let operator = octet_at(body, at);
    let start = at + 1;
    let value = number_at(next - start, body, start);
    let joined = (operator & 0x40 != 0) & (at != 0);
    let holds = pair_holds(shape, operator, value, data);
    with_pair(evaluated, joined, holds)
}

// Whether the list that a body is holds of the data: an OR of ANDs, in one pass.
fn list_holds(shape: Shape, body: &[u8], data: u64) -> bool
    ensures { result ≡ body_holds shape body.now «data» }
{
    let mut evaluated = Evaluated {
        found: false,
        group: false,
    };
    let mut at = 0;
    loop {
        match rule::pair_at(shape.largest, body, at) {
            Ok(NextPair::More(next)) => {
                evaluated = evaluate_pair(shape, body, at, next, data, evaluated);
                at = next;
            }
            Ok(NextPair::Last(end)) => {
                let whole = evaluate_pair(shape, body, at, end, data, evaluated);
                return whole.found | whole.group;
            }
            Err(_) => {
                return evaluated.found | evaluated.group;
            }
        }
    }
}

// ---- Components and rules (section 4.2) ----

// Whether the list that a body is holds of a field; of a hidden one it never does.
fn field_matches(shape: Shape, body: &[u8], field: Option<u32>) -> bool
    ensures { result ≡ field_matches shape body.now field }
{
    field.is_some_and(|number| list_holds(shape, body, number as u64))
}

// Whether the prefix that a body spells covers an address.
fn body_covers(family: Family, body: &[u8], address: Address) -> bool
    requires { family.width ≤ 128 }
    ensures { result ≡ body_covers family body.now (address_of address) }
{
    let pattern = prefix::prefix_of(family.width, family.offsets, body);
    prefix::covers_address(family.width, pattern, address)
}

// Whether a packet matches a component, given by its type and body: each type has its rule.
fn matches_component(family: Family, kind: u8, body: &[u8], packet: Packet) -> bool
    requires { family.width ≤ 128 }
    ensures { result ≡ component_matches family packet (component kind body.now) }
{
    let shape = rule::shape_of(family, kind);
    let transport = packet.transport;
    match kind {
        1 => body_covers(family, body, packet.destination),
        2 => body_covers(family, body, packet.source),
        3 => field_matches(shape, body, packet.protocol),
        4 => field_matches(shape, body, transport.source_port)
            | field_matches(shape, body, transport.destination_port),
        5 => field_matches(shape, body, transport.destination_port),
        6 => field_matches(shape, body, transport.source_port),
        7 => field_matches(shape, body, transport.icmp_type),
        8 => field_matches(shape, body, transport.icmp_code),
        9 => field_matches(shape, body, transport.flags),
        10 => list_holds(shape, body, packet.length as u64),
        11 => list_holds(shape, body, packet.dscp as u64),
        12 => list_holds(shape, body, packet.fragment as u64),
        13 => field_matches(shape, body, packet.label),
        // No component of a rule has another type.
        _ => false,
    }
}

// Whether a packet matches a rule, given by its value: whether it matches each component.
pub fn matches_rule(family: Family, value: &[u8], packet: Packet) -> bool
    requires { family.width ≤ 128 }
    ensures { result ≡ matches family value.now packet }
{
    let mut at = family.head;
    let mut previous = 0;
    while let Ok(Some(component)) = rule::next_component(family, value, at, previous) {
        let body = rule::component_body(family, value, at, previous, component.next);
        if !matches_component(family, component.kind, body, packet) {
            return false;
        }
        at = component.next;
        previous = component.kind;
    }
    true
}
