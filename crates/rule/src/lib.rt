// One rule (RFC 8955 section 4): its components, and reading one. `component_at` is the one cursor of reading: it and the functions that
// it calls make every bounds check of that walk. `Reader`, a value with a place in it, is thin above the cursor: it tells what stands at
// its place, hands on the body that lies there, and is moved behind it. Whoever walks a value asks `next_component` and
// `component_body`, which take plain parameters.
#![tactic(auto)]

ghost use Rattle.std.specs.Prelude.{◌≡◌, ◌<◌, ◌≤◌, length};
ghost use Rattle.rule.specs.Family.{ipv4, ipv6, family_of};
ghost use Rattle.rule.specs.Refusal.{number_of, place_of, told_number};
ghost use Rattle.rule.specs.Shape.{shape_of};
ghost use Rattle.rule.specs.Operator.{ends_list, size_of};
ghost use Rattle.rule.specs.Component.{pair_at, pairs_from, lead_of, offset_at, prefix_end, body_end, component_at};
ghost use Rattle.rule.specs.Reader.{reader_at, next_of, behind_of, HandsOn};
ghost use Rattle.rule.specs.Value.{most_value, check_value};
ghost use Rattle.rule.specs.Reading.{field_size, field_length, first_rule, one_rule};

use octets::octet_at;

// The octets a value has at most.
pub const MOST_VALUE: usize = 4095;

// ---- Answers ----

// The families of addresses whose rules are known (RFC 4760's address family).
#[derive(Clone, Copy)]
pub enum AddressFamily {
    Ipv4,
    Ipv6,
}

// What a family of addresses decides: the highest component type; the bits of an address; the octets before the first component;
// whether a prefix has an offset octet behind its length; the bits of a fragment value that count; ICMP's protocol number; the version
// in a packet's first octet; and the words of a route.
#[derive(Clone, Copy)]
pub struct Family {
    pub highest: u8,
    pub width: u8,
    pub head: usize,
    pub offsets: bool,
    pub fragment: u8,
    pub icmp: u8,
    pub version: u8,
    pub words: usize,
}

// What the body of a component type is: a prefix or a list of pairs; and of a list, whether its operators are bitmask ones, the largest
// size of a value, and the bits of a value that are to be ignored.
#[derive(Clone, Copy)]
pub struct Shape {
    pub prefix: bool,
    pub bitmask: bool,
    pub largest: usize,
    pub ignored: u8,
}

// Why a call is refused: a row of 01's table. Those of the rows 3 to 7 carry a place in the value.
#[derive(Clone, Copy, PartialEq, Eq)]
pub enum Refusal {
    // 1: a length field or a value runs past the octets, or a value is over 4,095.
    Overlong,
    // 2: a value of length 0.
    Empty,
    // 3: a component type that the family does not have.
    UnknownType(usize),
    // 4: a type that is not above the one before.
    TypeOrder(usize),
    // 5: a prefix length that no prefix may have.
    PrefixLength(usize),
    // 6: a value that ends inside a component.
    CutShort(usize),
    // 7: a size that is not allowed for the type.
    ValueSize(usize),
    // 8: an infeasible rule.
    Infeasible,
    // 9: an unsound list of routes.
    UnsoundRoutes,
    // 10: an unsound table.
    UnsoundTable,
    // 11: a table that has no room.
    NoRoom,
    // 12: an unusable packet.
    UnusablePacket,
    // 13: unsound actions.
    UnsoundActions,
    // 14: a rule to withdraw that is not held.
    NotHeld,
    // 15: octets after the one rule.
    OctetsBehind,
    // 16: a buffer for what is to be written that is too short.
    ShortBuffer,
    // 19: an attribute that is not taken (2026-01).
    UntakenAttribute,
}

impl Refusal {
    // The refusal's number in 01's table.
    pub fn number(self) -> u8
        ensures { (result ≡ number_of self) × (result ≤ 19) }
    {
        match self {
            Refusal::Overlong => 1,
            Refusal::Empty => 2,
            Refusal::UnknownType(_) => 3,
            Refusal::TypeOrder(_) => 4,
            Refusal::PrefixLength(_) => 5,
            Refusal::CutShort(_) => 6,
            Refusal::ValueSize(_) => 7,
            Refusal::Infeasible => 8,
            Refusal::UnsoundRoutes => 9,
            Refusal::UnsoundTable => 10,
            Refusal::NoRoom => 11,
            Refusal::UnusablePacket => 12,
            Refusal::UnsoundActions => 13,
            Refusal::NotHeld => 14,
            Refusal::OctetsBehind => 15,
            Refusal::ShortBuffer => 16,
            Refusal::UntakenAttribute => 19,
        }
    }

    // The place in the value that the refusal carries, and 0 where it carries none.
    pub fn place(self) -> usize
        ensures { result ≡ place_of self }
    {
        match self {
            Refusal::UnknownType(place) => place,
            Refusal::TypeOrder(place) => place,
            Refusal::PrefixLength(place) => place,
            Refusal::CutShort(place) => place,
            Refusal::ValueSize(place) => place,
            _ => 0,
        }
    }
}

// The number that an outcome is told with: 0 where it is done, else its refusal's.
pub fn told_number(outcome: Result<(), Refusal>) -> u8
    ensures { (result ≡ told_number outcome) × (result ≤ 19) }
{
    match outcome {
        Ok(()) => 0,
        Err(refusal) => refusal.number(),
    }
}

// The place behind a pair of a list, which goes on behind it or ends with it.
#[derive(Clone, Copy)]
pub enum NextPair {
    More(usize),
    Last(usize),
}

// A component that stands at a place of a value: its type, and the place behind it.
#[derive(Clone, Copy)]
pub struct Located {
    pub kind: u8,
    pub next: usize,
}

// Where a rule's value stands: its first place, and its size.
#[derive(Clone, Copy)]
pub struct Span {
    pub start: usize,
    pub size: usize,
}

// A value and how far it has been read: where the next component begins, and the type of the one before it (0 at the start).
#[derive(Clone, Copy)]
pub struct Reader<'a> {
    pub family: Family,
    pub value: &'a [u8],
    pub at: usize,
    pub previous: u8,
}

// ---- Families, types and operators (sections 4.2.1 and 4.2.2) ----

// IPv4 (RFC 8955).
pub fn ipv4() -> Family
    ensures { result ≡ ipv4 }
{
    Family {
        highest: 12,
        width: 32,
        head: 0,
        offsets: false,
        fragment: 0x0f,
        icmp: 1,
        version: 4,
        words: 4,
    }
}

// IPv6 (RFC 8956).
pub fn ipv6() -> Family
    ensures { result ≡ ipv6 }
{
    Family {
        highest: 13,
        width: 128,
        head: 0,
        offsets: true,
        fragment: 0x0e,
        icmp: 58,
        version: 6,
        words: 7,
    }
}

// What a family of addresses decides.
pub fn family_of(which: AddressFamily) -> Family
    ensures { result ≡ family_of which }
{
    match which {
        AddressFamily::Ipv4 => ipv4(),
        AddressFamily::Ipv6 => ipv6(),
    }
}

// What the body of a component type is in a family.
pub fn shape_of(family: Family, kind: u8) -> Shape
    ensures { result ≡ shape_of family kind }
{
    match kind {
        1 | 2 => Shape {
            prefix: true,
            bitmask: false,
            largest: 0,
            ignored: 0,
        },
        9 => Shape {
            prefix: false,
            bitmask: true,
            largest: 2,
            ignored: 0,
        },
        11 => Shape {
            prefix: false,
            bitmask: false,
            largest: 1,
            ignored: 0xc0,
        },
        12 => Shape {
            prefix: false,
            bitmask: true,
            largest: 1,
            ignored: 0xff - family.fragment,
        },
        _ => Shape {
            prefix: false,
            bitmask: false,
            largest: 8,
            ignored: 0,
        },
    }
}

// Whether an operator is a list's last one.
pub fn ends_list(operator: u8) -> bool
    ensures { result ≡ ends_list operator }
{
    operator & 0x80 != 0
}

// How many octets an operator's value has: 1, 2, 4 or 8.
pub fn size_of(operator: u8) -> usize
    ensures { (result ≡ size_of operator) × (result ≤ 8) }
{
    let exponent = (operator & 0x30) >> 4;
    1 << exponent
}

// ---- Components (section 4.2.2) ----

// The pair at a place of a list whose values have at most `largest` octets: 7 where its size is not allowed, 6 where it is cut short.
pub fn pair_at(largest: usize, value: &[u8], at: usize) -> Result<NextPair, Refusal>
    ensures { result ≡ pair_at largest value.now at }
{
    let end = value.len();
    if end <= at {
        return Err(Refusal::CutShort(end));
    }
    let operator = value[at];
    let size = size_of(operator);
    if largest < size {
        return Err(Refusal::ValueSize(at));
    }
    let start = at + 1;
    if end - start < size {
        return Err(Refusal::CutShort(end));
    }
    if ends_list(operator) {
        return Ok(NextPair::Last(start + size));
    }
    Ok(NextPair::More(start + size))
}

// The place behind a list that begins at a place.
pub fn list_end(largest: usize, value: &[u8], start: usize) -> Result<usize, Refusal>
    ensures { result ≡ (pairs_from largest value.now start).ending }
{
    let mut at = start;
    loop {
        match pair_at(largest, value, at)? {
            NextPair::More(next) => {
                at = next;
            }
            NextPair::Last(next) => {
                return Ok(next);
            }
        }
    }
}

// How many octets stand before a prefix's pattern.
pub fn lead_of(family: Family) -> usize
    ensures { (result ≡ lead_of family) × (result ≤ 2) }
{
    if family.offsets {
        return 2;
    }
    1
}

// The offset that stands at a place, or 0 in a family that has none.
pub fn offset_at(family: Family, value: &[u8], place: usize) -> u8
    ensures { result ≡ offset_at family value.now place }
{
    if family.offsets {
        return octet_at(value, place);
    }
    0
}

// The place behind a prefix that begins at a place: 5 where its length is above the width or not above its offset, 6 where it is cut short.
pub fn prefix_end(family: Family, value: &[u8], at: usize) -> Result<usize, Refusal>
    ensures { result ≡ prefix_end family value.now at }
{
    let end = value.len();
    if end <= at {
        return Err(Refusal::CutShort(end));
    }
    let bits = value[at];
    if family.width < bits {
        return Err(Refusal::PrefixLength(at));
    }
    let start = at + lead_of(family);
    if end < start {
        return Err(Refusal::CutShort(end));
    }
    let offset = offset_at(family, value, at + 1);
    if (0 < offset) & (bits <= offset) {
        return Err(Refusal::PrefixLength(at));
    }
    let octets = ((bits - offset) as usize + 7) / 8;
    if end - start < octets {
        return Err(Refusal::CutShort(end));
    }
    Ok(start + octets)
}

// The place behind a body that begins at a place.
pub fn body_end(family: Family, kind: u8, value: &[u8], at: usize) -> Result<usize, Refusal>
    ensures { result ≡ body_end family kind value.now at }
{
    let shape = shape_of(family, kind);
    if shape.prefix {
        return prefix_end(family, value, at);
    }
    list_end(shape.largest, value, at)
}

// The cursor: the component at a place, behind one of the type `previous`.
pub fn component_at(
    family: Family,
    value: &[u8],
    at: usize,
    previous: u8,
) -> Result<Option<Located>, Refusal>
    ensures { result ≡ component_at family value.now at previous }
{
    if value.len() <= at {
        return Ok(None);
    }
    let kind = value[at];
    if (kind == 0) | (family.highest < kind) {
        return Err(Refusal::UnknownType(at));
    }
    if kind <= previous {
        return Err(Refusal::TypeOrder(at));
    }
    let next = body_end(family, kind, value, at + 1)?;
    Ok(Some(Located { kind, next }))
}

// The body of the component at a place, which ends at `next`: the octets behind its type octet, as a part of the value.
pub fn body_at(value: &[u8], at: usize, next: usize) -> &[u8]
    requires { (at < next) × (next ≤ length value.now) }
    ensures { HandsOn value.entry at next result }
{
    let start = at + 1;
    &value[start..next]
}

impl<'a> Reader<'a> {
    // A reader of a value that has read nothing yet.
    pub fn new(family: Family, value: &'a [u8]) -> Reader<'a>
        ensures { result ≡ reader_at family value.entry 0 0 }
    {
        Reader {
            family,
            value,
            at: 0,
            previous: 0,
        }
    }

    // The reader moved behind a component of the type `kind`, or behind the head where `kind` is 0, which ends at `next`.
    pub fn behind(self, kind: u8, next: usize) -> Reader<'a>
        ensures { result ≡ behind_of self.entry kind next }
    {
        Reader {
            family: self.family,
            value: self.value,
            at: next,
            previous: kind,
        }
    }

    // What stands at the reader's place.
    pub fn next(self) -> Result<Option<Located>, Refusal>
        ensures { result ≡ next_of self.entry }
    {
        component_at(self.family, self.value, self.at, self.previous)
    }

    // The body of the component at the reader's place, which ends at `next`.
    pub fn body(self, next: usize) -> &'a [u8]
        requires { (self.at < next) × (next ≤ length self.value.now) }
        ensures { HandsOn self.entry.value self.entry.at next result }
    {
        body_at(self.value, self.at, next)
    }
}

// A reader at a place of a value, behind a component of the type `previous` (0 at the start).
pub fn reader_at<'a>(family: Family, value: &'a [u8], at: usize, previous: u8) -> Reader<'a>
    ensures { result ≡ reader_at family value.entry at previous }
{
    Reader::new(family, value).behind(previous, at)
}

// What a reader at a place of a value finds there.
pub fn next_component(
    family: Family,
    value: &[u8],
    at: usize,
    previous: u8,
) -> Result<Option<Located>, Refusal>
    ensures { result ≡ component_at family value.now at previous }
{
    reader_at(family, value, at, previous).next()
}

// The body that a reader at a place of a value hands on: of the component there, which ends at `next`.
pub fn component_body(family: Family, value: &[u8], at: usize, previous: u8, next: usize) -> &[u8]
    requires { (at < next) × (next ≤ length value.now) }
    ensures { HandsOn value.entry at next result }
{
    reader_at(family, value, at, previous).body(next)
}

// Refusals 1 to 7 of a value.
pub fn check_value(family: Family, value: &[u8]) -> Result<(), Refusal>
    ensures { result ≡ check_value family value.now }
{
    if MOST_VALUE < value.len() {
        return Err(Refusal::Overlong);
    }
    if (value.len() == 0) | (value.len() == family.head) {
        return Err(Refusal::Empty);
    }
    if value.len() < family.head {
        return Err(Refusal::CutShort(value.len()));
    }
    let mut at = family.head;
    let mut previous = 0;
    while let Some(component) = next_component(family, value, at, previous)? {
        at = component.next;
        previous = component.kind;
    }
    Ok(())
}

// ---- Reading (section 4.1) ----

// How many octets the length field has.
pub fn field_size(s: &[u8]) -> usize
    ensures { (result ≡ field_size s.now) × (result ≤ 2) }
{
    if octet_at(s, 0) < 0xf0 {
        return 1;
    }
    2
}

// The length that the length field gives.
pub fn field_length(s: &[u8]) -> usize
    ensures { (result ≡ field_length s.now) × (result ≤ most_value) }
{
    let first = octet_at(s, 0);
    if first < 0xf0 {
        return first as usize;
    }
    let high = first & 0x0f;
    let low = octet_at(s, 1);
    high as usize * 256 + low as usize
}

// The rule that octets begin with.
pub fn first_rule(family: Family, s: &[u8]) -> Result<Span, Refusal>
    ensures { result ≡ first_rule family s.now }
{
    let start = field_size(s);
    let size = field_length(s);
    let end = start + size;
    if s.len() < end {
        return Err(Refusal::Overlong);
    }
    check_value(family, &s[start..end])?;
    Ok(Span { start, size })
}

// The one rule that octets are.
pub fn one_rule(family: Family, s: &[u8]) -> Result<Span, Refusal>
    ensures { result ≡ one_rule family s.now }
{
    let rule = first_rule(family, s)?;
    let end = rule.start + rule.size;
    if end == s.len() {
        return Ok(rule);
    }
    Err(Refusal::OctetsBehind)
}
