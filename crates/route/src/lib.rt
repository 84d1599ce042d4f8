// Unicast routes lent as 32-bit words, as many a route as the family has, and whether a rule is feasible by them: RFC 8955 section 6.
#![tactic(auto)]

ghost use Rattle.std.specs.Prelude.{◌≡◌, ◌+◌, ◌≤◌, length, option_map};
ghost use Rattle.prefix.specs.Prefix.{address_of, pattern_of};
ghost use Rattle.rule.specs.Family.{Fits};
ghost use Rattle.rule.specs.Value.{component};
ghost use Rattle.route.specs.Route.{route_of, number_in_words, route_at, routes_of, plain_prefix, rises, sound_routes};
ghost use Rattle.route.specs.Destination.{destination_for, destination_of};
ghost use Rattle.route.specs.Feasible.{originates, matched, longer, judged, feasible};
ghost use Rattle.route.specs.Pass.{may_follow, added, noted, agrees, validated};

use prefix::{Address, Prefix};
use rule::Family;

// A unicast route: its prefix, its originator, and the neighbour AS that it was received from.
#[derive(Clone, Copy)]
pub struct Route {
    pub prefix: Prefix,
    pub originator: u32,
    pub neighbour: u32,
}

// Who announces a rule: what an announcement is judged by beside its destination (RFC 8955 section 6), not BGP's attribute ORIGIN.
#[derive(Clone, Copy)]
pub struct Origin {
    pub originator: u32,
}

// What is settled for judging: whether rules with no destination are allowed.
#[derive(Clone, Copy)]
pub struct Settings {
    pub allows_no_destination: bool,
}

// The neighbour ASes of the routes seen strictly inside a destination.
#[derive(Clone, Copy)]
pub enum Neighbours {
    Nobody,
    One(u32),
    Several,
}

// The most routes lent.
pub const MOST_ROUTES: usize = 4096;

// The number in at most two words that begin at a place, the highest first.
fn number_in(count: usize, words: &[u32], at: usize) -> u64
    requires { (count ≤ 2) × (at + count ≤ length words.now) }
    ensures { result ≡ number_in_words count words.now at }
{
    if count == 0 {
        return 0;
    }
    let first = words[at] as u64;
    if count == 1 {
        return first;
    }
    let second = words[at + 1] as u64;
    first * 4294967296 + second
}

// The address in the first words, at most four.
fn address_in(count: usize, words: &[u32]) -> Address
    requires { (count ≤ 4) × (count ≤ length words.now) }
    ensures { address_of result ≡ number_in_words count words.now 0 }
{
    if count <= 2 {
        return Address {
            high: 0,
            low: number_in(count, words, 0),
        };
    }
    let rest = count - 2;
    let high = number_in(rest, words, 0);
    let low = number_in(2, words, rest);
    Address { high, low }
}

// The route that its own words spell: its address's, its length, its originator and its neighbour AS.
fn route_in(family: Family, words: &[u32]) -> Route
    requires { Fits family × (length words.now ≡ family.words) }
    ensures { route_of result ≡ route_at family words.now 0 }
{
    let count = family.words - 3;
    let address = address_in(count, words);
    let bits = words[count];
    let originator = words[count + 1];
    let neighbour = words[count + 2];
    let prefix = Prefix {
        offset: 0,
        length: bits,
        address,
    };
    Route {
        prefix,
        originator,
        neighbour,
    }
}

// Whether a prefix is no longer than the width and has no bit past its length.
fn is_plain(width: u8, prefix: Prefix) -> bool
    ensures { result ≡ plain_prefix width (pattern_of prefix) }
{
    let bits = width as u32;
    if bits < prefix.length {
        return false;
    }
    let past = prefix::low_bits(bits - prefix.length, prefix.address);
    (past.high == 0) & (past.low == 0)
}

// Whether a prefix comes before another by address, then by length.
fn rises_to(from: Prefix, to: Prefix) -> bool
    ensures { result ≡ rises (pattern_of from) (pattern_of to) }
{
    let one = from.address;
    let other = to.address;
    if one.high != other.high {
        return one.high < other.high;
    }
    if one.low != other.low {
        return one.low < other.low;
    }
    from.length < to.length
}

// Whether a prefix is plain and comes behind the one before it.
fn may_follow(width: u8, previous: Prefix, prefix: Prefix) -> bool
    ensures { result ≡ may_follow width (pattern_of previous) (pattern_of prefix) }
{
    is_plain(width, prefix) & rises_to(previous, prefix)
}

// Whether a lent list of routes is sound: each route is read once, and looked at beside the one before it.
pub fn sound_routes(family: Family, words: &[u32]) -> bool
    requires { Fits family }
    ensures { result ≡ sound_routes family words.now }
{
    let stride = family.words;
    if MOST_ROUTES * stride < words.len() {
        return false;
    }
    if words.len() % stride != 0 {
        return false;
    }
    let mut routes = words.chunks_exact(stride);
    let Some(front) = routes.next() else {
        return true;
    };
    let first = route_in(family, front);
    if !is_plain(family.width, first.prefix) {
        return false;
    }
    let mut previous = first.prefix;
    for own in routes {
        let route = route_in(family, own);
        if !may_follow(family.width, previous, route.prefix) {
            return false;
        }
        previous = route.prefix;
    }
    true
}

// The better of the best match so far and one more route: a longer one that covers the destination.
fn better(width: u8, best: Option<Route>, destination: Prefix, route: Route) -> Option<Route>
    ensures { option_map route_of result ≡ longer (option_map route_of best) (matched width (pattern_of destination) (route_of route)) }
{
    let covering = route.prefix;
    if !prefix::contains_prefix(width, covering, destination) {
        return best;
    }
    let Some(held) = best else {
        return Some(route);
    };
    let longest = held.prefix;
    if longest.length < covering.length {
        return Some(route);
    }
    best
}

// The neighbour ASes with one more.
fn add_neighbour(seen: Neighbours, neighbour: u32) -> Neighbours
    ensures { result ≡ added seen neighbour }
{
    match seen {
        Neighbours::Nobody => Neighbours::One(neighbour),
        Neighbours::One(n) => {
            if n == neighbour {
                seen
            } else {
                Neighbours::Several
            }
        }
        Neighbours::Several => Neighbours::Several,
    }
}

// The neighbour ASes seen, with that of one more route if it lies strictly inside the destination.
fn note_neighbour(width: u8, seen: Neighbours, destination: Prefix, route: Route) -> Neighbours
    ensures { result ≡ noted width (pattern_of destination) seen (route_of route) }
{
    let inner = route.prefix;
    if inner.length <= destination.length {
        return seen;
    }
    if !prefix::contains_prefix(width, destination, inner) {
        return seen;
    }
    add_neighbour(seen, route.neighbour)
}

// Whether all neighbour ASes seen are this one.
fn all_agree(seen: Neighbours, neighbour: u32) -> bool
    ensures { result ≡ agrees seen neighbour }
{
    match seen {
        Neighbours::Nobody => true,
        Neighbours::One(n) => n == neighbour,
        Neighbours::Several => false,
    }
}

// Whether a route has the announcement's originator.
fn originates(origin: Origin, route: Route) -> bool
    ensures { result ≡ originates origin (route_of route) }
{
    route.originator == origin.originator
}

// Whether the best match has the announcement's originator, and no other neighbour AS than its own was seen.
fn is_validated(best: Option<Route>, origin: Origin, seen: Neighbours) -> bool
    ensures { result ≡ validated (option_map route_of best) origin seen }
{
    let Some(route) = best else {
        return false;
    };
    if !originates(origin, route) {
        return false;
    }
    all_agree(seen, route.neighbour)
}

// Whether a rule with this destination is feasible: one pass keeps the best match and the neighbour ASes inside. Most routes neither cover
// the destination nor lie inside it, and one comparison tells.
fn judge(family: Family, destination: Prefix, origin: Origin, words: &[u32]) -> bool
    requires { Fits family }
    ensures { result ≡ judged family.width (pattern_of destination) origin (routes_of family words.now) }
{
    let width = family.width;
    let mut best = None;
    let mut seen = Neighbours::Nobody;
    for own in words.chunks_exact(family.words) {
        let route = route_in(family, own);
        if !prefix::are_nested(width, destination, route.prefix) {
            continue;
        }
        best = better(width, best, destination, route);
        seen = note_neighbour(width, seen, destination, route);
    }
    is_validated(best, origin, seen)
}

// Whether a rule is feasible by the routes; one with no destination is exactly where that is allowed.
pub fn is_feasible(
    family: Family,
    settings: Settings,
    destination: Option<Prefix>,
    origin: Origin,
    words: &[u32],
) -> bool
    requires { Fits family }
    ensures { result ≡ feasible family.width settings (option_map pattern_of destination) origin (routes_of family words.now) }
{
    let Some(prefix) = destination else {
        return settings.allows_no_destination;
    };
    judge(family, prefix, origin, words)
}

// The destination that a rule's first component spells, if it is of type 1.
fn destination_for(family: Family, kind: u8, body: &[u8]) -> Option<Prefix>
    requires { Fits family }
    ensures { option_map pattern_of result ≡ destination_for family (component kind body.now) None }
{
    if kind == 1 {
        return Some(prefix::prefix_of(family.width, family.offsets, body));
    }
    None
}

// The destination of a rule's value; types rise strictly, so only its first component can be of type 1.
pub fn destination_of(family: Family, value: &[u8]) -> Option<Prefix>
    requires { Fits family }
    ensures { option_map pattern_of result ≡ destination_of family value.now }
{
    let start = family.head;
    let Ok(Some(component)) = rule::next_component(family, value, start, 0) else {
        return None;
    };
    let body = rule::component_body(family, value, start, 0, component.next);
    destination_for(family, component.kind, body)
}
