// The work on a line of the program, on slices: gathering a line from blocks of input, and serving it by what it says. No public call has
// a `requires`: whatever it is lent, it answers (specs/Promise.antt).
#![tactic(auto)]

ghost use Rattle.std.specs.Prelude.{◌≡◌, [], ◌∷◌, ◌+◌, ◌≤◌, length};
ghost use Rattle.rule.specs.Family.{ipv4};
ghost use Rattle.request.specs.Input.{origin_of, announcement_of, policy_of};
ghost use Rattle.flowspec.specs.Announce.{announcing, withdrawing};
ghost use Rattle.flowspec.specs.Told.{announced_told, withdrawn_told};
ghost use Rattle.text.specs.Hex.{octets_in};
ghost use Rattle.line.specs.Line.{most_signs};
ghost use Rattle.lines.specs.Serve.{route_fits, adding, setting_off, Changes, Adds};
ghost use Rattle.lines.specs.Promise.{Gathers, Serves};

use line::Form;
use route::{Origin, Settings};
use rule::AddressFamily;

// The octets that a field of a line spells at most: two digits an octet.
const FIELD_OCTETS: usize = line::MOST_SIGNS / 2;

// The words of a route: address, length, originator and neighbour AS.
const ROUTE_WORDS: usize = 4;

// The most words of routes.
pub const MOST_WORDS: usize = route::MOST_ROUTES * ROUTE_WORDS;

// What serving a line answers: how long the printed text is, and how many words of the routes' buffer are in use.
#[derive(Clone, Copy)]
pub struct Served {
    pub printed: usize,
    pub used: usize,
}

// What gathering from a block answers: how many of its octets were taken, how many the line's buffer holds, and whether the line ended.
#[derive(Clone, Copy)]
pub struct Gathered {
    pub taken: usize,
    pub held: usize,
    pub ended: bool,
}

// ---- Gathering a line ----

// Gathers a line: lays the octets of a block before its first LF behind those that the line's buffer holds, as far as it reaches.
pub fn gather(block: &[u8], line: &mut [u8], held: usize) -> Gathered
    ensures { Gathers block.now line.old held result line.new (block.now ∷ []) }
{
    let size = text::place_of(b'\n', block);
    let start = held.min(line.len());
    let count = size.min(line.len() - start);
    octets::store(line, start, &block[..count]);
    let taken = (size + 1).min(block.len());
    Gathered {
        taken,
        held: start + count,
        ended: size < block.len(),
    }
}

// ---- Serving a line ----

// Whether there is room for a route behind the words in use.
fn route_fits(used: usize, routes: &[u32]) -> bool
    ensures { result ≡ route_fits used routes.now }
{
    if MOST_WORDS - ROUTE_WORDS < used {
        return false;
    }
    used + ROUTE_WORDS <= routes.len()
}

// Adds the route that a line says, or prints that there is no room for it: how long the text is, and how many words are in use.
fn serve_route(
    routes: &mut [u32],
    used: usize,
    address: u32,
    size: u32,
    originator: u32,
    neighbour: u32,
    out: &mut [u8],
) -> Served
    ensures { Adds (adding (address ∷ size ∷ originator ∷ neighbour ∷ []) used routes.old []) out.old result routes.new out.new }
{
    if !route_fits(used, routes) {
        let printed = answers::put_unknown(out);
        return Served { printed, used };
    }
    let second = used + 1;
    let third = used + 2;
    let fourth = used + 3;
    routes[used] = address;
    routes[second] = size;
    routes[third] = originator;
    routes[fourth] = neighbour;
    Served {
        printed: 0,
        used: used + ROUTE_WORDS,
    }
}

// Announces the rule and the communities that two parts of a line spell, and prints the answer: how long the text is.
fn serve_announce(
    rule: &[u8],
    originator: u32,
    communities: &[u8],
    routes: &[u32],
    table: &mut [u8],
    out: &mut [u8],
) -> usize
    requires { (length rule.now ≤ most_signs) × (length communities.now ≤ most_signs) }
    ensures { Changes announced_told (announcing ipv4 (policy_of routes.now setting_off) (announcement_of (octets_in rule.now) (origin_of originator) (octets_in communities.now)) table.old) out.old result table.new out.new }
{
    let mut octets = [0u8; FIELD_OCTETS];
    let size = text::read_octets(rule, &mut octets);
    let mut actions = [0u8; FIELD_OCTETS];
    let count = text::read_octets(communities, &mut actions);
    let settings = Settings {
        allows_no_destination: false,
    };
    let origin = Origin { originator };
    match flowspec::announce(
        AddressFamily::Ipv4,
        table,
        settings,
        routes,
        &octets[..size],
        origin,
        &actions[..count],
    ) {
        Ok(_) => answers::put_answer(out, 0, 0),
        Err(refusal) => answers::put_answer(out, refusal.number(), refusal.place()),
    }
}

// Withdraws the rule that a part of a line spells, and prints the answer: how long the text is.
fn serve_withdraw(rule: &[u8], table: &mut [u8], out: &mut [u8]) -> usize
    requires { length rule.now ≤ most_signs }
    ensures { Changes withdrawn_told (withdrawing ipv4 (octets_in rule.now) table.old) out.old result table.new out.new }
{
    let mut octets = [0u8; FIELD_OCTETS];
    let size = text::read_octets(rule, &mut octets);
    match flowspec::withdraw(AddressFamily::Ipv4, table, &octets[..size]) {
        Ok(()) => answers::put_answer(out, 0, 0),
        Err(refusal) => answers::put_answer(out, refusal.number(), refusal.place()),
    }
}

// Serves a line: does what it says, and prints to the front of a buffer, as far as that reaches.
pub fn serve(
    line: &[u8],
    routes: &mut [u32],
    used: usize,
    table: &mut [u8],
    out: &mut [u8],
) -> Served
    ensures { Serves line.now used routes.old table.old out.old result routes.new table.new out.new (line.now ∷ []) }
{
    let printed = match line::read_line(line) {
        Some(
            Form::Route {
                address,
                size,
                originator,
                neighbour,
            },
        ) => {
            return serve_route(routes, used, address, size, originator, neighbour, out);
        }
        Some(
            Form::Announce {
                rule,
                rule_end,
                originator,
                communities,
            },
        ) => {
            let count = used.min(routes.len());
            serve_announce(
                &line[rule..rule_end],
                originator,
                &line[communities..],
                &routes[..count],
                table,
                out,
            )
        }
        Some(Form::Withdraw(rule)) => serve_withdraw(&line[rule..], table, out),
        Some(Form::Listing) => answers::put_list(out, table),
        None => answers::put_unknown(out),
    };
    Served { printed, used }
}
