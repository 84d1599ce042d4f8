// Runs the vectors (crate `fields` says what a line is): each call has a function of its own and an arm in `answer_call`. A table stands
// until the next line that sets one, and each call on a table is made on it as the calls before left it. Calls are made for
// IPv4 until a line `family` sets another family of addresses. Neither line prints anything.
#![tactic(auto)]

ghost use Rattle.std.specs.Prelude.{◌≤◌, length};
ghost use Rattle.io.specs.Counts.{IsPrefixLen};

use action::Actions;
use fields::{
    FIELD, FIELDS, INPUT, WORDS, print_end, print_first, print_number, print_octets, print_refusal,
    print_valued, put_octets,
};
use lookup::Matched;
use route::{Origin, Settings};
use rule::{AddressFamily, Refusal};
use std::cmp::Ordering;

// Standard input's number and standard output's.
const STDIN_FILENO: i32 = 0;

const STDOUT_FILENO: i32 = 1;

// ---- Reading, writing and comparing ----

// read RULE.
fn answer_read(family: AddressFamily, line: &[u8], octets: &mut [u8]) {
    let end = put_octets(line, 1, octets);
    match flowspec::read_rule(family, &octets[..end]) {
        Ok(value) => print_reading(0, 0, value.start, value.size),
        Err(refusal) => print_reading(refusal.number(), refusal.place(), 0, 0),
    }
    print_end();
}

// Prints a refusal's number and place, and the start and size of a rule's value.
fn print_reading(number: u8, place: usize, start: usize, size: usize) {
    print_valued(number, place, start);
    print_number(size as u64);
}

// write VALUE BUFFER: the answer, then the buffer at exit.
fn answer_write(family: AddressFamily, line: &[u8], octets: &mut [u8]) {
    let mut buffer = io::large_buffer();
    let end = put_octets(line, 1, octets);
    let room = put_octets(line, 2, &mut buffer);
    write_and_print(family, &octets[..end], &mut buffer[..room]);
    print_end();
}

// Writes a rule to a buffer, and prints the answer and the buffer.
fn write_and_print(family: AddressFamily, value: &[u8], buffer: &mut [u8]) {
    match flowspec::write_rule(family, value, buffer) {
        Ok(octets) => print_valued(0, 0, octets),
        Err(refusal) => print_valued(refusal.number(), refusal.place(), 0),
    }
    print_octets(buffer);
}

// compare RULE RULE.
fn answer_compare(family: AddressFamily, line: &[u8], octets: &mut [u8]) {
    let rules = fields::put_two(line, 1, 2, octets);
    compare_and_print(family, octets, rules.middle, rules.end);
    print_end();
}

// Compares the rules that stand before and behind a place, and prints the answer.
fn compare_and_print(family: AddressFamily, octets: &[u8], middle: usize, end: usize)
    requires { (middle ≤ end) × (end ≤ length octets.now) }
{
    match flowspec::compare_rules(family, &octets[0..middle], &octets[middle..end]) {
        Ok(Ordering::Less) => print_valued(0, 0, 1),
        Ok(Ordering::Greater) => print_valued(0, 0, 2),
        Ok(Ordering::Equal) => print_valued(0, 0, 3),
        Err(refusal) => print_valued(refusal.number(), refusal.place(), 0),
    }
}

// ---- Actions ----

// actions COMMUNITIES: the number, and then the actions, each 0 where the communities are refused.
fn answer_actions(line: &[u8], octets: &mut [u8]) {
    let end = put_octets(line, 1, octets);
    match flowspec::read_actions(&octets[..end]) {
        Some(actions) => {
            print_first(0);
            fields::print_actions(actions);
        }
        None => {
            print_first(Refusal::UnsoundActions.number() as u64);
            fields::print_actions(action::no_actions());
        }
    }
    print_end();
}

// ---- Feasibility ----

// The settings of a line that judges a rule: its first field is 00 or 01.
fn settings_in(line: &[u8]) -> Settings {
    let allows_no_destination = fields::number_of(line, 1) != 0;
    Settings {
        allows_no_destination,
    }
}

// The origin of a rule that a line judges: its fourth field.
fn origin_in(line: &[u8]) -> Origin {
    let originator = fields::number_of(line, 4);
    Origin { originator }
}

// feasible SETTING ROUTES RULE ORIGINATOR: the setting is 00 or 01, and a route is four words, of IPv6 seven.
fn answer_feasible(family: AddressFamily, line: &[u8], octets: &mut [u8], words: &mut [u32]) {
    let settings = settings_in(line);
    let count = fields::put_words(line, 2, octets, words);
    let end = put_octets(line, 3, octets);
    let origin = origin_in(line);
    match flowspec::judge_rule(family, settings, &words[..count], &octets[..end], origin) {
        Ok(()) => print_refusal(0, 0),
        Err(refusal) => print_refusal(refusal.number(), refusal.place()),
    }
    print_end();
}

// ---- Matching ----

// match VALUE PACKET.
fn answer_match(family: AddressFamily, line: &[u8], octets: &mut [u8]) {
    let both = fields::put_two(line, 1, 2, octets);
    check_and_match(family, octets, both.middle, both.end);
    print_end();
}

// Prints why the value that stands before a place is refused, or whether it matches the packet that stands behind it.
fn check_and_match(family: AddressFamily, octets: &[u8], middle: usize, end: usize)
    requires { (middle ≤ end) × (end ≤ length octets.now) }
{
    match rule::check_value(rule::family_of(family), &octets[0..middle]) {
        Err(refusal) => {
            io::write_all(STDOUT_FILENO, b"value\t");
            print_refusal(refusal.number(), refusal.place());
        }
        Ok(()) => print_first(verdict_of(family, &octets[0..middle], &octets[middle..end])),
    }
}

// 1 where an accepted value matches a packet, 0 where it does not, and 12 where the packet is unusable.
fn verdict_of(family: AddressFamily, value: &[u8], packet: &[u8]) -> u64 {
    let family = rule::family_of(family);
    match packet::packet_of(family, packet) {
        None => Refusal::UnusablePacket.number() as u64,
        Some(opening) => matching::matches_rule(family, value, opening) as u64,
    }
}

// ---- Changing a table ----

// Prints a table's octets; of one that has over 400 the first 200.
fn print_table(table: &[u8]) {
    if table.len() <= 400 {
        print_octets(table);
        return;
    }
    let opening_of = io::count(200, table);
    print_octets(&table[..opening_of]);
}

// Prints the number and the place of a withdrawal's answer, and the table at exit.
fn print_withdrawn(number: u8, place: usize, table: &[u8]) {
    print_refusal(number, place);
    print_table(table);
    print_end();
}

// Prints the number, the place and the notes of an announcement's answer, and the table at exit.
fn print_announced(number: u8, place: usize, notes: u64, table: &[u8]) {
    print_refusal(number, place);
    print_number(notes);
    print_table(table);
    print_end();
}

// announce SETTING ROUTES RULE ORIGINATOR COMMUNITIES: the setting is 00 or 01, and a route is four words, of IPv6 seven.
fn answer_announce(
    family: AddressFamily,
    line: &[u8],
    octets: &mut [u8],
    words: &mut [u32],
    table: &mut [u8],
) {
    let count = fields::put_words(line, 2, octets, words);
    let both = fields::put_two(line, 3, 5, octets);
    announce(
        family,
        line,
        &words[..count],
        octets,
        both.middle,
        both.end,
        table,
    );
}

// Announces the rule that stands before a place with the communities that stand behind it, and prints the answer.
fn announce(
    family: AddressFamily,
    line: &[u8],
    routes: &[u32],
    octets: &[u8],
    middle: usize,
    end: usize,
    table: &mut [u8],
)
    requires { (middle ≤ end) × (end ≤ length octets.now) }
{
    let settings = settings_in(line);
    let origin = origin_in(line);
    match flowspec::announce(
        family,
        table,
        settings,
        routes,
        &octets[0..middle],
        origin,
        &octets[middle..end],
    ) {
        Ok(notes) => print_announced(0, 0, notes, table),
        Err(refusal) => print_announced(refusal.number(), refusal.place(), 0, table),
    }
}

// withdraw RULE.
fn answer_withdraw(family: AddressFamily, line: &[u8], octets: &mut [u8], table: &mut [u8]) {
    let end = put_octets(line, 1, octets);
    match flowspec::withdraw(family, table, &octets[..end]) {
        Ok(()) => print_withdrawn(0, 0, table),
        Err(refusal) => print_withdrawn(refusal.number(), refusal.place(), table),
    }
}

// ---- Looking up ----

// Prints a refusal's number and place, how many rules were collected, and their merged actions.
fn print_lookup(number: u8, place: usize, count: usize, actions: Actions) {
    print_valued(number, place, count);
    fields::print_actions(actions);
    print_end();
}

// Prints a verdict: where nothing matches, no rule and no actions.
fn print_verdict(verdict: Option<Matched>) {
    match verdict {
        None => print_lookup(0, 0, 0, action::no_actions()),
        Some(matched) => print_lookup(0, 0, matched.count, matched.actions),
    }
}

// lookup PACKET.
fn answer_lookup(family: AddressFamily, line: &[u8], octets: &mut [u8], table: &[u8]) {
    let end = put_octets(line, 1, octets);
    match flowspec::lookup(family, table, &octets[..end]) {
        Ok(verdict) => print_verdict(verdict),
        Err(refusal) => {
            print_lookup(refusal.number(), refusal.place(), 0, action::no_actions());
        }
    }
}

// first PACKET: how many octets the first match's record has, and the record.
fn answer_first(family: AddressFamily, line: &[u8], octets: &mut [u8], table: &[u8]) {
    let end = put_octets(line, 1, octets);
    let part = flowspec::first_match(family, table, &octets[..end]);
    print_first(part.len() as u64);
    print_octets(part);
    print_end();
}

// ---- Lines ----

// Answers a call, the last ones on a table: an arm for each, by the first two letters of its name.
fn answer_call(
    family: AddressFamily,
    line: &[u8],
    octets: &mut [u8],
    words: &mut [u32],
    table: &mut [u8],
) {
    match line {
        [b'r', b'e', ..] => answer_read(family, line, octets),
        [b'w', b'r', ..] => answer_write(family, line, octets),
        [b'c', b'o', ..] => answer_compare(family, line, octets),
        [b'a', b'c', ..] => answer_actions(line, octets),
        [b'f', b'e', ..] => answer_feasible(family, line, octets, words),
        [b'm', b'a', ..] => answer_match(family, line, octets),
        [b'a', b'n', ..] => answer_announce(family, line, octets, words, table),
        [b'w', b'i', ..] => answer_withdraw(family, line, octets, table),
        [b'l', b'o', ..] => answer_lookup(family, line, octets, table),
        [b'f', b'i', ..] => answer_first(family, line, octets, table),
        _ => return,
    }
}

// The family of addresses from a line on, which the line `family OCTET` sets: 06 is IPv6, and any other octet IPv4.
fn family_after(line: &[u8], family: AddressFamily) -> AddressFamily {
    let [b'f', b'a', ..] = line else {
        return family;
    };
    if fields::octet_of(line, 1) == 6 {
        return AddressFamily::Ipv6;
    }
    AddressFamily::Ipv4
}

// Answers a line on the table in the first octets of a buffer, which the line `table OCTETS` sets: how many they are then.
fn answer(
    family: AddressFamily,
    line: &[u8],
    octets: &mut [u8],
    words: &mut [u32],
    buffer: &mut [u8],
    size: usize,
) -> usize
    requires { IsPrefixLen size buffer.old }
    ensures { IsPrefixLen result buffer.new }
{
    if let [b't', b'a', ..] = line {
        return put_octets(line, 1, buffer);
    }
    answer_call(family, line, octets, words, &mut buffer[..size]);
    size
}

// Answers every line of the input.
fn answer_all(input: &[u8], octets: &mut [u8], words: &mut [u32], buffer: &mut [u8]) {
    let mut at = 0;
    let mut size = 0;
    let mut family = AddressFamily::Ipv4;
    while at < input.len() {
        let line = fields::call_at(input, at);
        family = family_after(line, family);
        size = answer(family, line, octets, words, buffer, size);
        at = fields::line_after(input, at);
    }
}

// Reads the input and answers its lines.
fn run(input: &mut [u8], octets: &mut [u8], words: &mut [u32], buffer: &mut [u8]) {
    let end = io::read_full(STDIN_FILENO, input);
    answer_all(&input[..end], octets, words, buffer);
}

// The buffers that the program works in.
fn main() {
    let mut input = [0u8; INPUT];
    let mut octets = [0u8; FIELDS];
    let mut words = [0u32; WORDS];
    let mut buffer = [0u8; FIELD];
    run(&mut input, &mut octets, &mut words, &mut buffer);
}
