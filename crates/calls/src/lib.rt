// The public calls in words, for C and Rust and for every family of addresses: numbers and slices only. Each call returns one word
// (specs/Word.antt), has no `requires`, and promises in specs/Promise.antt what the door's call does.
#![tactic(auto)]

ghost use Rattle.std.specs.Prelude.{◌≡◌, ◌≤◌};
ghost use Rattle.rule.specs.Family.{family_of};
ghost use Rattle.rule.specs.Value.{most_value};
ghost use Rattle.rule.specs.Refusal.{number_of, place_of};
ghost use Rattle.flowspec.specs.Told.{verdict_told};
ghost use Rattle.request.specs.Input.{origin_of};
ghost use Rattle.calls.specs.Word.{word, settings_in};
ghost use Rattle.calls.specs.Promise.{ReadCall, WriteCall, CompareCall, FeasibleCall, ActionsCall, AnnounceCall, WithdrawCall, ReachCall, UnreachCall, LookupCall, FirstMatchCall};

use lookup::Matched;
use route::{Origin, Settings};
use rule::{AddressFamily, Refusal};
use std::cmp::Ordering;

// The word of a refusal: its number in the low 32 bits, its place in the high 32.
fn word_of(refusal: Refusal) -> u64
    requires { place_of refusal ≤ most_value }
    ensures { result ≡ word (number_of refusal) (place_of refusal) }
{
    refusal.number() as u64 + refusal.place() as u64 * 0x1_0000_0000
}

// The settings that the header's `allow_no_destination` says: 0 is off and any other number on.
fn settings_in(allow: u32) -> Settings
    ensures { result ≡ settings_in allow }
{
    Settings {
        allows_no_destination: allow != 0,
    }
}

// The words of a verdict: the count and the merged actions' values, all 0 where no rule matches.
fn words_of(verdict: Option<Matched>) -> [u64; 7]
    ensures { result ≡ (verdict_told verdict).values }
{
    let Some(matched) = verdict else {
        return [0; 7];
    };
    let values = entry::values_of(matched.actions);
    [
        matched.count as u64,
        values[0],
        values[1],
        values[2],
        values[3],
        values[4],
        values[5],
    ]
}

// Reads one rule. out: where its value starts, and its length.
pub fn read(family: AddressFamily, rule: &[u8], out: &mut [u64; 2]) -> u64
    ensures { ReadCall (family_of family)
        (record { rule = rule.now; out = out.old })
        result
        (record { rule = rule.now; out = out.new }) }
{
    match flowspec::read_rule(family, rule) {
        Err(refusal) => word_of(refusal),
        Ok(value) => {
            *out = [value.start as u64, value.size as u64];
            0
        }
    }
}

// Writes one rule from its value to the front of a buffer. out: how many octets were written.
pub fn write(family: AddressFamily, value: &[u8], buf: &mut [u8], out: &mut [u64; 1]) -> u64
    ensures { WriteCall (family_of family)
        (record { value = value.now; buf = buf.old; out = out.old })
        result
        (record { value = value.now; buf = buf.new; out = out.new }) }
{
    match flowspec::write_rule(family, value, buf) {
        Err(refusal) => word_of(refusal),
        Ok(octets) => {
            *out = [octets as u64];
            0
        }
    }
}

// Compares two rules by their precedence. out: 1 where `a` comes first, 2 where `b` does, 3 where they are the same rule.
pub fn compare(family: AddressFamily, a: &[u8], b: &[u8], out: &mut [u64; 1]) -> u64
    ensures { CompareCall (family_of family)
        (record { a = a.now; b = b.now; out = out.old })
        result
        (record { a = a.now; b = b.now; out = out.new }) }
{
    match flowspec::compare_rules(family, a, b) {
        Err(refusal) => word_of(refusal),
        Ok(Ordering::Less) => {
            *out = [1];
            0
        }
        Ok(Ordering::Greater) => {
            *out = [2];
            0
        }
        Ok(Ordering::Equal) => {
            *out = [3];
            0
        }
    }
}

// Judges whether a rule is feasible for an originator by the lent routes; `allow_no_destination` is on where it is not 0.
pub fn feasible(
    family: AddressFamily,
    routes: &[u32],
    allow_no_destination: u32,
    rule: &[u8],
    originator: u32,
) -> u64
    ensures { FeasibleCall (family_of family) (settings_in allow_no_destination) (origin_of originator)
        (record { routes = routes.now; rule = rule.now })
        result
        (record { routes = routes.now; rule = rule.now }) }
{
    let settings = settings_in(allow_no_destination);
    let origin = Origin { originator };
    match flowspec::judge_rule(family, settings, routes, rule, origin) {
        Err(refusal) => word_of(refusal),
        Ok(()) => 0,
    }
}

// Reads the filtering actions of a rule's communities. out: flags, DSCP, byte rate, packet rate, redirect, notes.
pub fn actions(communities: &[u8], out: &mut [u64; 6]) -> u64
    ensures { ActionsCall
        (record { communities = communities.now; out = out.old })
        result
        (record { communities = communities.now; out = out.new }) }
{
    match flowspec::read_actions(communities) {
        None => word_of(Refusal::UnsoundActions),
        Some(actions) => {
            *out = entry::values_of(actions);
            0
        }
    }
}

// Announces a rule with its actions to a table; `allow_no_destination` is on where it is not 0. out: the notes.
pub fn announce(
    family: AddressFamily,
    table: &mut [u8],
    routes: &[u32],
    allow_no_destination: u32,
    rule: &[u8],
    originator: u32,
    communities: &[u8],
    out: &mut [u64; 1],
) -> u64
    ensures { AnnounceCall (family_of family) (settings_in allow_no_destination) (origin_of originator)
        (record {
          table = table.old;
          routes = routes.now;
          rule = rule.now;
          communities = communities.now;
          out = out.old;
        })
        result
        (record {
          table = table.new;
          routes = routes.now;
          rule = rule.now;
          communities = communities.now;
          out = out.new;
        }) }
{
    let settings = settings_in(allow_no_destination);
    let origin = Origin { originator };
    match flowspec::announce(family, table, settings, routes, rule, origin, communities) {
        Err(refusal) => word_of(refusal),
        Ok(notes) => {
            *out = [notes];
            0
        }
    }
}

// Withdraws a rule from a table.
pub fn withdraw(family: AddressFamily, table: &mut [u8], rule: &[u8]) -> u64
    ensures { WithdrawCall (family_of family)
        (record { table = table.old; rule = rule.now })
        result
        (record { table = table.new; rule = rule.now }) }
{
    match flowspec::withdraw(family, table, rule) {
        Err(refusal) => word_of(refusal),
        Ok(_) => 0,
    }
}

// Announces the rules of an MP_REACH_NLRI attribute to a table; `allow_no_destination` is on where it is not 0. answers: a number for each
// rule. out: how many rules there are, and the notes.
pub fn reach(
    family: AddressFamily,
    table: &mut [u8],
    routes: &[u32],
    allow_no_destination: u32,
    attribute: &[u8],
    originator: u32,
    communities: &[u8],
    answers: &mut [u32],
    out: &mut [u64; 2],
) -> u64
    ensures { ReachCall (family_of family) (settings_in allow_no_destination) (origin_of originator)
        (record {
          table = table.old;
          routes = routes.now;
          attribute = attribute.now;
          communities = communities.now;
          answers = answers.old;
          out = out.old;
        })
        result
        (record {
          table = table.new;
          routes = routes.now;
          attribute = attribute.now;
          communities = communities.now;
          answers = answers.new;
          out = out.new;
        }) }
{
    let settings = settings_in(allow_no_destination);
    let origin = Origin { originator };
    match update::reach(
        family,
        table,
        settings,
        routes,
        attribute,
        origin,
        communities,
        answers,
    ) {
        Err(refusal) => word_of(refusal),
        Ok(reached) => {
            *out = [reached.count as u64, reached.notes];
            0
        }
    }
}

// Withdraws the rules of an MP_UNREACH_NLRI attribute from a table. answers: a number for each rule. out: how many rules there are.
pub fn unreach(
    family: AddressFamily,
    table: &mut [u8],
    attribute: &[u8],
    answers: &mut [u32],
    out: &mut [u64; 1],
) -> u64
    ensures { UnreachCall (family_of family)
        (record {
          table = table.old;
          attribute = attribute.now;
          answers = answers.old;
          out = out.old;
        })
        result
        (record {
          table = table.new;
          attribute = attribute.now;
          answers = answers.new;
          out = out.new;
        }) }
{
    match update::unreach(family, table, attribute, answers) {
        Err(refusal) => word_of(refusal),
        Ok(count) => {
            *out = [count as u64];
            0
        }
    }
}

// Looks a packet up in a table. out: the count, 0 where unmatched, and the merged actions' values, 0 where unmatched.
pub fn lookup(family: AddressFamily, table: &[u8], packet: &[u8], out: &mut [u64; 7]) -> u64
    ensures { LookupCall (family_of family)
        (record { table = table.now; packet = packet.now; out = out.old })
        result
        (record { table = table.now; packet = packet.now; out = out.new }) }
{
    match flowspec::lookup(family, table, packet) {
        Err(refusal) => word_of(refusal),
        Ok(verdict) => {
            *out = words_of(verdict);
            0
        }
    }
}

// Locates the first match's record. out: its start in the table and its length, 0 and 0 where nothing matches.
pub fn first_match(family: AddressFamily, table: &[u8], packet: &[u8], out: &mut [u64; 2]) -> u64
    ensures { FirstMatchCall (family_of family)
        (record { table = table.now; packet = packet.now; out = out.old })
        result
        (record { table = table.now; packet = packet.now; out = out.new }) }
{
    match flowspec::first_match_place(family, table, packet) {
        Err(refusal) => word_of(refusal),
        Ok(found) => {
            let size = found.end - found.start;
            *out = [found.start as u64, size as u64];
            0
        }
    }
}
