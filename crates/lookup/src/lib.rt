// Looking a packet up in a table: what a lookup begins with, the verdict on the packet, and where the first match's record stands (01,
// "Matching and lookup").
#![tactic(auto)]

ghost use Rattle.std.specs.Prelude.{◌≡◌, ◌≤◌, length};
ghost use Rattle.octets.specs.Test.{same_list};
ghost use Rattle.rule.specs.Family.{Fits};
ghost use Rattle.rule.specs.Value.{head_of};
ghost use Rattle.entry.specs.Record.{head_cost, entry_of};
ghost use Rattle.table.specs.Walk.{entries};
ghost use Rattle.lookup.specs.Opening.{opening};
ghost use Rattle.lookup.specs.Lookup.{hit, hit_of, verdict_of, verdict_for, first_place};

use action::Actions;
use packet::Packet;
use rule::{Family, Refusal};
use table::{Place, record_at};

// The rules that a packet matches: their merged actions, and how many were collected.
#[derive(Clone, Copy)]
pub struct Matched {
    pub actions: Actions,
    pub count: usize,
}

// What one record says of a packet: it misses; it matches and the walk goes on (T); it matches and the walk stops.
#[derive(Clone, Copy)]
pub enum Hit {
    Missed,
    GoesOn(Actions),
    Stops(Actions),
}

// What a packet shows that is to be looked up in a table, once the table is checked.
pub fn open_lookup(family: Family, table: &[u8], packet: &[u8]) -> Result<Packet, Refusal>
    requires { Fits family }
    ensures { result ≡ opening family table.now packet.now }
{
    table::sound_table(family, table)?;
    match packet::packet_of(family, packet) {
        Some(shown) => Ok(shown),
        None => Err(Refusal::UnusablePacket),
    }
}

// Whether a value's head is the given one.
fn has_head(family: Family, head: &[u8], value: &[u8]) -> bool
    ensures { result ≡ same_list (head_of family value.now) head.now }
{
    let size = family.head;
    if value.len() < size {
        return octets::same_octets(value, head);
    }
    octets::same_octets(&value[..size], head)
}

// Whether a packet, looked up under a head, matches a record's rule.
fn hits_record(family: Family, head: &[u8], held: &[u8], packet: Packet) -> bool
    requires { Fits family × (head_cost ≤ length held.now) }
    ensures { result ≡ hit family head.now packet (entry_of held.now) }
{
    let value = &held[entry::HEAD_COST..];
    if !has_head(family, head, value) {
        return false;
    }
    matching::matches_rule(family, value, packet)
}

// What a record says of a packet, looked up under a head.
fn hit_of_record(family: Family, head: &[u8], held: &[u8], packet: Packet) -> Hit
    requires { Fits family × (head_cost ≤ length held.now) }
    ensures { result ≡ hit_of (hit family head.now packet (entry_of held.now)) (entry_of held.now).actions }
{
    if !hits_record(family, head, held, packet) {
        return Hit::Missed;
    }
    let actions = entry::record_actions(held);
    if actions.onward {
        return Hit::GoesOn(actions);
    }
    Hit::Stops(actions)
}

// The verdict on merged actions and a count of rules: none where no rule was collected.
fn verdict_of(actions: Actions, count: usize) -> Option<Matched>
    ensures { result ≡ verdict_of actions count }
{
    if count == 0 {
        return None;
    }
    Some(Matched { actions, count })
}

// Looks a packet up in a table, under a head: goes down the records, collects those that match, and stops after one without T.
pub fn look_up(family: Family, head: &[u8], table: &[u8], packet: Packet) -> Option<Matched>
    requires { Fits family }
    ensures { result ≡ verdict_for family head.now packet (entries table.now) }
{
    let mut at: usize = 0;
    let mut count: usize = 0;
    let mut actions = action::no_actions();
    loop {
        let Ok(Some(next)) = record_at(table, at) else {
            break verdict_of(actions, count);
        };
        match hit_of_record(family, head, &table[at..next], packet) {
            Hit::Missed => {
                at = next;
            }
            Hit::GoesOn(more) => {
                actions = action::merge(actions, more);
                count += 1;
                at = next;
            }
            Hit::Stops(more) => {
                break verdict_of(action::merge(actions, more), count + 1);
            }
        }
    }
}

// Where the first match's record stands in a table, for a packet looked up under a head; 0 and 0 where nothing matches.
pub fn first_place(family: Family, head: &[u8], table: &[u8], packet: Packet) -> Place
    requires { Fits family }
    ensures { (result ≡ first_place (hit family head.now packet) 0 (entries table.now)) × ((result.start ≤ result.end) × (result.end ≤ length table.now)) }
{
    let mut at: usize = 0;
    while let Ok(Some(next)) = record_at(table, at) {
        if hits_record(family, head, &table[at..next], packet) {
            return Place {
                start: at,
                end: next,
            };
        }
        at = next;
    }
    Place { start: 0, end: 0 }
}
