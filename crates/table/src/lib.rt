// The table: records in a lent buffer (01, "The table"). Its octets are gone through record by record by `record_at`.
#![tactic(auto)]

ghost use Rattle.std.specs.Prelude.{◌≡◌, ◌≤◌, length, true};
ghost use Rattle.rule.specs.Family.{Fits};
ghost use Rattle.rule.specs.Value.{check_value};
ghost use Rattle.sorted.specs.History.{announce, withdraw};
ghost use Rattle.spelling.specs.Plain.{plain};
ghost use Rattle.order.specs.Key.{keys_of};
ghost use Rattle.entry.specs.Entry.{entry_for, plain_value};
ghost use Rattle.table.specs.Walk.{record_at, entries};
ghost use Rattle.table.specs.Sound.{sound_table, soundness};
ghost use Rattle.table.specs.Follow.{Adjacent, follows_at};
ghost use Rattle.table.specs.Place.{place_in};
ghost use Rattle.table.specs.Change.{changed, Ready, Leaves};

use entry::Head;
use rule::{Family, Refusal};
use std::cmp::Ordering;

// The octets a table's buffer has at most.
pub const MOST_OCTETS: usize = 65536;

// What stands at a place of a table: nothing more, or a record by the place behind it; a table where neither stands is unsound.
pub fn record_at(table: &[u8], at: usize) -> Result<Option<usize>, Refusal>
    requires { at ≤ length table.now }
    ensures { result ≡ record_at table.now at }
{
    let size = octets::number_at(entry::LENGTH_WIDTH, table, at) as usize;
    if size == 0 {
        if octets::is_zero(table, at) {
            return Ok(None);
        }
        return Err(Refusal::UnsoundTable);
    }
    let cost = entry::HEAD_COST + size;
    if table.len() - at < cost {
        return Err(Refusal::UnsoundTable);
    }
    Ok(Some(at + cost))
}

// Where a rule stands in a table: its record's start and the place behind it, equal where the rule is not held.
#[derive(Clone, Copy)]
pub struct Place {
    pub start: usize,
    pub end: usize,
}

// The place of a rule, by its plain value, in a sound table.
pub fn find(family: Family, table: &[u8], value: &[u8]) -> Place
    requires { Fits family × ((sound_table family table.now ≡ true) × (plain_value family value.now ≡ true)) }
    ensures { result ≡ place_in family (keys_of family value.now) 0 (entries table.now) }
{
    let mut at: usize = 0;
    while let Ok(Some(behind)) = record_at(table, at) {
        let start = at + entry::HEAD_COST;
        match order::compare_plain(family, value, &table[start..behind]) {
            Ordering::Less => {
                return Place { start: at, end: at };
            }
            Ordering::Equal => {
                return Place {
                    start: at,
                    end: behind,
                };
            }
            Ordering::Greater => {
                at = behind;
            }
        }
    }
    Place { start: at, end: at }
}

// Whether the record at a place comes after the one before it; the first record comes after none.
fn follows(family: Family, table: &[u8], previous: usize, at: usize, next: usize) -> bool
    requires { Fits family × Adjacent table.now previous at next }
    ensures { result ≡ follows_at family table.now previous at next }
{
    if at == 0 {
        return true;
    }
    let start = previous + entry::HEAD_COST;
    let begin = at + entry::HEAD_COST;
    match order::compare_plain(family, &table[start..at], &table[begin..next]) {
        Ordering::Less => true,
        Ordering::Greater => false,
        Ordering::Equal => false,
    }
}

// How many octets the records of a sound table take: each record is looked at once, beside the one before it, and then the zeros.
pub fn sound_table(family: Family, table: &[u8]) -> Result<usize, Refusal>
    requires { Fits family }
    ensures { result ≡ soundness family table.now }
{
    if MOST_OCTETS < table.len() {
        return Err(Refusal::UnsoundTable);
    }
    let mut previous: usize = 0;
    let mut at: usize = 0;
    while let Some(next) = record_at(table, at)? {
        if !entry::is_good_record(family, &table[at..next]) {
            return Err(Refusal::UnsoundTable);
        }
        if !follows(family, table, previous, at, next) {
            return Err(Refusal::UnsoundTable);
        }
        previous = at;
        at = next;
    }
    Ok(at)
}

// What a change of a table answers: that it is done, or its refusal, and how many octets the records take then.
#[derive(Clone, Copy)]
pub struct Answer {
    pub outcome: Result<(), Refusal>,
    pub used: usize,
}

// Takes a rule, by its plain value, out of a sound table whose records take `used` octets; one that is not held is 14.
pub fn remove_rule(family: Family, table: &mut [u8], used: usize, value: &[u8]) -> Answer
    requires { Ready family table.old used × (plain_value family value.now ≡ true) }
    ensures { Leaves (changed family table.old (withdraw (keys_of family value.now))) result table.new }
{
    let place = find(family, table, value);
    let start = place.start;
    let size = place.end - start;
    if size == 0 {
        return Answer {
            outcome: Err(Refusal::NotHeld),
            used,
        };
    }
    octets::cut_out(&mut table[..used], start, size);
    Answer {
        outcome: Ok(()),
        used: used - size,
    }
}

// Puts a rule, by its plain value, under its head into a sound table whose records take `used` octets; no room is 11, and a held rule,
// whose record has the same length, is written over where it stands.
pub fn insert_rule(
    family: Family,
    table: &mut [u8],
    used: usize,
    head: Head,
    value: &[u8],
) -> Answer
    requires { Ready family table.old used × (plain_value family value.now ≡ true) }
    ensures { Leaves (changed family table.old (announce (entry_for head value.now) true)) result table.new }
{
    let place = find(family, table, value);
    let start = place.start;
    let held = place.end - start;
    let size = entry::HEAD_COST + value.len();
    let after = used - held + size;
    if table.len() < after {
        return Answer {
            outcome: Err(Refusal::NoRoom),
            used,
        };
    }
    if held == 0 {
        octets::open_gap(&mut table[..after], start, size);
    }
    entry::write_record(table, start, head, value);
    Answer {
        outcome: Ok(()),
        used: after,
    }
}

// Announces an accepted value, feasible or not, under its head to a sound table whose records take `used` octets; an infeasible one is 8.
pub fn announce_value(
    family: Family,
    table: &mut [u8],
    used: usize,
    head: Head,
    feasible: bool,
    value: &[u8],
) -> Answer
    requires { Ready family table.old used × (check_value family value.now ≡ Ok tt) }
    ensures { Leaves (changed family table.old (announce (entry_for head (plain family value.now)) feasible)) result table.new }
{
    let size = value.len();
    let mut work = [0u8; spelling::WORKING];
    spelling::fill_plain(family, value, &mut work);
    if feasible {
        return insert_rule(family, table, used, head, &work[..size]);
    }
    let removed = remove_rule(family, table, used, &work[..size]);
    Answer {
        outcome: Err(Refusal::Infeasible),
        used: removed.used,
    }
}

// Withdraws an accepted value from a sound table whose records take `used` octets. Its working array is to stand in no caller's frame, where
// it would lie beside that of an announcement.
#[inline(never)]
pub fn withdraw_value(family: Family, table: &mut [u8], used: usize, value: &[u8]) -> Answer
    requires { Ready family table.old used × (check_value family value.now ≡ Ok tt) }
    ensures { Leaves (changed family table.old (withdraw (keys_of family (plain family value.now)))) result table.new }
{
    let size = value.len();
    let mut work = [0u8; spelling::WORKING];
    spelling::fill_plain(family, value, &mut work);
    remove_rule(family, table, used, &work[..size])
}
