// What the line program prints: the answer of a call, or the table record by record. Every function prints to the front of a buffer, or
// from a place on in it, as far as that reaches.
#![tactic(auto)]

ghost use Rattle.std.specs.Prelude.{◌≡◌, ◌≤◌, length};
ghost use Rattle.table.specs.Sound.{most_octets};
ghost use Rattle.table.specs.Walk.{records};
ghost use Rattle.text.specs.Print.{Printed};
ghost use Rattle.answers.specs.Answer.{place_text, answer_text, unknown_text, count_text, rule_text, rules_text, list_text, most_answer, most_text, Answered};

use rule::AddressFamily;

// No answer has more octets than these, which `most_answer` in specs/Answer.antt counts.
pub const MOST_ANSWER: usize = 32;

// No record has fewer octets than these: a head, and a value of one octet.
pub const LEAST_RECORD: usize = entry::HEAD_COST + 1;

// ---- Printing an answer ----

// Prints the place of a refusal from 3 to 7 behind the answer's number, which ends within what an answer has: where to go on.
fn put_place(out: &mut [u8], at: usize, number: u8, place: usize) -> usize
    requires { at ≤ most_answer }
    ensures { Printed out.old at (place_text number place) out.new result }
{
    if number < 3 {
        return at;
    }
    if 7 < number {
        return at;
    }
    let next = text::put_octets(out, at, b"\t");
    text::put_decimal(out, next, place as u64)
}

// Prints the answer of a call: how long the text is.
pub fn put_answer(out: &mut [u8], number: u8, place: usize) -> usize
    ensures { Answered most_answer out.old (answer_text number place) out.new result }
{
    let start = text::put_octets(out, 0, b"answer\t");
    let end = text::put_decimal(out, start, number as u64);
    let stop = put_place(out, end, number, place);
    text::put_octets(out, stop, b"\n")
}

// Prints the answer to a line of another form: how long the text is.
pub fn put_unknown(out: &mut [u8]) -> usize
    ensures { Answered most_answer out.old unknown_text out.new result }
{
    text::put_octets(out, 0, b"answer\t?\n")
}

// ---- Listing the table ----

// How many records a table has.
fn count_records(table: &[u8]) -> usize
    ensures { (result ≡ length (records table.now)) × (result ≤ length table.now) }
{
    let mut at: usize = 0;
    let mut count: usize = 0;
    loop {
        let Ok(Some(next)) = table::record_at(table, at) else {
            return count;
        };
        count += 1;
        at = next;
    }
}

// Prints how many records there are: how long the text is.
fn put_count(out: &mut [u8], count: usize) -> usize
    ensures { Printed out.old 0 (count_text count) out.new result }
{
    let start = text::put_octets(out, 0, b"rules\t");
    let end = text::put_decimal(out, start, count as u64);
    text::put_octets(out, end, b"\n")
}

// Prints a record, which is no longer than a table, from a place on in a list, which is no longer than that of the longest table: where
// to go on.
fn put_record(out: &mut [u8], at: usize, held: &[u8]) -> usize
    requires { (at ≤ most_text most_octets) × (length held.now ≤ most_octets) }
    ensures { Printed out.old at (rule_text held.now) out.new result }
{
    let start = text::put_octets(out, at, b"rule\t");
    let end = text::put_hex(out, start, held);
    text::put_octets(out, end, b"\n")
}

// Prints the records of a table behind their count, whose line has no more octets than an answer: where to go on.
fn put_records(table: &[u8], out: &mut [u8], at: usize) -> usize
    requires { (length table.now ≤ most_octets) × (at ≤ most_answer) }
    ensures { Printed out.old at (rules_text (records table.now)) out.new result }
{
    let mut place: usize = 0;
    let mut end = at;
    loop {
        let Ok(Some(next)) = table::record_at(table, place) else {
            return end;
        };
        end = put_record(out, end, &table[place..next]);
        place = next;
    }
}

// Prints the table: how long the text is.
pub fn put_list(out: &mut [u8], table: &[u8]) -> usize
    ensures { Answered (most_text (length table.now)) out.old (list_text table.now) out.new result }
{
    match table::sound_table(rule::family_of(AddressFamily::Ipv4), table) {
        Err(refusal) => put_answer(out, refusal.number(), refusal.place()),
        Ok(_) => {
            let count = count_records(table);
            let start = put_count(out, count);
            put_records(table, out, start)
        }
    }
}
