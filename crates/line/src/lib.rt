// What a line of the program says (01, "A program reads lines with fields parted by tabs"), by numbers and by places in it. `read_line`
// answers whatever octets it is lent.
#![tactic(auto)]

ghost use Rattle.std.specs.Prelude.{◌≡◌, ◌∷◌};
ghost use Rattle.std.specs.Fn.{FnReturnsAt};
ghost use Rattle.text.specs.Spelling.{quoted};
ghost use Rattle.line.specs.Line.{is_address, is_rule, said, line_of};
ghost use Rattle.line.specs.Form.{behind, FieldBy, NumberSays, Says};

use std::ops::Range;

// The octets a line has at most.
pub const MOST_SIGNS: usize = 16384;

// What a line says, by numbers and by places in it; the communities of an announcement and the rule of a withdrawal end with the line.
#[derive(Clone, Copy)]
pub enum Form {
    Route {
        address: u32,
        size: u32,
        originator: u32,
        neighbour: u32,
    },
    Announce {
        rule: usize,
        rule_end: usize,
        originator: u32,
        communities: usize,
    },
    Withdraw(usize),
    Listing,
}

// Whether a field is an address: exactly eight hex digits.
fn is_address(field: &[u8]) -> bool
    ensures { result ≡ is_address field.now }
{
    field.len() == 8 && text::are_octets(field)
}

// Whether a field is a rule: octets in hex, and not empty.
fn is_rule(field: &[u8]) -> bool
    ensures { result ≡ is_rule field.now }
{
    !field.is_empty() && text::are_octets(field)
}

// The places of the field of a line behind the one that ends at a place, if it passes a test.
fn field_behind<F: Fn(&[u8]) -> bool>(line: &[u8], end: usize, passes: F) -> Option<Range<usize>>
    requires { F.IsAlwaysCallable passes }
    ensures { FieldBy (FnReturnsAt F.Fn passes) line.now end result }
{
    if line.len() <= end {
        return None;
    }
    let start = end + 1;
    let stop = text::field_end(line, start);
    if passes(&line[start..stop]) {
        Some(start..stop)
    } else {
        None
    }
}

// The number in the field of a line behind the one that ends at a place, with the place where that field ends.
fn number_behind(line: &[u8], end: usize) -> Option<(u32, usize)>
    ensures { NumberSays line.now end result }
{
    let field = field_behind(line, end, |_| true)?;
    let number = text::read_number(&line[field.start..field.end])?;
    Some((number, field.end))
}

// What a line says whose first field, which ends at a place, is `route`.
fn read_route(line: &[u8], word: usize) -> Option<Form>
    ensures { Says line.now result (said (quoted "route" ∷ behind line.now word)) }
{
    let field = field_behind(line, word, is_address)?;
    let (size, size_end) = number_behind(line, field.end)?;
    let (originator, originator_end) = number_behind(line, size_end)?;
    let (neighbour, last) = number_behind(line, originator_end)?;
    if last < line.len() {
        return None;
    }
    let address = text::word_in(&line[field.start..field.end]);
    Some(Form::Route {
        address,
        size,
        originator,
        neighbour,
    })
}

// What a line says whose first field is `announce`.
fn read_announce(line: &[u8], word: usize) -> Option<Form>
    ensures { Says line.now result (said (quoted "announce" ∷ behind line.now word)) }
{
    let rule = field_behind(line, word, is_rule)?;
    let (originator, stop) = number_behind(line, rule.end)?;
    let communities = field_behind(line, stop, text::are_octets)?;
    if communities.end < line.len() {
        return None;
    }
    Some(Form::Announce {
        rule: rule.start,
        rule_end: rule.end,
        originator,
        communities: communities.start,
    })
}

// What a line says whose first field is `withdraw`.
fn read_withdraw(line: &[u8], word: usize) -> Option<Form>
    ensures { Says line.now result (said (quoted "withdraw" ∷ behind line.now word)) }
{
    let rule = field_behind(line, word, is_rule)?;
    if rule.end < line.len() {
        return None;
    }
    Some(Form::Withdraw(rule.start))
}

// What a line says whose first field is `list`.
fn read_list(line: &[u8], word: usize) -> Option<Form>
    ensures { Says line.now result (said (quoted "list" ∷ behind line.now word)) }
{
    if word < line.len() {
        return None;
    }
    Some(Form::Listing)
}

// What a line says, by its first field; none where it is of another form.
pub fn read_line(line: &[u8]) -> Option<Form>
    ensures { Says line.now result (line_of line.now) }
{
    if MOST_SIGNS < line.len() {
        return None;
    }
    let end = text::field_end(line, 0);
    let word = &line[..end];
    if octets::same_octets(word, b"route") {
        return read_route(line, end);
    }
    if octets::same_octets(word, b"announce") {
        return read_announce(line, end);
    }
    if octets::same_octets(word, b"withdraw") {
        return read_withdraw(line, end);
    }
    if octets::same_octets(word, b"list") {
        return read_list(line, end);
    }
    None
}
