// What number a rate stands for and what was done to its value to come to that number (RFC 8955 sections 7.1 and 7.2; 2026-05), and
// which such pairs some rate gives.
#![tactic(auto)]

ghost use Rattle.std.specs.Prelude.{◌≡◌, ◌<◌, ◌≤◌, ◌^◌, MatchOption};
ghost use Rattle.rate.specs.Rate.{note_number, noted, scaled, whole_part, value_rate, rate_of, is_single, rate_given};

// The highest number of a rate, 2^63.
const MOST: u64 = 0x8000_0000_0000_0000;

// What was done to a rate's value to come to its number: nothing; what stands behind the point was cut off; a positive rate below 1 was
// raised to 1; a rate above 2^63 was capped; a negative rate was taken as zero.
#[derive(Clone, Copy)]
pub enum Note {
    Exact = 0,
    RoundedDown = 1,
    Raised = 2,
    Capped = 3,
    TakenAsZero = 4,
}

// What a rate that is a number gives: a number with its note.
#[derive(Clone, Copy)]
pub struct Rate {
    pub number: u64,
    pub note: Note,
}

// The note that a number stands for, if it stands for one.
fn note_of(number: u8) -> Option<Note>
    ensures { MatchOption result (4 < number) (λ note. note_number note ≡ number) }
{
    match number {
        0 => Some(Note::Exact),
        1 => Some(Note::RoundedDown),
        2 => Some(Note::Raised),
        3 => Some(Note::Capped),
        4 => Some(Note::TakenAsZero),
        _ => None,
    }
}

// A number with its note.
fn noted(number: u64, note: Note) -> Rate
    ensures { result ≡ noted number note }
{
    Rate { number, note }
}

// The whole part of a single from 1 on and below 2^63, by whether its exponent leaves digits behind the point.
fn whole_part(exponent: u32, fraction: u32) -> Rate
    requires { (fraction < 2 ^ 23) × (127 ≤ exponent) × (exponent < 190) }
    ensures { result ≡ whole_part (scaled exponent fraction) }
{
    let digits = 0x80_0000 + fraction as u64;
    if 150 <= exponent {
        let up = exponent - 150;
        return noted(digits << up, Note::Exact);
    }
    let down = 150 - exponent;
    let whole = digits >> down;
    if whole << down == digits {
        return noted(whole, Note::Exact);
    }
    noted(whole, Note::RoundedDown)
}

// What a single that is a number gives, by its sign and the size of its exponent.
fn value_rate(negative: bool, exponent: u32, fraction: u32) -> Rate
    requires { fraction < 2 ^ 23 }
    ensures { result ≡ value_rate negative (scaled exponent fraction) }
{
    if (exponent == 0) & (fraction == 0) {
        return noted(0, Note::Exact);
    }
    if negative {
        return noted(0, Note::TakenAsZero);
    }
    if exponent < 127 {
        return noted(1, Note::Raised);
    }
    if (exponent == 190) & (fraction == 0) {
        return noted(MOST, Note::Exact);
    }
    if 190 <= exponent {
        return noted(MOST, Note::Capped);
    }
    whole_part(exponent, fraction)
}

// What a single gives as a rate, cut into sign, exponent and fraction; one that is not a number gives none.
pub fn rate_of(single: u32) -> Option<Rate>
    ensures { result ≡ rate_of single }
{
    let sign = single >> 31;
    let exponent = (single >> 23) & 0xff;
    let fraction = single & 0x7f_ffff;
    if (exponent == 255) & (fraction != 0) {
        return None;
    }
    Some(value_rate(sign != 0, exponent, fraction))
}

// Is a number up to 2^63 one that a single is exactly?
fn is_single(number: u64) -> bool
    ensures { result ≡ is_single number }
{
    if MOST < number {
        return false;
    }
    let mut rest = number;
    while 0x100_0000 <= rest {
        if rest % 2 != 0 {
            return false;
        }
        rest = rest / 2;
    }
    true
}

// Is a number with the number of a note one that some rate gives?
pub fn is_rate(number: u64, note: u8) -> bool
    ensures { result ≡ rate_given number note }
{
    match note_of(note) {
        Some(Note::Exact) => is_single(number),
        Some(Note::RoundedDown) => (1 <= number) & (number < 0x80_0000),
        Some(Note::Raised) => number == 1,
        Some(Note::Capped) => number == MOST,
        Some(Note::TakenAsZero) => number == 0,
        None => false,
    }
}
