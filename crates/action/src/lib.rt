// Filtering actions (RFC 8955 section 7): the actions of a rule's communities, and merging over several matching rules.
#![tactic(auto)]

ghost use Rattle.std.specs.Prelude.{◌≡◌};
ghost use Rattle.rate.specs.Rate.{note_number};
ghost use Rattle.action.specs.Given.{given, first_of, allowed};
ghost use Rattle.action.specs.Limit.{limit, smaller_of, could_be_limit};
ghost use Rattle.action.specs.Actions.{no_actions, is_redirect, rate_in, actions_of};
ghost use Rattle.action.specs.Merging.{merged};
ghost use Rattle.action.specs.Possible.{could_be};
ghost use Rattle.action.specs.Reading.{kind_of};

use rate::Rate;

// A number that may be missing; a missing one is 0.
#[derive(Clone, Copy)]
pub struct Given {
    pub present: bool,
    pub number: u64,
}

// A rate that actions limit to, with its note; one that is missing is 0 with note 0.
#[derive(Clone, Copy)]
pub struct Limit {
    pub present: bool,
    pub number: u64,
    pub note: u8,
}

// What rules ask for: limits, S as `sample`, T as `onward`, a marking, and the redirect community.
#[derive(Clone, Copy)]
pub struct Actions {
    pub bytes: Limit,
    pub packets: Limit,
    pub sample: bool,
    pub onward: bool,
    pub marking: Given,
    pub redirect: Given,
}

// What a community asks for.
#[derive(Clone, Copy)]
pub enum Kind {
    ByteRate,
    PacketRate,
    TrafficAction,
    Redirect,
    Marking,
    Other,
}

// A number that is there.
fn given_of(number: u64) -> Given
    ensures { result ≡ given number }
{
    Given {
        present: true,
        number,
    }
}

// The limit that is a rate's number, with its note.
fn limit_of(rate: Rate) -> Limit
    ensures { result ≡ limit rate.number (note_number rate.note) }
{
    Limit {
        present: true,
        number: rate.number,
        note: rate.note as u8,
    }
}

// The first of two that is there; its parts are put together anew, since a copy of the whole is slower.
fn first_of(first: Given, second: Given) -> Given
    ensures { result ≡ first_of first second }
{
    if first.present {
        return given_of(first.number);
    }
    Given {
        present: second.present,
        number: second.number,
    }
}

// The first of two limits where it is there and the second is missing or no smaller, else the second; put together anew, as in `first_of`.
fn smaller_of(first: Limit, second: Limit) -> Limit
    ensures { result ≡ smaller_of first second }
{
    if first.present & (!second.present | (first.number <= second.number)) {
        return Limit {
            present: first.present,
            number: first.number,
            note: first.note,
        };
    }
    Limit {
        present: second.present,
        number: second.number,
        note: second.note,
    }
}

// A rule that asks for nothing.
pub fn no_actions() -> Actions
    ensures { result ≡ no_actions }
{
    let absent = Given {
        present: false,
        number: 0,
    };
    let no_limit = Limit {
        present: false,
        number: 0,
        note: 0,
    };
    Actions {
        bytes: no_limit,
        packets: no_limit,
        sample: false,
        onward: false,
        marking: absent,
        redirect: absent,
    }
}

// Is a type that of a redirect?
fn is_redirect(octets: u64) -> bool
    ensures { result ≡ is_redirect octets }
{
    (octets == 0x8008) | (octets == 0x8108) | (octets == 0x8208)
}

// What a community asks for, by both octets of its type.
fn kind_of(octets: u64) -> Kind
    ensures { result ≡ kind_of octets }
{
    match octets {
        0x8006 => Kind::ByteRate,
        0x800c => Kind::PacketRate,
        0x8007 => Kind::TrafficAction,
        0x8009 => Kind::Marking,
        _ => {
            if is_redirect(octets) {
                Kind::Redirect
            } else {
                Kind::Other
            }
        }
    }
}

// The rate in a community: its last four octets.
fn rate_in(community: u64) -> Option<Rate>
    ensures { result ≡ rate_in community }
{
    let single = community & 0xffff_ffff;
    rate::rate_of(single as u32)
}

// The actions of a rule, from the octets of its communities: each changes the field of its kind, S and T together; unsound at a length
// that is not 0 to 64 communities, or at a rate that is not a number.
pub fn actions_of(communities: &[u8]) -> Option<Actions>
    ensures { result ≡ actions_of communities.now }
{
    let size = communities.len();
    if (512 < size) | (size % 8 != 0) {
        return None;
    }
    let mut actions = no_actions();
    for eight in communities.chunks_exact(8) {
        let community = octets::number_at(8, eight, 0);
        match kind_of(community >> 48) {
            Kind::ByteRate => {
                let rate = rate_in(community)?;
                actions.bytes = smaller_of(actions.bytes, limit_of(rate));
            }
            Kind::PacketRate => {
                let rate = rate_in(community)?;
                actions.packets = smaller_of(actions.packets, limit_of(rate));
            }
            Kind::TrafficAction => {
                actions.sample = actions.sample | (community & 0x02 != 0);
                actions.onward = actions.onward | (community & 0x01 != 0);
            }
            Kind::Marking => {
                actions.marking = first_of(actions.marking, given_of(community & 0x3f));
            }
            Kind::Redirect => {
                actions.redirect = first_of(actions.redirect, given_of(community));
            }
            Kind::Other => {}
        }
    }
    Some(actions)
}

// The actions of an earlier and of a later matching rule, taken together; they carry no T.
pub fn merge(earlier: Actions, later: Actions) -> Actions
    ensures { result ≡ merged earlier later }
{
    let bytes = smaller_of(earlier.bytes, later.bytes);
    let packets = smaller_of(earlier.packets, later.packets);
    let marking = first_of(earlier.marking, later.marking);
    let redirect = first_of(earlier.redirect, later.redirect);
    let onward = false;
    Actions {
        bytes,
        packets,
        sample: earlier.sample | later.sample,
        onward,
        marking,
        redirect,
    }
}

// Does a number that is there pass, and does a missing one stand as 0?
fn is_allowed(present: bool, number: u64, passes: bool) -> bool
    ensures { result ≡ allowed present number passes }
{
    if present { passes } else { number == 0 }
}

// Could a limit be that of some communities?
fn could_be_limit(limit: Limit) -> bool
    ensures { result ≡ could_be_limit limit }
{
    if limit.present {
        return rate::is_rate(limit.number, limit.note);
    }
    (limit.number == 0) & (limit.note == 0)
}

// Could these be the actions of some communities?
pub fn could_be(actions: Actions) -> bool
    ensures { result ≡ could_be actions }
{
    let bytes = could_be_limit(actions.bytes);
    let packets = could_be_limit(actions.packets);
    let dscp = actions.marking.number;
    let community = actions.redirect.number;
    let marking = is_allowed(actions.marking.present, dscp, dscp < 64);
    let redirect = is_allowed(
        actions.redirect.present,
        community,
        is_redirect(community >> 48),
    );
    bytes & packets & marking & redirect
}
