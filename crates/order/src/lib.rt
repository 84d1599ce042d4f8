// Which of two rules of a family comes first (RFC 8955 section 5.1). Values are compared in their plain spelling.
#![tactic(auto)]

ghost use Rattle.std.specs.Prelude.{◌≡◌};
ghost use Rattle.octets.specs.Order.{ordered};
ghost use Rattle.rule.specs.Family.{Fits};
ghost use Rattle.rule.specs.Value.{components, component, check_value};
ghost use Rattle.order.specs.Precedence.{body_order, component_order, components_order, heads_order, plain_order, precedence};
ghost use Rattle.order.specs.Compare.{compare_rules};
ghost use Rattle.order.specs.Turn.{runs_out, turn_for, Turned};

use rule::{Family, Located, Refusal};
use std::cmp::Ordering;

// Two bodies of one type: prefixes as prefixes, others octet by octet.
pub fn compare_bodies(family: Family, kind: u8, first: &[u8], second: &[u8]) -> Ordering
    requires { Fits family }
    ensures { result ≡ ordered (body_order family kind first.now second.now) }
{
    let shape = rule::shape_of(family, kind);
    if shape.prefix {
        let here = prefix::prefix_of(family.width, family.offsets, first);
        let there = prefix::prefix_of(family.width, family.offsets, second);
        return prefix::compare_prefixes(family.width, here, there);
    }
    octets::compare_octets(first, second)
}

// Two components: the lower type first, then their bodies.
pub fn compare_components(
    family: Family,
    kind: u8,
    first: &[u8],
    other: u8,
    second: &[u8],
) -> Ordering
    requires { Fits family }
    ensures { result ≡ ordered (component_order family (component kind first.now) (component other second.now)) }
{
    if kind < other {
        return Ordering::Less;
    }
    if other < kind {
        return Ordering::Greater;
    }
    compare_bodies(family, kind, first, second)
}

// What one turn of a comparison finds: which value comes first, or that the components at hand tie, and where to go on in each.
#[derive(Clone, Copy)]
pub enum Turn {
    Decided(Ordering),
    Tied { kind: u8, here: usize, there: usize },
}

// Where the first value has run out, it comes later unless the second has no further component either.
pub fn runs_out(second: Result<Option<Located>, Refusal>) -> Ordering
    ensures { result ≡ runs_out second }
{
    match second {
        Ok(Some(_)) => Ordering::Greater,
        _ => Ordering::Equal,
    }
}

// What a comparison of two components means for the turn.
pub fn turn_for(order: Ordering, kind: u8, here: usize, there: usize) -> Turn
    ensures { result ≡ turn_for order kind here there }
{
    match order {
        Ordering::Less => Turn::Decided(Ordering::Less),
        Ordering::Greater => Turn::Decided(Ordering::Greater),
        Ordering::Equal => Turn::Tied { kind, here, there },
    }
}

// Compares the components at a place of each value, behind components of the type `previous`.
pub fn compare_next(
    family: Family,
    first: &[u8],
    here: usize,
    second: &[u8],
    there: usize,
    previous: u8,
) -> Turn
    requires { Fits family }
    ensures { Turned family first.now here second.now there previous result }
{
    let left = rule::next_component(family, first, here, previous);
    let right = rule::next_component(family, second, there, previous);
    let Ok(Some(component)) = left else {
        return Turn::Decided(runs_out(right));
    };
    let Ok(Some(other)) = right else {
        return Turn::Decided(Ordering::Less);
    };
    let body = rule::component_body(family, first, here, previous, component.next);
    let against = rule::component_body(family, second, there, previous, other.next);
    let order = compare_components(family, component.kind, body, other.kind, against);
    turn_for(order, component.kind, component.next, other.next)
}

// The components of two values that are plain already: one by one, and what runs out first comes later.
fn compare_lists(family: Family, first: &[u8], second: &[u8]) -> Ordering
    requires { Fits family }
    ensures { result ≡ ordered (components_order family (components family first.now) (components family second.now)) }
{
    let mut at = family.head;
    let mut place = family.head;
    let mut previous: u8 = 0;
    loop {
        let turn = compare_next(family, first, at, second, place, previous);
        match turn {
            Turn::Decided(order) => {
                return order;
            }
            Turn::Tied { kind, here, there } => {
                at = here;
                place = there;
                previous = kind;
            }
        }
    }
}

// The octets that stand before the first component of two values.
fn compare_heads(family: Family, first: &[u8], second: &[u8]) -> Ordering
    ensures { result ≡ ordered (heads_order family first.now second.now) }
{
    let here = family.head.min(first.len());
    let there = family.head.min(second.len());
    octets::compare_octets(&first[..here], &second[..there])
}

// Two values that are plain already: what stands before their components decides, and then these do.
pub fn compare_plain(family: Family, first: &[u8], second: &[u8]) -> Ordering
    requires { Fits family }
    ensures { result ≡ ordered (plain_order family first.now second.now) }
{
    match compare_heads(family, first, second) {
        Ordering::Less => Ordering::Less,
        Ordering::Greater => Ordering::Greater,
        Ordering::Equal => compare_lists(family, first, second),
    }
}

// Two accepted values: their plain spellings are built in working arrays and compared there.
pub fn compare_values(family: Family, first: &[u8], second: &[u8]) -> Ordering
    requires { Fits family × ((check_value family first.now ≡ Ok tt) × (check_value family second.now ≡ Ok tt)) }
    ensures { result ≡ ordered (precedence family first.now second.now) }
{
    let size = first.len();
    let other = second.len();
    let mut work = [0u8; spelling::WORKING];
    let mut space = [0u8; spelling::WORKING];
    spelling::fill_plain(family, first, &mut work);
    spelling::fill_plain(family, second, &mut space);
    compare_plain(family, &work[..size], &space[..other])
}

// Reads two rules, the first before the second, and compares their values.
pub fn compare_rules(family: Family, first: &[u8], second: &[u8]) -> Result<Ordering, Refusal>
    requires { Fits family }
    ensures { result ≡ compare_rules family first.now second.now }
{
    let left = rule::one_rule(family, first)?;
    let right = rule::one_rule(family, second)?;
    let end = left.start + left.size;
    let stop = right.start + right.size;
    Ok(compare_values(family, &first[left.start..end], &second[right.start..stop]))
}
