// The value of an attribute MP_REACH_NLRI, a reach, or MP_UNREACH_NLRI, an unreach (RFC 4760): whether its head is that of a family's flow
// rules, what stands at a place behind it, and how many rules there are. A reach and an unreach differ in their heads alone. Nothing here knows
// of a table: what is done for the rules is `update`'s.
#![tactic(auto)]

ghost use Rattle.std.specs.Prelude.{◌≡◌};
ghost use Rattle.attribute.specs.Head.{afi_of, is_of_family, is_reach, is_unreach};
ghost use Rattle.attribute.specs.Rules.{rule_at, rules_from};
ghost use Rattle.attribute.specs.Count.{count_of};

use octets::{number_at, octet_at};
use rule::{Family, Refusal};

// The SAFI of flow rules.
const FLOW_SAFI: u8 = 133;

// The octets before the rules of a reach: AFI, SAFI, the length of the next hop, which is 0, and a reserved one.
pub const REACH_HEAD: usize = 5;

// The octets before the rules of an unreach: AFI, SAFI.
pub const UNREACH_HEAD: usize = 3;

// Where the value of a rule stands in an attribute: its first place, and the place behind it.
#[derive(Clone, Copy)]
pub struct RulePlace {
    pub start: usize,
    pub end: usize,
}

// ---- The head (RFC 4760 sections 3 and 4) ----

// The AFI of a family: 1 for IP version 4 and 2 for IP version 6.
fn afi_of(family: Family) -> u64
    ensures { result ≡ afi_of family }
{
    if family.version == 4 {
        return 1;
    }
    2
}

// Whether an attribute's AFI and SAFI are those of a family's flow rules.
fn is_of_family(family: Family, attribute: &[u8]) -> bool
    ensures { result ≡ is_of_family family attribute.now }
{
    let afi = number_at(2, attribute, 0);
    let safi = octet_at(attribute, 2);
    (afi == afi_of(family)) & (safi == FLOW_SAFI)
}

// Whether an attribute is taken as a reach.
pub fn is_reach(family: Family, attribute: &[u8]) -> bool
    ensures { result ≡ is_reach family attribute.now }
{
    let next_hop = octet_at(attribute, 3);
    (REACH_HEAD < attribute.len()) & (is_of_family(family, attribute) & (next_hop == 0))
}

// Whether an attribute is taken as an unreach.
pub fn is_unreach(family: Family, attribute: &[u8]) -> bool
    ensures { result ≡ is_unreach family attribute.now }
{
    (UNREACH_HEAD <= attribute.len()) & is_of_family(family, attribute)
}

// ---- The rules (RFC 8955 section 4) ----

// What stands at a place of an attribute.
pub fn rule_at(family: Family, attribute: &[u8], at: usize) -> Result<Option<RulePlace>, Refusal>
    ensures { result ≡ rule_at family attribute.now at }
{
    if attribute.len() <= at {
        return Ok(None);
    }
    let rule = rule::first_rule(family, &attribute[at..])?;
    let start = at + rule.start;
    let end = start + rule.size;
    Ok(Some(RulePlace { start, end }))
}

// Counts the rules of an attribute from a place on; the first that is not accepted refuses them.
pub fn count_rules(family: Family, attribute: &[u8], from: usize) -> Result<usize, Refusal>
    ensures { result ≡ count_of (rules_from family attribute.now from) }
{
    let mut at = from;
    let mut count: usize = 0;
    while let Some(rule) = rule_at(family, attribute, at)? {
        at = rule.end;
        count += 1;
    }
    Ok(count)
}
