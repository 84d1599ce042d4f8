// The door: every public call of the flow-rule part, each with its promise (specs/Promise.antt). No call has a `requires`: whatever
// octets it is lent, it answers; which number and place of 01's table an answer says is in specs/Told.antt. A call is told the family
// of its addresses; the crates below take what that family decides, a struct of numbers, so that nothing there asks which family it is.
#![tactic(auto)]

ghost use Rattle.std.specs.Prelude.{◌≡◌, [], ◌∷◌};
ghost use Rattle.rule.specs.Family.{family_of};
ghost use Rattle.flowspec.specs.Feasibility.{feasibility_of};
ghost use Rattle.request.specs.Input.{announcement_of, policy_of};
ghost use Rattle.flowspec.specs.Promise.{ReadsOne, WritesOne, ComparesTwo, JudgesOne, ReadsActions, Announces, Withdraws, LooksUp, LocatesFirst, FirstMatches};
ghost use Rattle.flowspec.specs.Announce.{announced_of};

use action::Actions;
use entry::Head;
use lookup::Matched;
use route::{Origin, Settings};
use rule::{AddressFamily, Refusal, Span};
use std::cmp::Ordering;
use table::Place;

// Reads one rule: where its value starts and how long it is.
pub fn read_rule(family: AddressFamily, rule: &[u8]) -> Result<Span, Refusal>
    ensures { ReadsOne (family_of family) rule.now result (rule.now ∷ []) }
{
    rule::one_rule(rule::family_of(family), rule)
}

// Writes one rule from its value, in its plain spelling, to the front of a buffer: how many octets were written.
pub fn write_rule(family: AddressFamily, value: &[u8], buffer: &mut [u8]) -> Result<usize, Refusal>
    ensures { WritesOne (family_of family) value.now buffer.old result buffer.new (value.now ∷ []) }
{
    spelling::write_rule(rule::family_of(family), value, buffer)
}

// Compares two rules by their precedence.
pub fn compare_rules(
    family: AddressFamily,
    first: &[u8],
    second: &[u8],
) -> Result<Ordering, Refusal>
    ensures { ComparesTwo (family_of family) first.now second.now result (first.now ∷ second.now ∷ []) }
{
    order::compare_rules(rule::family_of(family), first, second)
}

// What is answered of a rule that was judged: infeasible is refusal 8.
fn feasibility_of(feasible: bool) -> Result<(), Refusal>
    ensures { result ≡ feasibility_of feasible }
{
    if feasible {
        return Ok(());
    }
    Err(Refusal::Infeasible)
}

// Judges whether a rule is feasible for an origin by the lent routes.
pub fn judge_rule(
    family: AddressFamily,
    settings: Settings,
    routes: &[u32],
    rule: &[u8],
    origin: Origin,
) -> Result<(), Refusal>
    ensures { JudgesOne (family_of family) (policy_of routes.now settings) rule.now origin result (routes.now ∷ rule.now ∷ []) }
{
    let value = request::read_with_routes(family, routes, rule)?;
    let end = value.start + value.size;
    feasibility_of(request::is_feasible(family, settings, routes, &rule[value.start..end], origin))
}

// Reads the filtering actions of a rule's communities.
pub fn read_actions(communities: &[u8]) -> Option<Actions>
    ensures { ReadsActions communities.now result (communities.now ∷ []) }
{
    action::actions_of(communities)
}

// What the outcome of a change means for an announcement with actions: where the rule is held, the notes of its rates are told.
fn announced_of(actions: Actions, outcome: Result<(), Refusal>) -> Result<u64, Refusal>
    ensures { result ≡ announced_of actions outcome }
{
    outcome?;
    Ok(entry::notes_of(actions))
}

// Announces a rule with its actions to a table: the notes of its rates.
pub fn announce(
    family: AddressFamily,
    table: &mut [u8],
    settings: Settings,
    routes: &[u32],
    rule: &[u8],
    origin: Origin,
    communities: &[u8],
) -> Result<u64, Refusal>
    ensures { Announces (family_of family) (policy_of routes.now settings) (announcement_of rule.now origin communities.now) table.old result table.new (routes.now ∷ rule.now ∷ communities.now ∷ []) }
{
    let chosen = rule::family_of(family);
    let used = table::sound_table(chosen, table)?;
    let asked = request::request_of(family, settings, routes, rule, origin, communities)?;
    let actions = asked.actions;
    let end = asked.start + asked.size;
    let head = Head { origin, actions };
    let value = &rule[asked.start..end];
    let answer = table::announce_value(chosen, table, used, head, asked.feasible, value);
    announced_of(actions, answer.outcome)
}

// Withdraws a rule from a table.
pub fn withdraw(family: AddressFamily, table: &mut [u8], rule: &[u8]) -> Result<(), Refusal>
    ensures { Withdraws (family_of family) rule.now table.old result table.new (rule.now ∷ []) }
{
    let family = rule::family_of(family);
    let used = table::sound_table(family, table)?;
    let value = rule::one_rule(family, rule)?;
    let end = value.start + value.size;
    let answer = table::withdraw_value(family, table, used, &rule[value.start..end]);
    answer.outcome
}

// Looks a packet up in a table: the rules that it matches, or none.
pub fn lookup(
    family: AddressFamily,
    table: &[u8],
    packet: &[u8],
) -> Result<Option<Matched>, Refusal>
    ensures { LooksUp (family_of family) table.now packet.now result (table.now ∷ packet.now ∷ []) }
{
    let family = rule::family_of(family);
    let shown = lookup::open_lookup(family, table, packet)?;
    Ok(lookup::look_up(family, b"", table, shown))
}

// Where the first match's record stands in a table, twice 0 where nothing matches, or the lookup's refusal.
pub fn first_match_place(
    family: AddressFamily,
    table: &[u8],
    packet: &[u8],
) -> Result<Place, Refusal>
    ensures { LocatesFirst (family_of family) table.now packet.now result (table.now ∷ packet.now ∷ []) }
{
    let family = rule::family_of(family);
    let shown = lookup::open_lookup(family, table, packet)?;
    Ok(lookup::first_place(family, b"", table, shown))
}

// The first match's record, as a part of the table.
pub fn first_match<'a>(family: AddressFamily, table: &'a [u8], packet: &[u8]) -> &'a [u8]
    ensures { FirstMatches (family_of family) table.now packet.now table.entry.ref_ptr result.now result.ref_ptr (table.now ∷ packet.now ∷ []) }
{
    let place = match first_match_place(family, table, packet) {
        Ok(place) => place,
        Err(_) => Place { start: 0, end: 0 },
    };
    let start = place.start;
    let end = place.end;
    &table[start..end]
}
