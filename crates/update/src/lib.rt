// The two public calls with whole attributes: `reach` announces the rules of a reach, and `unreach` withdraws those of an unreach, rule by
// rule. Neither has a `requires`, and specs/Promise.antt promises what the door's single calls do for each rule in order; table, routes and
// communities are checked once an attribute, and all of its rules are read (crate attribute) before an octet is changed.
#![tactic(auto)]

ghost use Rattle.std.specs.Prelude.{◌≡◌, [], ◌∷◌, length};
ghost use Rattle.rule.specs.Family.{Fits, family_of};
ghost use Rattle.rule.specs.Refusal.{refused_with};
ghost use Rattle.rule.specs.Value.{check_value};
ghost use Rattle.action.specs.Actions.{actions_of};
ghost use Rattle.table.specs.Change.{Ready, Leaves};
ghost use Rattle.request.specs.Input.{policy_of};
ghost use Rattle.flowspec.specs.Checks.{actions_read};
ghost use Rattle.update.specs.Singles.{reach_of};
ghost use Rattle.update.specs.Checks.{rules_read, reach_count, unreach_count, reach_input, unreach_input};
ghost use Rattle.update.specs.Apply.{decided};
ghost use Rattle.update.specs.Promise.{Reaches, Unreaches};
ghost use Rattle.update.specs.Steps.{rule_change, tasks_from, Prepared, LeavesAll};

use action::Actions;
use entry::Head;
use route::{Origin, Settings};
use rule::{AddressFamily, Family, Refusal};
use table::Answer;

// What is read of a reach: how many rules it has, and the actions of each.
#[derive(Clone, Copy)]
pub struct RulesRead {
    pub count: usize,
    pub actions: Actions,
}

// What is done for each rule of an attribute: it is announced under a head, or withdrawn.
#[derive(Clone, Copy)]
pub enum Task {
    Announce { head: Head, settings: Settings },
    Withdraw,
}

// What is done for a reach: how many rules it has, each with its number among the answer words, and the notes of their rates.
#[derive(Clone, Copy)]
pub struct Reached {
    pub count: usize,
    pub notes: u64,
}

// ---- What the calls are given ----

// Reads an unreach for which so many answer words are lent.
fn read_unreach(family: Family, attribute: &[u8], words: usize) -> Result<usize, Refusal>
    ensures { result ≡ decided (unreach_input family attribute.now words) (Ok (unreach_count family attribute.now)) refused_with }
{
    if !attribute::is_unreach(family, attribute) {
        return Err(Refusal::UntakenAttribute);
    }
    let count = attribute::count_rules(family, attribute, attribute::UNREACH_HEAD)?;
    if words < count {
        return Err(Refusal::ShortBuffer);
    }
    Ok(count)
}

// Reads a reach with its communities, for which so many answer words are lent.
fn read_reach(
    family: Family,
    routes: &[u32],
    attribute: &[u8],
    communities: &[u8],
    words: usize,
) -> Result<RulesRead, Refusal>
    requires { Fits family }
    ensures { result ≡ decided (reach_input family routes.now attribute.now communities.now words) (Ok (rules_read (reach_count family attribute.now) (actions_read (actions_of communities.now)))) refused_with }
{
    if !route::sound_routes(family, routes) {
        return Err(Refusal::UnsoundRoutes);
    }
    if !attribute::is_reach(family, attribute) {
        return Err(Refusal::UntakenAttribute);
    }
    let count = attribute::count_rules(family, attribute, attribute::REACH_HEAD)?;
    let Some(actions) = action::actions_of(communities) else {
        return Err(Refusal::UnsoundActions);
    };
    if words < count {
        return Err(Refusal::ShortBuffer);
    }
    Ok(RulesRead { count, actions })
}

// ---- Rule by rule ----

// Does a task for one rule, by its accepted value, on a sound table whose records take `used` octets; `routes` judge what is announced.
fn apply_rule(
    family: AddressFamily,
    table: &mut [u8],
    used: usize,
    routes: &[u32],
    task: Task,
    value: &[u8],
) -> Answer
    requires { Ready (family_of family) table.old used × (check_value (family_of family) value.now ≡ Ok tt) }
    ensures { Leaves (rule_change (family_of family) routes.now task value.now table.old) result table.new }
{
    let chosen = rule::family_of(family);
    match task {
        Task::Withdraw => table::withdraw_value(chosen, table, used, value),
        Task::Announce { head, settings } => {
            let origin = head.origin;
            let feasible = request::is_feasible(family, settings, routes, value, origin);
            table::announce_value(chosen, table, used, head, feasible, value)
        }
    }
}

// Does a task for each rule of an attribute from a place on, in order, and lists the numbers at the front of the answer words.
fn apply_rules(
    family: AddressFamily,
    table: &mut [u8],
    used: usize,
    routes: &[u32],
    task: Task,
    attribute: &[u8],
    from: usize,
    answers: &mut [u32],
)
    requires { Prepared (family_of family) task attribute.now from table.old used (length answers.old) }
    ensures { LeavesAll (tasks_from (family_of family) routes.now task attribute.now from table.old) answers.old table.new answers.new }
{
    let chosen = rule::family_of(family);
    let mut at = from;
    let mut taken = used;
    let mut count: usize = 0;
    while let Ok(Some(rule)) = attribute::rule_at(chosen, attribute, at) {
        let value = &attribute[rule.start..rule.end];
        let answer = apply_rule(family, table, taken, routes, task, value);
        answers[count] = rule::told_number(answer.outcome) as u32;
        taken = answer.used;
        at = rule.end;
        count += 1;
    }
}

// ---- The calls ----

// Announces the rules of a reach to a table; each rule's number stands at the front of the answer words.
pub fn reach(
    family: AddressFamily,
    table: &mut [u8],
    settings: Settings,
    routes: &[u32],
    attribute: &[u8],
    origin: Origin,
    communities: &[u8],
    answers: &mut [u32],
) -> Result<Reached, Refusal>
    ensures { Reaches (family_of family) (policy_of routes.now settings) (reach_of attribute.now origin communities.now) table.old answers.old result table.new answers.new (routes.now ∷ attribute.now ∷ communities.now ∷ []) }
{
    let chosen = rule::family_of(family);
    let used = table::sound_table(chosen, table)?;
    let words = answers.len();
    let read = read_reach(chosen, routes, attribute, communities, words)?;
    let actions = read.actions;
    let head = Head { origin, actions };
    let task = Task::Announce { head, settings };
    apply_rules(
        family,
        table,
        used,
        routes,
        task,
        attribute,
        attribute::REACH_HEAD,
        answers,
    );
    let notes = entry::notes_of(actions);
    Ok(Reached {
        count: read.count,
        notes,
    })
}

// Withdraws the rules of an unreach from a table; each rule's number stands at the front of the answer words.
pub fn unreach(
    family: AddressFamily,
    table: &mut [u8],
    attribute: &[u8],
    answers: &mut [u32],
) -> Result<usize, Refusal>
    ensures { Unreaches (family_of family) attribute.now table.old answers.old result table.new answers.new (attribute.now ∷ []) }
{
    let chosen = rule::family_of(family);
    let used = table::sound_table(chosen, table)?;
    let words = answers.len();
    let count = read_unreach(chosen, attribute, words)?;
    let routes = [0u32; 0];
    apply_rules(
        family,
        table,
        used,
        &routes,
        Task::Withdraw,
        attribute,
        attribute::UNREACH_HEAD,
        answers,
    );
    Ok(count)
}
