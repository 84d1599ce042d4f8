// What an announcement asks, once it is read and judged (sections 6 and 7): the routes are checked, the rule and the communities of its
// actions are read, and the rule's value is judged. These functions take a family by its name, as the calls of the door do, so that the
// compiler knows its numbers in the passes over the routes.
#![tactic(auto)]

ghost use Rattle.std.specs.Prelude.{◌≡◌};
ghost use Rattle.rule.specs.Family.{family_of};
ghost use Rattle.request.specs.Input.{announcement_of, policy_of};
ghost use Rattle.request.specs.Judging.{read_with_routes, is_feasible};
ghost use Rattle.request.specs.Request.{request_of};

use action::Actions;
use route::{Origin, Settings};
use rule::{AddressFamily, Refusal, Span};

// What an announcement asks of a table once its input is read and judged: to hold a rule's value with its actions where it is
// feasible, and to hold that rule no longer where it is not.
#[derive(Clone, Copy)]
pub struct Request {
    pub start: usize,
    pub size: usize,
    pub actions: Actions,
    pub feasible: bool,
}

// Reads one rule, once the routes that it is to be judged by are found sound.
pub fn read_with_routes(family: AddressFamily, routes: &[u32], rule: &[u8]) -> Result<Span, Refusal>
    ensures { result ≡ read_with_routes (family_of family) routes.now rule.now }
{
    let family = rule::family_of(family);
    if !route::sound_routes(family, routes) {
        return Err(Refusal::UnsoundRoutes);
    }
    rule::one_rule(family, rule)
}

// Whether an accepted value is feasible for an origin by the lent routes.
pub fn is_feasible(
    family: AddressFamily,
    settings: Settings,
    routes: &[u32],
    value: &[u8],
    origin: Origin,
) -> bool
    ensures { result ≡ is_feasible (family_of family) (policy_of routes.now settings) value.now origin }
{
    let family = rule::family_of(family);
    let destination = route::destination_of(family, value);
    route::is_feasible(family, settings, destination, origin, routes)
}

// Reads and judges an announcement, in the order in which 01 has the checks.
pub fn request_of(
    family: AddressFamily,
    settings: Settings,
    routes: &[u32],
    rule: &[u8],
    origin: Origin,
    communities: &[u8],
) -> Result<Request, Refusal>
    ensures { result ≡ request_of (family_of family) (policy_of routes.now settings) (announcement_of rule.now origin communities.now) }
{
    let value = read_with_routes(family, routes, rule)?;
    let Some(actions) = action::actions_of(communities) else {
        return Err(Refusal::UnsoundActions);
    };
    let end = value.start + value.size;
    let feasible = is_feasible(family, settings, routes, &rule[value.start..end], origin);
    Ok(Request {
        start: value.start,
        size: value.size,
        actions,
        feasible,
    })
}
