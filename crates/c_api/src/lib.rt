// The public calls for C and Rust. A slice is a pointer and a length, and `&mut [u64; 2]` is a `uint64_t out[2]`. Each function but
// `flowspec_interface` is the call in words of its name (crate calls) for the family of its number, 4 for IPv4 and 6 for IPv6, and promises
// what that call does. No promise can name a C function: rust/flowspec/tests/names.rs holds names, families and parameters to each other and
// to the header.
#![tactic(auto)]

ghost use Rattle.std.specs.Prelude.{◌≡◌};
ghost use Rattle.rule.specs.Family.{ipv4, ipv6};
ghost use Rattle.request.specs.Input.{origin_of};
ghost use Rattle.calls.specs.Word.{interface_number, settings_in};
ghost use Rattle.calls.specs.Promise.{ReadCall, WriteCall, CompareCall, FeasibleCall, ActionsCall, AnnounceCall, WithdrawCall, ReachCall, UnreachCall, LookupCall, FirstMatchCall};

use rule::AddressFamily;

// ---- The interface ----

// The number of the interface, which the header has as FLOWSPEC_INTERFACE.
#[unsafe(no_mangle)]
pub extern "C" fn flowspec_interface() -> u64
    ensures { result ≡ interface_number }
{
    5
}

// ---- IPv4 (RFC 8955) ----

// Reads one rule.
#[unsafe(no_mangle)]
pub extern "C" fn flowspec4_read(rule: &[u8], out: &mut [u64; 2]) -> u64
    ensures { ReadCall ipv4
        (record { rule = rule.now; out = out.old })
        result
        (record { rule = rule.now; out = out.new }) }
{
    calls::read(AddressFamily::Ipv4, rule, out)
}

// Writes one rule from its value to the front of a buffer.
#[unsafe(no_mangle)]
pub extern "C" fn flowspec4_write(value: &[u8], buf: &mut [u8], out: &mut [u64; 1]) -> u64
    ensures { WriteCall ipv4
        (record { value = value.now; buf = buf.old; out = out.old })
        result
        (record { value = value.now; buf = buf.new; out = out.new }) }
{
    calls::write(AddressFamily::Ipv4, value, buf, out)
}

// Compares two rules by their precedence.
#[unsafe(no_mangle)]
pub extern "C" fn flowspec4_compare(a: &[u8], b: &[u8], out: &mut [u64; 1]) -> u64
    ensures { CompareCall ipv4
        (record { a = a.now; b = b.now; out = out.old })
        result
        (record { a = a.now; b = b.now; out = out.new }) }
{
    calls::compare(AddressFamily::Ipv4, a, b, out)
}

// Judges whether a rule is feasible for an originator by the lent routes.
#[unsafe(no_mangle)]
pub extern "C" fn flowspec4_feasible(
    routes: &[u32],
    allow_no_destination: u32,
    rule: &[u8],
    originator: u32,
) -> u64
    ensures { FeasibleCall ipv4 (settings_in allow_no_destination) (origin_of originator)
        (record { routes = routes.now; rule = rule.now })
        result
        (record { routes = routes.now; rule = rule.now }) }
{
    calls::feasible(
        AddressFamily::Ipv4,
        routes,
        allow_no_destination,
        rule,
        originator,
    )
}

// Reads the filtering actions of a rule's communities, whatever the rule's family.
#[unsafe(no_mangle)]
pub extern "C" fn flowspec4_actions(communities: &[u8], out: &mut [u64; 6]) -> u64
    ensures { ActionsCall
        (record { communities = communities.now; out = out.old })
        result
        (record { communities = communities.now; out = out.new }) }
{
    calls::actions(communities, out)
}

// Announces a rule with its actions to a table.
#[unsafe(no_mangle)]
pub extern "C" fn flowspec4_announce(
    table: &mut [u8],
    routes: &[u32],
    allow_no_destination: u32,
    rule: &[u8],
    originator: u32,
    communities: &[u8],
    out: &mut [u64; 1],
) -> u64
    ensures { AnnounceCall ipv4 (settings_in allow_no_destination) (origin_of originator)
        (record {
          table = table.old;
          routes = routes.now;
          rule = rule.now;
          communities = communities.now;
          out = out.old;
        })
        result
        (record {
          table = table.new;
          routes = routes.now;
          rule = rule.now;
          communities = communities.now;
          out = out.new;
        }) }
{
    calls::announce(
        AddressFamily::Ipv4,
        table,
        routes,
        allow_no_destination,
        rule,
        originator,
        communities,
        out,
    )
}

// Withdraws a rule from a table.
#[unsafe(no_mangle)]
pub extern "C" fn flowspec4_withdraw(table: &mut [u8], rule: &[u8]) -> u64
    ensures { WithdrawCall ipv4
        (record { table = table.old; rule = rule.now })
        result
        (record { table = table.new; rule = rule.now }) }
{
    calls::withdraw(AddressFamily::Ipv4, table, rule)
}

// Announces the rules of an MP_REACH_NLRI attribute to a table.
#[unsafe(no_mangle)]
pub extern "C" fn flowspec4_reach(
    table: &mut [u8],
    routes: &[u32],
    allow_no_destination: u32,
    attribute: &[u8],
    originator: u32,
    communities: &[u8],
    answers: &mut [u32],
    out: &mut [u64; 2],
) -> u64
    ensures { ReachCall ipv4 (settings_in allow_no_destination) (origin_of originator)
        (record {
          table = table.old;
          routes = routes.now;
          attribute = attribute.now;
          communities = communities.now;
          answers = answers.old;
          out = out.old;
        })
        result
        (record {
          table = table.new;
          routes = routes.now;
          attribute = attribute.now;
          communities = communities.now;
          answers = answers.new;
          out = out.new;
        }) }
{
    calls::reach(
        AddressFamily::Ipv4,
        table,
        routes,
        allow_no_destination,
        attribute,
        originator,
        communities,
        answers,
        out,
    )
}

// Withdraws the rules of an MP_UNREACH_NLRI attribute from a table.
#[unsafe(no_mangle)]
pub extern "C" fn flowspec4_unreach(
    table: &mut [u8],
    attribute: &[u8],
    answers: &mut [u32],
    out: &mut [u64; 1],
) -> u64
    ensures { UnreachCall ipv4
        (record {
          table = table.old;
          attribute = attribute.now;
          answers = answers.old;
          out = out.old;
        })
        result
        (record {
          table = table.new;
          attribute = attribute.now;
          answers = answers.new;
          out = out.new;
        }) }
{
    calls::unreach(AddressFamily::Ipv4, table, attribute, answers, out)
}

// Looks a packet up in a table.
#[unsafe(no_mangle)]
pub extern "C" fn flowspec4_lookup(table: &[u8], packet: &[u8], out: &mut [u64; 7]) -> u64
    ensures { LookupCall ipv4
        (record { table = table.now; packet = packet.now; out = out.old })
        result
        (record { table = table.now; packet = packet.now; out = out.new }) }
{
    calls::lookup(AddressFamily::Ipv4, table, packet, out)
}

// Locates the first match's record in a table.
#[unsafe(no_mangle)]
pub extern "C" fn flowspec4_first_match(table: &[u8], packet: &[u8], out: &mut [u64; 2]) -> u64
    ensures { FirstMatchCall ipv4
        (record { table = table.now; packet = packet.now; out = out.old })
        result
        (record { table = table.now; packet = packet.now; out = out.new }) }
{
    calls::first_match(AddressFamily::Ipv4, table, packet, out)
}

// ---- IPv6 (RFC 8956) ----

// Reads one rule.
#[unsafe(no_mangle)]
pub extern "C" fn flowspec6_read(rule: &[u8], out: &mut [u64; 2]) -> u64
    ensures { ReadCall ipv6
        (record { rule = rule.now; out = out.old })
        result
        (record { rule = rule.now; out = out.new }) }
{
    calls::read(AddressFamily::Ipv6, rule, out)
}

// Writes one rule from its value to the front of a buffer.
#[unsafe(no_mangle)]
pub extern "C" fn flowspec6_write(value: &[u8], buf: &mut [u8], out: &mut [u64; 1]) -> u64
    ensures { WriteCall ipv6
        (record { value = value.now; buf = buf.old; out = out.old })
        result
        (record { value = value.now; buf = buf.new; out = out.new }) }
{
    calls::write(AddressFamily::Ipv6, value, buf, out)
}

// Compares two rules by their precedence.
#[unsafe(no_mangle)]
pub extern "C" fn flowspec6_compare(a: &[u8], b: &[u8], out: &mut [u64; 1]) -> u64
    ensures { CompareCall ipv6
        (record { a = a.now; b = b.now; out = out.old })
        result
        (record { a = a.now; b = b.now; out = out.new }) }
{
    calls::compare(AddressFamily::Ipv6, a, b, out)
}

// Judges whether a rule is feasible for an originator by the lent routes.
#[unsafe(no_mangle)]
pub extern "C" fn flowspec6_feasible(
    routes: &[u32],
    allow_no_destination: u32,
    rule: &[u8],
    originator: u32,
) -> u64
    ensures { FeasibleCall ipv6 (settings_in allow_no_destination) (origin_of originator)
        (record { routes = routes.now; rule = rule.now })
        result
        (record { routes = routes.now; rule = rule.now }) }
{
    calls::feasible(
        AddressFamily::Ipv6,
        routes,
        allow_no_destination,
        rule,
        originator,
    )
}

// Announces a rule with its actions to a table.
#[unsafe(no_mangle)]
pub extern "C" fn flowspec6_announce(
    table: &mut [u8],
    routes: &[u32],
    allow_no_destination: u32,
    rule: &[u8],
    originator: u32,
    communities: &[u8],
    out: &mut [u64; 1],
) -> u64
    ensures { AnnounceCall ipv6 (settings_in allow_no_destination) (origin_of originator)
        (record {
          table = table.old;
          routes = routes.now;
          rule = rule.now;
          communities = communities.now;
          out = out.old;
        })
        result
        (record {
          table = table.new;
          routes = routes.now;
          rule = rule.now;
          communities = communities.now;
          out = out.new;
        }) }
{
    calls::announce(
        AddressFamily::Ipv6,
        table,
        routes,
        allow_no_destination,
        rule,
        originator,
        communities,
        out,
    )
}

// Withdraws a rule from a table.
#[unsafe(no_mangle)]
pub extern "C" fn flowspec6_withdraw(table: &mut [u8], rule: &[u8]) -> u64
    ensures { WithdrawCall ipv6
        (record { table = table.old; rule = rule.now })
        result
        (record { table = table.new; rule = rule.now }) }
{
    calls::withdraw(AddressFamily::Ipv6, table, rule)
}

// Announces the rules of an MP_REACH_NLRI attribute to a table.
#[unsafe(no_mangle)]
pub extern "C" fn flowspec6_reach(
    table: &mut [u8],
    routes: &[u32],
    allow_no_destination: u32,
    attribute: &[u8],
    originator: u32,
    communities: &[u8],
    answers: &mut [u32],
    out: &mut [u64; 2],
) -> u64
    ensures { ReachCall ipv6 (settings_in allow_no_destination) (origin_of originator)
        (record {
          table = table.old;
          routes = routes.now;
          attribute = attribute.now;
          communities = communities.now;
          answers = answers.old;
          out = out.old;
        })
        result
        (record {
          table = table.new;
          routes = routes.now;
          attribute = attribute.now;
          communities = communities.now;
          answers = answers.new;
          out = out.new;
        }) }
{
    calls::reach(
        AddressFamily::Ipv6,
        table,
        routes,
        allow_no_destination,
        attribute,
        originator,
        communities,
        answers,
        out,
    )
}

// Withdraws the rules of an MP_UNREACH_NLRI attribute from a table.
#[unsafe(no_mangle)]
pub extern "C" fn flowspec6_unreach(
    table: &mut [u8],
    attribute: &[u8],
    answers: &mut [u32],
    out: &mut [u64; 1],
) -> u64
    ensures { UnreachCall ipv6
        (record {
          table = table.old;
          attribute = attribute.now;
          answers = answers.old;
          out = out.old;
        })
        result
        (record {
          table = table.new;
          attribute = attribute.now;
          answers = answers.new;
          out = out.new;
        }) }
{
    calls::unreach(AddressFamily::Ipv6, table, attribute, answers, out)
}

// Looks a packet up in a table.
#[unsafe(no_mangle)]
pub extern "C" fn flowspec6_lookup(table: &[u8], packet: &[u8], out: &mut [u64; 7]) -> u64
    ensures { LookupCall ipv6
        (record { table = table.now; packet = packet.now; out = out.old })
        result
        (record { table = table.now; packet = packet.now; out = out.new }) }
{
    calls::lookup(AddressFamily::Ipv6, table, packet, out)
}

// Locates the first match's record in a table.
#[unsafe(no_mangle)]
pub extern "C" fn flowspec6_first_match(table: &[u8], packet: &[u8], out: &mut [u64; 2]) -> u64
    ensures { FirstMatchCall ipv6
        (record { table = table.now; packet = packet.now; out = out.old })
        result
        (record { table = table.now; packet = packet.now; out = out.new }) }
{
    calls::first_match(AddressFamily::Ipv6, table, packet, out)
}
