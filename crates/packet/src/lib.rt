// What a packet shows (RFC 8955 section 4.2.2, RFC 8956 section 3), or that octets are unusable as one. `packet_of` alone reads the
// packet's octets; what asks a packet goes by what it found. It answers whatever octets it is lent.
#![tactic(auto)]

ghost use Rattle.std.specs.Prelude.{◌≡◌, ◌≤◌, length};
ghost use Rattle.extension.specs.Extension.{reached};
ghost use Rattle.packet.specs.Header.{ipv4_unusable};
ghost use Rattle.packet.specs.Header6.{traffic_class, flow_label, address_at, ipv6_unusable, counted, upper_octets};
ghost use Rattle.packet.specs.Transport.{transport_octets, has_ports, has_icmp, has_flags, transport_fields};
ghost use Rattle.packet.specs.Packet.{fragment_data, ipv4_fields, ipv6_fields, reading_of, packet_of};

use extension::Progress;
use octets::{bit_if, number_at, octet_at};
use prefix::Address;
use rule::Family;

// ---- Answers ----

// The fields of the transport header: of each its number, or none where the packet does not show it.
#[derive(Clone, Copy)]
pub struct Transport {
    pub source_port: Option<u32>,
    pub destination_port: Option<u32>,
    pub icmp_type: Option<u32>,
    pub icmp_code: Option<u32>,
    pub flags: Option<u32>,
}

// What a packet shows.
#[derive(Clone, Copy)]
pub struct Packet {
    pub destination: Address,
    pub source: Address,
    pub protocol: Option<u32>,
    pub length: u32,
    pub dscp: u8,
    pub fragment: u8,
    pub transport: Transport,
    pub label: Option<u32>,
}

// ---- What is shown in either family ----

// The fragment component's data: whether DF is set, whether the fragment offset is 0, and whether more fragments follow.
fn fragment_data(dont: bool, first: bool, more: bool) -> u8
    ensures { result ≡ fragment_data dont first more }
{
    let whole = bit_if(dont, 0x01);
    let later = bit_if(!first, 0x02);
    let begins = bit_if(first & more, 0x04);
    let ends = bit_if(!first & !more, 0x08);
    whole + later + begins + ends
}

// Whether ports are shown, by the protocol and how many transport octets are there.
fn has_ports(protocol: u8, there: usize) -> bool
    ensures { result ≡ has_ports protocol there }
{
    ((protocol == 6) | (protocol == 17)) & (4 <= there)
}

// Whether ICMP's type and code are shown.
fn has_icmp(family: Family, protocol: u8, there: usize) -> bool
    ensures { result ≡ has_icmp family protocol there }
{
    (protocol == family.icmp) & (2 <= there)
}

// Whether TCP's flags are shown.
fn has_flags(protocol: u8, there: usize) -> bool
    ensures { result ≡ has_flags protocol there }
{
    (protocol == 6) & (14 <= there)
}

// The fields that transport octets show under a protocol.
fn transport_fields(family: Family, protocol: u8, octets: &[u8]) -> Transport
    ensures { result ≡ transport_fields family protocol octets.now }
{
    let ports = has_ports(protocol, octets.len());
    let icmp = has_icmp(family, protocol, octets.len());
    let control = has_flags(protocol, octets.len());
    let flags = number_at(2, octets, 12) as u32;
    Transport {
        source_port: ports.then_some(number_at(2, octets, 0) as u32),
        destination_port: ports.then_some(number_at(2, octets, 2) as u32),
        icmp_type: icmp.then_some(octet_at(octets, 0) as u32),
        icmp_code: icmp.then_some(octet_at(octets, 1) as u32),
        flags: control.then_some(flags & 0x0fff),
    }
}

// ---- IPv4 ----

// Whether octets are unusable as an IPv4 packet: too few, another version, or lengths that do not agree.
fn is_unusable_ipv4(family: Family, octets: &[u8]) -> bool
    ensures { result ≡ ipv4_unusable family octets.now }
{
    if octets.len() < 20 {
        return true;
    }
    let first = octets[0];
    let version = first >> 4;
    if version != family.version {
        return true;
    }
    let words = first & 0x0f;
    if words < 5 {
        return true;
    }
    let total = number_at(2, octets, 2);
    let header = 4 * words as u64;
    total < header
}

// The octets behind the header and its options, up to the smaller of the lent and the total length; none in a later fragment.
fn transport_octets(octets: &[u8]) -> &[u8]
    ensures { result.now ≡ transport_octets octets.now }
{
    let words = octet_at(octets, 0) & 0x0f;
    let field = number_at(2, octets, 6);
    let offset = field & 0x1fff;
    let total = number_at(2, octets, 2);
    let start = 4 * words as usize;
    let end = octets.len().min(total as usize);
    if offset != 0 {
        return &[];
    }
    if end < start {
        return &[];
    }
    &octets[start..end]
}

// What octets show as an IPv4 packet.
fn ipv4_packet(family: Family, octets: &[u8]) -> Option<Packet>
    ensures { result ≡ reading_of (ipv4_unusable family octets.now) (ipv4_fields family octets.now) }
{
    if is_unusable_ipv4(family, octets) {
        return None;
    }
    let protocol = octet_at(octets, 9);
    let transport = transport_fields(family, protocol, transport_octets(octets));
    let field = number_at(2, octets, 6);
    let first = field & 0x1fff == 0;
    Some(Packet {
        destination: Address {
            high: 0,
            low: number_at(4, octets, 16),
        },
        source: Address {
            high: 0,
            low: number_at(4, octets, 12),
        },
        protocol: Some(protocol as u32),
        length: number_at(2, octets, 2) as u32,
        dscp: octet_at(octets, 1) >> 2,
        fragment: fragment_data(field & 0x4000 != 0, first, field & 0x2000 != 0),
        transport,
        label: None,
    })
}

// ---- IPv6 ----

// Whether octets are unusable as an IPv6 packet: too few, or another version.
fn is_unusable_ipv6(family: Family, octets: &[u8]) -> bool
    ensures { result ≡ ipv6_unusable family octets.now }
{
    if octets.len() < 40 {
        return true;
    }
    octets[0] >> 4 != family.version
}

// The traffic class.
fn traffic_class(octets: &[u8]) -> u8
    ensures { result ≡ traffic_class octets.now }
{
    let front = number_at(2, octets, 0);
    (front >> 4 & 0xff) as u8
}

// The flow label.
fn flow_label(octets: &[u8]) -> u32
    ensures { result ≡ flow_label octets.now }
{
    let front = number_at(4, octets, 0);
    (front & 0xfffff) as u32
}

// The octets that count: those lent, up to the packet's length.
fn counted_octets(octets: &[u8]) -> &[u8]
    ensures { result.now ≡ counted octets.now }
{
    let length = number_at(2, octets, 4) as usize + 40;
    let end = octets.len().min(length);
    &octets[..end]
}

// The octets from the upper layer's first one on; none where it is not found or behind a fragment offset that is not 0.
fn upper_octets(octets: &[u8], upper: Result<Progress, Progress>) -> &[u8]
    requires { (reached upper).at ≤ length octets.now }
    ensures { result.now ≡ upper_octets octets.now upper }
{
    match upper {
        Ok(progress) if progress.field >> 3 == 0 => &octets[progress.at..],
        _ => &[],
    }
}

// An address of 128 bits that begins at a place.
fn address_at(octets: &[u8], at: usize) -> Address
    requires { at ≤ 40 }
    ensures { result ≡ address_at octets.now at }
{
    Address {
        high: number_at(8, octets, at),
        low: number_at(8, octets, at + 8),
    }
}

// What octets show as an IPv6 packet.
fn ipv6_packet(family: Family, octets: &[u8]) -> Option<Packet>
    ensures { result ≡ reading_of (ipv6_unusable family octets.now) (ipv6_fields family octets.now) }
{
    if is_unusable_ipv6(family, octets) {
        return None;
    }
    let counted = counted_octets(octets);
    let upper = extension::upper_layer(counted);
    let (Ok(progress) | Err(progress)) = upper;
    let first = progress.field >> 3 == 0;
    let transport = transport_fields(family, progress.kind, upper_octets(counted, upper));
    Some(Packet {
        destination: address_at(octets, 24),
        source: address_at(octets, 8),
        protocol: upper.is_ok().then_some(progress.kind as u32),
        length: number_at(2, octets, 4) as u32 + 40,
        dscp: traffic_class(octets) >> 2,
        fragment: fragment_data(false, first, progress.field & 1 != 0),
        transport,
        label: Some(flow_label(octets)),
    })
}

// ---- Either ----

// What octets show as a packet of a family.
pub fn packet_of(family: Family, octets: &[u8]) -> Option<Packet>
    ensures { result ≡ packet_of family octets.now }
{
    if family.version == 4 {
        return ipv4_packet(family, octets);
    }
    ipv6_packet(family, octets)
}
