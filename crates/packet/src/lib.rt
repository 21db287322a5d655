// Reading a packet's headers: IPv4 (RFC 791), then TCP (RFC 9293) or UDP (RFC 768). Options and checksums are not looked at.
#![tactic(auto)]

ghost use Rattle.std.specs.Prelude.{◌≡◌, ◌*◌, ◌%◌, ◌≤◌, length};
ghost use Rattle.packet.specs.Header.{later, needed, with_ports, without_ports, transport_read, read_of};
ghost use Rattle.packet.specs.Kinds.{port_of};

pub mod kinds;

use kinds::Kind;
use refused::Refusal;

const TCP: u8 = 6;

const UDP: u8 = 17;

// What follows the IP header: the ports of TCP and UDP, and the kind. A later fragment and any other protocol have ports 0.
#[derive(Clone, Copy)]
pub struct Transport {
    pub source_port: u16,
    pub destination_port: u16,
    pub kind: Kind,
}

// What reading finds. `later` says that the packet is a later fragment, one with offset above 0.
#[derive(Clone, Copy)]
pub struct Header {
    pub source: u32,
    pub destination: u32,
    pub protocol: u8,
    pub later: bool,
    pub transport: Transport,
}

// The length in bytes of an IP header whose first byte is this.
fn header_length(first: u8) -> usize
    ensures { (result ≡ first % 16 * 4) × (result ≤ 60) }
{
    (first % 16) as usize * 4
}

// Whether a packet is a later fragment: its offset, the low 13 bits of two bytes, is above 0.
#[tactic(auto, using(words::proofs::Words::there))]
fn is_later(bytes: &[u8]) -> bool
    requires { 20 ≤ length bytes.now }
    ensures { result ≡ later bytes.now }
{
    0 < words::two_at(bytes, 6) % 8192
}

// How many bytes a packet must have after its IP header.
#[tactic(auto, unfolding(crate::specs::Header::needed))]
fn needed_after(protocol: u8, later: bool) -> usize
    ensures { (result ≡ needed protocol later) × (result ≤ 20) }
{
    match (later, protocol) {
        (false, TCP) => 20,
        (false, UDP) => 8,
        _ => 0,
    }
}

// Plain, with no ports.
fn portless() -> Transport
    ensures { result ≡ without_ports }
{
    Transport {
        source_port: 0,
        destination_port: 0,
        kind: Kind::Plain,
    }
}

// Two ports, which stand first after the IP header, and a kind.
#[tactic(auto, using(words::proofs::Words::there))]
fn with_ports(rest: &[u8], kind: Kind) -> Transport
    requires { 4 ≤ length rest.now }
    ensures { result ≡ with_ports rest.now 0 kind }
{
    Transport {
        source_port: words::two_at(rest, 0),
        destination_port: words::two_at(rest, 2),
        kind,
    }
}

// What follows the IP header, by the usable bytes that do. It is refused by 5 where the protocol needs more of them.
#[tactic(auto, unfolding(crate::specs::Kinds::kind_of, crate::specs::Header::needed, crate::specs::Header::transport_read))]
fn transport_of(rest: &[u8], protocol: u8, later: bool) -> Result<Transport, Refusal>
    ensures { result ≡ transport_read rest.now protocol later }
{
    if rest.len() < needed_after(protocol, later) {
        return Err(Refusal::Short);
    }
    match (later, protocol) {
        (false, TCP) => Ok(with_ports(rest, kinds::of_flags(rest[13]))),
        (false, UDP) => Ok(with_ports(rest, Kind::Udp)),
        _ => Ok(portless()),
    }
}

// Reads the headers of a packet, and answers what the gateway needs of them. It is refused by 5 or 6, by tests in their order.
#[tactic(auto, using(words::proofs::Words::there), unfolding(crate::specs::Header::read_of, crate::specs::Header::header_refusal))]
pub fn read(bytes: &[u8]) -> Result<Header, Refusal>
    ensures { result ≡ read_of bytes.now }
{
    if bytes.len() < 20 {
        return Err(Refusal::Short);
    }
    let first = bytes[0];
    let start = header_length(first);
    let total = words::two_at(bytes, 2) as usize;
    if ((first / 16 != 4) | (first % 16 < 5)) | (total < start) {
        return Err(Refusal::Header);
    }
    if bytes.len() < start {
        return Err(Refusal::Short);
    }
    let usable = bytes.len().min(total);
    let protocol = bytes[9];
    let later = is_later(bytes);
    Ok(Header {
        source: words::four_at(bytes, 12),
        destination: words::four_at(bytes, 16),
        protocol,
        later,
        transport: transport_of(&bytes[start..usable], protocol, later)?,
    })
}

impl Header {
    // The port of the plant's end, for TCP; otherwise 0, and for a later fragment.
    pub fn port(self, from_plant: bool) -> u16
        ensures { result ≡ port_of self from_plant }
    {
        match (self.later, self.protocol, from_plant) {
            (false, TCP, true) => self.transport.source_port,
            (false, TCP, false) => self.transport.destination_port,
            _ => 0,
        }
    }
}
