// Packets of 40 bytes: an IPv4 header of five words, and a TCP header after it, or another protocol's bytes in its place.
pub const CELL_HOST: [u8; 4] = [10, 0, 0, 1];

pub const PLANT_HOST: [u8; 4] = [192, 168, 0, 1];

// Port 40000 to port 80, and back.
const PORTS: [u8; 4] = [156, 64, 0, 80];

const PORTS_BACK: [u8; 4] = [0, 80, 156, 64];

pub const TCP: u8 = 6;

const UDP: u8 = 17;

pub const FIN: u8 = 1;

pub const SYN: u8 = 2;

pub const ACK: u8 = 16;

// A packet of forty bytes, an IPv4 header and a TCP one, from these parts; a UDP one has the same length.
fn packet(protocol: u8, from: [u8; 4], to: [u8; 4], ports: [u8; 4], flags: u8) -> [u8; 40] {
    let mut bytes = [0; 40];
    bytes[12..24].copy_from_slice([from, to, ports].as_flattened());
    bytes[0] = 0x45;
    bytes[3] = 40;
    bytes[9] = protocol;
    bytes[33] = flags;
    bytes
}

// What a machine sends to the plant's first by TCP, with these flags.
pub fn tcp_to_plant(machine: [u8; 4], flags: u8) -> [u8; 40] {
    packet(TCP, machine, PLANT_HOST, PORTS, flags)
}

// What it is sent back.
pub fn tcp_from_plant(machine: [u8; 4], flags: u8) -> [u8; 40] {
    packet(TCP, PLANT_HOST, machine, PORTS_BACK, flags)
}

// What the cell's first machine sends to another by UDP.
pub fn udp_to(machine: [u8; 4]) -> [u8; 40] {
    packet(UDP, CELL_HOST, machine, PORTS, 0)
}

// What it is sent by UDP.
pub fn udp_from(machine: [u8; 4]) -> [u8; 40] {
    packet(UDP, machine, CELL_HOST, PORTS_BACK, 0)
}
