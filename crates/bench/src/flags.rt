// Packets for four runs of SYN with something odd beside it (document 02, K5). Turns 29 to 37: a plant machine opens a connection to a cell
// machine, which then tries five strangers and is blocked, and sends the tester's SYN+FIN on that connection; an ACK after it finds the
// plant's mark alone, as if no SYN+FIN had been sent, and earns a credit, so that the same SYN+FIN, from a machine that is not blocked any
// more, passes. The other runs have every value of FIN, SYN, RST and ACK, with PSH beside them or not, by turn: turns 64 to 95 from a blocked
// machine on a slot with both marks, which turns 56 to 63 bring about; turns 96 to 127 from a new machine each on a slot with neither mark;
// turns 128 to 191 in pairs, a packet of the plant's and the one that answers it, from a new machine each.
use crate::packets;

const SYN_FIN: u8 = packets::SYN | packets::FIN;

// New machines of the cell by number, scattered so that no two of them share a slot and no five a line.
fn new_machine(number: u8) -> [u8; 4] {
    [10, number, number, number]
}

// A contact with a plant machine that says nothing.
fn to_stranger(number: u8) -> [u8; 40] {
    packets::udp_to([192, 168, 0, number])
}

// What the plant sends at an even turn, and the new machine's answer at the odd one after it.
fn spoken_or_answered(turn: u8) -> [u8; 40] {
    let machine = new_machine(turn / 2);
    if turn % 2 == 0 {
        packets::tcp_from_plant(machine, packets::ACK)
    } else {
        packets::tcp_to_plant(machine, turn / 2 % 32)
    }
}

// The packet of a turn from 29 on. Where the flags go by turn, they are its low five bits, or in pairs those of its half.
pub fn packet_of(turn: u8) -> [u8; 40] {
    let cell = packets::CELL_HOST;
    match turn {
        29 => packets::tcp_from_plant(cell, packets::SYN),
        35 | 37 => packets::tcp_to_plant(cell, SYN_FIN),
        36 => packets::tcp_to_plant(cell, packets::ACK),
        56 => packets::tcp_to_plant(cell, packets::SYN),
        57 => packets::tcp_from_plant(cell, packets::SYN | packets::ACK),
        30..=34 | 58..=63 => to_stranger(turn),
        64..=95 => packets::tcp_to_plant(cell, turn % 32),
        96..=127 => packets::tcp_to_plant(new_machine(turn), turn % 32),
        _ => spoken_or_answered(turn),
    }
}
