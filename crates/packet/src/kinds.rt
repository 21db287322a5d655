// The kinds of packet.
ghost use Rattle.std.specs.Prelude.{◌≡◌};
ghost use Rattle.packet.specs.Kinds.{flag_number, tcp_kind};

// What a packet is, as far as verdicts look: UDP, a TCP packet that opens, answers or closes a connection, or any other.
#[derive(Clone, Copy, PartialEq, Eq)]
pub enum Kind {
    Udp,
    Opening,
    SynAck,
    Closing,
    Plain,
}

// The kind of a TCP packet. FIN, SYN, RST and ACK make a number; the other four flags are left out. SYN without ACK opens, whatever stands
// beside it: several stacks take it so.
// Kept: opening has two arms, without FIN and with it, since the compiler tests keys that lie side by side in one arm range by range.
#[tactic(auto, unfolding(crate::specs::Kinds::tcp_kind))]
pub fn of_flags(flags: u8) -> Kind
    ensures { result ≡ tcp_kind (flag_number flags) }
{
    let number = flags % 8 + flags / 16 % 2 * 16;
    match number {
        2 | 6 => Kind::Opening,
        3 | 7 => Kind::Opening,
        18 => Kind::SynAck,
        1 | 4 | 17 | 20 => Kind::Closing,
        _ => Kind::Plain,
    }
}
