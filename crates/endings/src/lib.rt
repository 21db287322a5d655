// The lines in which a program that replays a capture says how it ended, put into lent room.
#![tactic(auto, using(lines::proofs::Rooms::put_more))]

ghost use Rattle.std.specs.Prelude.{◌≡◌};
ghost use Rattle.lines.specs.Room.{put};
ghost use Rattle.lines.specs.Rooms.{room_in};
ghost use Rattle.endings.specs.Endings.{one_more, ending, header_refused};

use lines::Room;
use refused::Refusal;

// One more of what is counted in 64 bits; after the largest number comes 0.
pub fn one_more(number: u64) -> u64
    ensures { result ≡ one_more number }
{
    number.wrapping_add(1)
}

// Puts the lines for when no more records come: that of a record which is refused by 8, if one is, and the last line.
pub fn put_ending(room: &mut Room, records: u64, refusals: u64, is_refused: bool)
    ensures same { room.new.bytes.ghost_name ≡ room.old.bytes.ghost_name }
    ensures put { room_in room.new ≡ put (ending is_refused records refusals) (room_in room.old) }
{
    if is_refused {
        room.line(one_more(records), Err(Refusal::Record));
        room.last_line(records, one_more(refusals));
    } else {
        room.last_line(records, refusals);
    }
}

// Puts all that is printed of a capture whose header is refused, by the refusal's number, which may be any.
pub fn put_refused_header(room: &mut Room, number: u8)
    ensures same { room.new.bytes.ghost_name ≡ room.old.bytes.ghost_name }
    ensures put { room_in room.new ≡ put (header_refused number) (room_in room.old) }
{
    room.refused_line(0, number);
    room.last_line(0, 1);
}
