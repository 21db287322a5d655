// What a program that replays a capture puts out for each whole record, into lent room: a line, the record itself where it went through, or
// why it was dropped.
#![tactic(auto)]

ghost use Rattle.std.specs.Prelude.{◌≡◌};
ghost use Rattle.rulings.specs.Answers.{forwarded_told};
ghost use Rattle.lines.specs.Rooms.{room_in};
ghost use Rattle.capture.specs.Format.{content_of};
ghost use Rattle.outputs.specs.Outputs.{forwarded_put, asks_why, told_put, opening_put};

use capture::Record;
use lines::Room;
use reasons::Explanation;
use refused::Refusal;
use rulings::answers::Answer;

// Which program it is: the printing one, the one that writes what was forwarded, or the one that says why, of the one record with its number,
// and of every record that was dropped where it has none.
#[derive(Clone, Copy)]
pub enum Output {
    Lines,
    Forwarded,
    Reasons(Option<u64>),
}

// Whether a program asks of each record why it is dropped.
pub fn asks_why(output: Output) -> bool
    ensures { result ≡ asks_why output }
{
    matches!(output, Output::Reasons(_))
}

// Whether an answer lets the packet through. What is not ours goes through; what is refused does not.
fn is_forwarded(answer: Result<Answer, Refusal>) -> bool
    ensures { result ≡ forwarded_told answer }
{
    match answer {
        Err(_) => false,
        Ok(Answer::NotOurs) => true,
        Ok(Answer::Judged { verdict, .. }) => !verdicts::is_dropped(verdict),
    }
}

// Puts a record that went through. A record for which there is no room is not written, and the place stays.
#[tactic(auto, unfolding(crate::specs::Outputs::forwarded_put))]
fn put_forwarded(room: &mut Room, read: Record, frame: &[u8], answer: Result<Answer, Refusal>)
    ensures same { room.new.bytes.ghost_name ≡ room.old.bytes.ghost_name }
    ensures put { room_in room.new
        ≡ forwarded_put (content_of read.seconds read.microseconds read.original frame.now) answer (room_in room.old) }
{
    if is_forwarded(answer) {
        let written = capture::put_record(
            room.bytes,
            room.at,
            read.seconds,
            read.microseconds,
            read.original,
            frame,
        );
        room.at = written.unwrap_or(room.at);
    }
}

// Puts what a program puts out for a whole record: its number, what its header says, its captured bytes, what the gateway answered, and what
// it says why where that was asked.
pub fn put_told(
    output: Output,
    room: &mut Room,
    number: u64,
    read: Record,
    frame: &[u8],
    answer: Result<Answer, Refusal>,
    asked: Option<Result<Explanation, Refusal>>,
)
    ensures same { room.new.bytes.ghost_name ≡ room.old.bytes.ghost_name }
    ensures put { room_in room.new
        ≡ told_put output number (content_of read.seconds read.microseconds read.original frame.now) answer asked
        (room_in room.old) }
{
    match output {
        Output::Lines => room.line(number, answer),
        Output::Forwarded => put_forwarded(room, read, frame, answer),
        Output::Reasons(wanted) => {
            explanations::put_asked(room, wanted, number, read.seconds, asked)
        }
    }
}

// Puts what a program puts out before the first record, once the capture's header is read: a header of its own, or nothing.
pub fn put_opening(output: Output, room: &mut Room)
    ensures same { room.new.bytes.ghost_name ≡ room.old.bytes.ghost_name }
    ensures put { room_in room.new ≡ opening_put output (room_in room.old) }
{
    if matches!(output, Output::Forwarded) {
        room.at = capture::put_header(room.bytes, room.at).unwrap_or(room.at);
    }
}
