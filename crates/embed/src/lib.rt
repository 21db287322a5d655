// The gateway's calls over plain numbers and lent memory, for programs in C and Rust: `embed_c` makes their archive. include/spritgrommet.h
// says what each of them does and answers. Each function hands on to the crate that does the work; only that a short frame is refused by 5
// and a bad record by 8 is said here again.
// Kept: the C interface has no struct that holds lent memory, so that what a gateway and a site are is lent to each call part by part.
#![tactic(auto)]

ghost use Rattle.std.specs.Prelude.{◌≡◌};
ghost use Rattle.rulings.specs.Rules.{rules_of};
ghost use Rattle.settings.specs.Settings.{factory_settings};
ghost use Rattle.permute.specs.Permutation.{E, D};
ghost use Rattle.sides.specs.Lists.{winning_of};
ghost use Rattle.capture.specs.Capture.{opened_of, next_of};
ghost use Rattle.capture.specs.Format.{content_of};
ghost use Rattle.capture.specs.Writing.{header_put, record_put};
ghost use Rattle.refused.specs.Refused.{refusal_in};
ghost use Rattle.gateway.specs.Calls.{lent, left, no_placing, started, passed, judged};
ghost use Rattle.frames.specs.Frames.{frame_judged};
ghost use Rattle.tally.specs.Tally.{tallied};
ghost use Rattle.embed.specs.Plain.{plainly, plain_answer, plain_winner, plain_opening, plain_next, plain_put_of, plain_put, verdict_in};

pub mod plain;

use capture::Cursor;
use frames::Inside;
use gateway::{Gateway, Site};
use places::Placing;
use plain::{PlainAnswer, PlainNext, PlainOpening, PlainStarted, PlainWinner, PlainWritten};
use refused::Refusal;
use rulings::answers::Answer;
use settings::{Limits, Settings};
use tally::Tally;

// The factory settings.
pub fn spritgrommet_factory() -> Settings
    ensures { result ≡ factory_settings }
{
    Settings::factory()
}

// Starts cold at a time. The answer is the number of the refusal, or 0, and what places packets in the tables, for the calls that follow.
pub fn spritgrommet_cold_start(
    set: Settings,
    records: &mut [u8],
    tags: &mut [u32],
    counts: &mut [i16],
    clock: &mut u32,
    time: u32,
) -> PlainStarted
    ensures { left result.placing records tags counts clock result.refusal
        ≡ plainly refusal_in (started set time (lent no_placing records tags counts clock)) }
{
    let mut gateway = Gateway {
        placing: Placing { keys: [0; 8] },
        records,
        tags,
        counts,
        clock,
    };
    let reply = gateway.start(set, time);
    PlainStarted {
        refusal: plain::of_reply(reply),
        placing: gateway.placing,
    }
}

// Passes a time, with no packet. The answer is the number of the refusal, or 0.
pub fn spritgrommet_pass(
    placing: Placing,
    records: &mut [u8],
    tags: &mut [u32],
    counts: &mut [i16],
    clock: &mut u32,
    limits: Limits,
    time: u32,
) -> u8
    ensures { left placing records tags counts clock result
        ≡ plainly refusal_in (passed (rules_of limits) limits time (lent placing records tags counts clock)) }
{
    let mut gateway = Gateway {
        placing,
        records,
        tags,
        counts,
        clock,
    };
    let reply = gateway.pass(limits, time);
    plain::of_reply(reply)
}

// Judges a packet, from its IPv4 header on, that comes at a time. The answer is the refusal, or the verdict with what belongs to it.
pub fn spritgrommet_judge(
    placing: Placing,
    cell: &[u8],
    plant: &[u8],
    records: &mut [u8],
    tags: &mut [u32],
    counts: &mut [i16],
    clock: &mut u32,
    limits: Limits,
    time: u32,
    packet: &[u8],
) -> PlainAnswer
    ensures { left placing records tags counts clock result
        ≡ plainly plain_answer
        (judged (rules_of limits) limits cell.now plant.now time packet.now
        (lent placing records tags counts clock)) }
{
    let mut gateway = Gateway {
        placing,
        records,
        tags,
        counts,
        clock,
    };
    let site = Site {
        limits,
        cell,
        plant,
    };
    let answer = gateway.judge(site, time, packet);
    PlainAnswer::from(answer)
}

// Judges what an Ethernet frame that comes at a time carries. The answer is as for a packet.
#[tactic(auto, using(frames::proofs::Cases::has_header), unfolding(frames::specs::Frames::frame_judged))]
pub fn spritgrommet_judge_frame(
    placing: Placing,
    cell: &[u8],
    plant: &[u8],
    records: &mut [u8],
    tags: &mut [u32],
    counts: &mut [i16],
    clock: &mut u32,
    limits: Limits,
    time: u32,
    frame: &[u8],
) -> PlainAnswer
    ensures { left placing records tags counts clock result
        ≡ plainly plain_answer
        (frame_judged (rules_of limits) limits cell.now plant.now time frame.now
        (lent placing records tags counts clock)) }
{
    match frames::what_is_in(frame) {
        Inside::Short => PlainAnswer::from(Err(Refusal::Short)),
        // By `spritgrommet_judge`, and not by `frames::judge`, so that the archive has the judge once, in the function that is called for
        // every packet.
        Inside::Packet => {
            let carried = &frame[14..];
            spritgrommet_judge(
                placing, cell, plant, records, tags, counts, clock, limits, time, carried,
            )
        }
        Inside::Other => PlainAnswer::from(Ok(Answer::NotOurs)),
    }
}

// The entry of the side lists that decides on an address: whose list has it, and its place there.
pub fn spritgrommet_winner(cell: &[u8], plant: &[u8], address: u32) -> PlainWinner
    ensures { result ≡ plain_winner (winning_of cell.now plant.now address) }
{
    PlainWinner::from(sides::winning_entry(cell, plant, address))
}

// The address permutation E of a word, under eight round keys.
pub fn spritgrommet_encrypt(keys: &[u32; 8], word: u32) -> u32
    ensures { result ≡ E keys.now word }
{
    permute::encrypt(keys, word)
}

// The inverse of E, of a word, under the same keys.
pub fn spritgrommet_decrypt(keys: &[u32; 8], word: u32) -> u32
    ensures { result ≡ D keys.now word }
{
    permute::decrypt(keys, word)
}

// Adds an answer's verdict to the tally that is lent. A refusal adds nothing.
pub fn spritgrommet_tally(tally: &mut Tally, answer: PlainAnswer)
    ensures { tally.new ≡ tallied tally.old (verdict_in answer) }
{
    *tally = plain::tally_with(*tally, answer);
}

// Reads a capture's header. The answer is refusal 7, or where the first record starts.
pub fn spritgrommet_open(bytes: &[u8]) -> PlainOpening
    ensures { result ≡ plain_opening (opened_of bytes.now) }
{
    PlainOpening::from(capture::open(bytes))
}

// Reads the capture's record at a cursor. The answer is refusal 8, that no byte is left, or the record.
pub fn spritgrommet_next(bytes: &[u8], cursor: Cursor) -> PlainNext
    ensures { result ≡ plain_next (next_of bytes.now cursor) }
{
    PlainNext::from(capture::next(bytes, cursor))
}

// Writes a capture's header into the room at a place. The answer is refusal 9, or the place of the first record.
pub fn spritgrommet_put_header(room: &mut [u8], at: usize) -> PlainWritten
    ensures { plain_put_of result room.new ≡ plain_put (header_put at room.old) }
{
    PlainWritten::from(capture::put_header(room, at))
}

// Writes a record into the room at a place. The answer is refusal 8 or 9, or the place of the next record.
pub fn spritgrommet_put_record(
    room: &mut [u8],
    at: usize,
    seconds: u32,
    microseconds: u32,
    original: u32,
    frame: &[u8],
) -> PlainWritten
    ensures { plain_put_of result room.new
        ≡ plain_put (record_put (content_of seconds microseconds original frame.now) at room.old) }
{
    let written = capture::put_record(room, at, seconds, microseconds, original, frame);
    PlainWritten::from(written)
}
