// The gateway's archive for programs in C and Rust: what `embed` does, under the names that they call. include/spritgrommet.h says what each
// call does and answers. Each export hands on to `embed`, and states its contract again.
// Kept: the C interface has no struct that holds lent memory, so that what a gateway and a site are is lent to each call part by part.
#![tactic(auto)]

ghost use Rattle.std.specs.Prelude.{◌≡◌};
ghost use Rattle.rulings.specs.Rules.{rules_of};
ghost use Rattle.settings.specs.Settings.{factory_settings};
ghost use Rattle.permute.specs.Permutation.{E, D};
ghost use Rattle.sides.specs.Lists.{winning_of};
ghost use Rattle.capture.specs.Capture.{opened_of, next_of};
ghost use Rattle.capture.specs.Format.{content_of};
ghost use Rattle.capture.specs.Writing.{header_put, record_put};
ghost use Rattle.refused.specs.Refused.{refusal_in};
ghost use Rattle.gateway.specs.Calls.{lent, left, no_placing, started, passed, judged};
ghost use Rattle.frames.specs.Frames.{frame_judged};
ghost use Rattle.tally.specs.Tally.{tallied};
ghost use Rattle.embed.specs.Plain.{plainly, plain_answer, plain_winner, plain_opening, plain_next, plain_put_of, plain_put, verdict_in};

use capture::Cursor;
use embed::plain::{PlainAnswer, PlainNext, PlainOpening, PlainStarted, PlainWinner, PlainWritten};
use places::Placing;
use settings::{Limits, Settings};
use tally::Tally;

// The factory settings.
#[unsafe(no_mangle)]
pub extern "C" fn spritgrommet_factory() -> Settings
    ensures { result ≡ factory_settings }
{
    embed::spritgrommet_factory()
}

// Starts cold at a time. The answer is the number of the refusal, or 0, and what places packets in the tables, for the calls that follow.
#[unsafe(no_mangle)]
pub extern "C" fn spritgrommet_cold_start(
    set: Settings,
    records: &mut [u8],
    tags: &mut [u32],
    counts: &mut [i16],
    clock: &mut u32,
    time: u32,
) -> PlainStarted
    ensures { left result.placing records tags counts clock result.refusal
        ≡ plainly refusal_in (started set time (lent no_placing records tags counts clock)) }
{
    embed::spritgrommet_cold_start(set, records, tags, counts, clock, time)
}

// Passes a time, with no packet. The answer is the number of the refusal, or 0.
#[unsafe(no_mangle)]
pub extern "C" fn spritgrommet_pass(
    placing: Placing,
    records: &mut [u8],
    tags: &mut [u32],
    counts: &mut [i16],
    clock: &mut u32,
    limits: Limits,
    time: u32,
) -> u8
    ensures { left placing records tags counts clock result
        ≡ plainly refusal_in (passed (rules_of limits) limits time (lent placing records tags counts clock)) }
{
    embed::spritgrommet_pass(placing, records, tags, counts, clock, limits, time)
}

// Judges a packet, from its IPv4 header on, that comes at a time. The answer is the refusal, or the verdict with what belongs to it.
#[unsafe(no_mangle)]
pub extern "C" fn spritgrommet_judge(
    placing: Placing,
    cell: &[u8],
    plant: &[u8],
    records: &mut [u8],
    tags: &mut [u32],
    counts: &mut [i16],
    clock: &mut u32,
    limits: Limits,
    time: u32,
    packet: &[u8],
) -> PlainAnswer
    ensures { left placing records tags counts clock result
        ≡ plainly plain_answer
        (judged (rules_of limits) limits cell.now plant.now time packet.now
        (lent placing records tags counts clock)) }
{
    embed::spritgrommet_judge(
        placing, cell, plant, records, tags, counts, clock, limits, time, packet,
    )
}

// Judges what an Ethernet frame that comes at a time carries. The answer is as for a packet.
#[unsafe(no_mangle)]
pub extern "C" fn spritgrommet_judge_frame(
    placing: Placing,
    cell: &[u8],
    plant: &[u8],
    records: &mut [u8],
    tags: &mut [u32],
    counts: &mut [i16],
    clock: &mut u32,
    limits: Limits,
    time: u32,
    frame: &[u8],
) -> PlainAnswer
    ensures { left placing records tags counts clock result
        ≡ plainly plain_answer
        (frame_judged (rules_of limits) limits cell.now plant.now time frame.now
        (lent placing records tags counts clock)) }
{
    embed::spritgrommet_judge_frame(
        placing, cell, plant, records, tags, counts, clock, limits, time, frame,
    )
}

// The entry of the side lists that decides on an address: whose list has it, and its place there.
#[unsafe(no_mangle)]
pub extern "C" fn spritgrommet_winner(cell: &[u8], plant: &[u8], address: u32) -> PlainWinner
    ensures { result ≡ plain_winner (winning_of cell.now plant.now address) }
{
    embed::spritgrommet_winner(cell, plant, address)
}

// The address permutation E of a word, under eight round keys.
#[unsafe(no_mangle)]
pub extern "C" fn spritgrommet_encrypt(keys: &[u32; 8], word: u32) -> u32
    ensures { result ≡ E keys.now word }
{
    embed::spritgrommet_encrypt(keys, word)
}

// The inverse of E, of a word, under the same keys.
#[unsafe(no_mangle)]
pub extern "C" fn spritgrommet_decrypt(keys: &[u32; 8], word: u32) -> u32
    ensures { result ≡ D keys.now word }
{
    embed::spritgrommet_decrypt(keys, word)
}

// Adds an answer's verdict to the tally that is lent. A refusal adds nothing.
#[unsafe(no_mangle)]
pub extern "C" fn spritgrommet_tally(tally: &mut Tally, answer: PlainAnswer)
    ensures { tally.new ≡ tallied tally.old (verdict_in answer) }
{
    embed::spritgrommet_tally(tally, answer);
}

// Reads a capture's header. The answer is refusal 7, or where the first record starts.
#[unsafe(no_mangle)]
pub extern "C" fn spritgrommet_open(bytes: &[u8]) -> PlainOpening
    ensures { result ≡ plain_opening (opened_of bytes.now) }
{
    embed::spritgrommet_open(bytes)
}

// Reads the capture's record at a cursor. The answer is refusal 8, that no byte is left, or the record.
#[unsafe(no_mangle)]
pub extern "C" fn spritgrommet_next(bytes: &[u8], cursor: Cursor) -> PlainNext
    ensures { result ≡ plain_next (next_of bytes.now cursor) }
{
    embed::spritgrommet_next(bytes, cursor)
}

// Writes a capture's header into the room at a place. The answer is refusal 9, or the place of the first record.
#[unsafe(no_mangle)]
pub extern "C" fn spritgrommet_put_header(room: &mut [u8], at: usize) -> PlainWritten
    ensures { plain_put_of result room.new ≡ plain_put (header_put at room.old) }
{
    embed::spritgrommet_put_header(room, at)
}

// Writes a record into the room at a place. The answer is refusal 8 or 9, or the place of the next record.
#[unsafe(no_mangle)]
pub extern "C" fn spritgrommet_put_record(
    room: &mut [u8],
    at: usize,
    seconds: u32,
    microseconds: u32,
    original: u32,
    frame: &[u8],
) -> PlainWritten
    ensures { plain_put_of result room.new
        ≡ plain_put (record_put (content_of seconds microseconds original frame.now) at room.old) }
{
    embed::spritgrommet_put_record(room, at, seconds, microseconds, original, frame)
}
