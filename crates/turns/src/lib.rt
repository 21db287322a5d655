// What a program that replays a capture decides in a turn: when it reads, when it goes on, what it says at the end, and where. Who reads and
// writes asks here, and does as it is told.
#![tactic(auto)]

ghost use Rattle.std.specs.Prelude.{is_err, ◌≡◌};
ghost use Rattle.capture.specs.Capture.{opened_of};
ghost use Rattle.gateway.specs.Calls.{SameMemory, state_in};
ghost use Rattle.streams.specs.Streams.{held_after};
ghost use Rattle.lines.specs.Room.{lent_room, left_room, put};
ghost use Rattle.turns.specs.Turns.{first_stage, begun_anew, is_early, refilled_stage, taken_stage, written_stage, is_sound, goes_on, lacks_header};
ghost use Rattle.turns.specs.Turns.{ends_refused, ending_due, ending_stream, beginning_stream, is_missing, missing_due, lost_words};
ghost use Rattle.turns.specs.Turns.{beginning_of, begun_by, turn_of, turn_taken};

use capture::Cursor;
use feeding::Progress;
use gateway::Gateway;
use lines::Room;
use outputs::Output;
use std::io;

// The system's numbers of a read that has to wait for bytes, where input does not block, and of one that a signal interrupted.
const EAGAIN: i32 = 11;

const EINTR: i32 = 4;

// Where a program writes.
#[derive(Clone, Copy)]
pub enum Stream {
    Stdout,
    Stderr,
}

// What the last read told of input: it may bring more, it has ended, or the read failed.
#[derive(Clone, Copy)]
pub enum Source {
    Open,
    Ended,
    Lost,
}

// How many bytes of input are held, how far the program has come, whether more bytes are wanted before it comes further, what the last read
// told of input, and whether all that was put out so far was written.
#[derive(Clone, Copy)]
pub struct Stage {
    pub held: usize,
    pub progress: Progress,
    pub wants_bytes: bool,
    pub source: Source,
    pub is_written: bool,
}

// How many bytes were put before the first record, and where that stands and in which byte order, if the header opens.
#[derive(Clone, Copy)]
pub struct Begun {
    pub put: usize,
    pub first: Option<Cursor>,
}

// Before the first turn, where the opening was written or not.
pub fn first(is_written: bool) -> Stage
    ensures { result ≡ first_stage is_written }
{
    Stage {
        held: 0,
        progress: Progress {
            at: 0,
            put: 0,
            records: 0,
            refusals: 0,
            has_more: true,
            is_over: false,
        },
        wants_bytes: true,
        source: Source::Open,
        is_written,
    }
}

// The same counts, with nothing put and the next record at the front of the bytes at hand.
fn anew(progress: Progress) -> Progress
    ensures { result ≡ begun_anew progress }
{
    Progress {
        at: 0,
        put: 0,
        has_more: true,
        ..progress
    }
}

// Whether a read that failed by this error of the system's would only have had to wait: for bytes, or for a signal to pass.
pub fn is_early(error: i32) -> bool
    ensures { result ≡ is_early error }
{
    matches!(error, EAGAIN | EINTR)
}

// After a read, which answered how many bytes are held then, or that it failed.
pub fn refilled(stage: Stage, filled: io::Result<usize>) -> Stage
    ensures { result ≡ refilled_stage stage (held_after stage.held filled) (is_err filled) }
{
    match filled {
        Ok(held) => Stage {
            held,
            source: if held <= stage.held {
                Source::Ended
            } else {
                Source::Open
            },
            ..stage
        },
        Err(_) => Stage {
            source: Source::Lost,
            ..stage
        },
    }
}

// After the whole records at hand were told. More bytes are wanted where those at hand hold no further whole record, or where there are none.
fn taken(stage: Stage, held: usize, progress: Progress) -> Stage
    ensures { result ≡ taken_stage stage held progress }
{
    Stage {
        held,
        progress,
        wants_bytes: !progress.has_more | (held == 0),
        ..stage
    }
}

// After what was put was written, or not.
pub fn written(stage: Stage, is_written: bool) -> Stage
    ensures { result ≡ written_stage stage is_written }
{
    Stage {
        is_written: stage.is_written & is_written,
        ..stage
    }
}

// Whether nothing was lost, in or out.
pub fn is_sound(stage: Stage) -> bool
    ensures { result ≡ is_sound stage }
{
    stage.is_written & !matches!(stage.source, Source::Lost)
}

// Whether there is to be another turn.
pub fn goes_on(stage: Stage) -> bool
    ensures { result ≡ goes_on stage }
{
    let progress = stage.progress;
    is_sound(stage) & (!matches!(stage.source, Source::Ended) & !progress.is_over)
}

// Whether more of the capture's header, of 24 bytes, is to be read.
pub fn lacks_header(stage: Stage) -> bool
    ensures { result ≡ lacks_header stage }
{
    goes_on(stage) & (stage.held < 24)
}

// Whether a record is refused by 8 at the end: it was too long, or bytes are left that are no whole record.
fn ends_refused(stage: Stage) -> bool
    ensures { result ≡ ends_refused stage }
{
    let progress = stage.progress;
    progress.is_over | (0 < stage.held)
}

// Puts how the capture ended: the record that was refused by 8, if one was, how many were read whole and how many refusals there were.
// Nothing is said where anything was lost.
#[tactic(auto, unfolding(lines::specs::Room::put))]
pub fn put_end(room: &mut [u8], stage: Stage) -> usize
    ensures { left_room room result ≡ put (ending_due stage) (lent_room room 0) }
{
    let progress = stage.progress;
    if !is_sound(stage) {
        return 0;
    }
    let mut out = Room { bytes: room, at: 0 };
    endings::put_ending(
        &mut out,
        progress.records,
        progress.refusals,
        ends_refused(stage),
    );
    out.at
}

// Where the lines go that say how the capture ended. They are the printing program's last lines; where standard output is a capture itself
// they go beside it.
pub fn ending_goes_to(output: Output) -> Stream
    ensures { result ≡ ending_stream output }
{
    match output {
        Output::Lines | Output::Reasons(_) => Stream::Stdout,
        Output::Forwarded => Stream::Stderr,
    }
}

// Where that goes which comes before the first record: the opening is output, and what is said of a refused header is an ending.
pub fn beginning_goes_to(output: Output, is_open: bool) -> Stream
    ensures { result ≡ beginning_stream output is_open }
{
    if is_open {
        return Stream::Stdout;
    }
    ending_goes_to(output)
}

// Whether the record that alone is wanted is not among so many.
fn is_missing(output: Output, records: u64) -> bool
    ensures { result ≡ is_missing output records }
{
    match output {
        Output::Reasons(Some(wanted)) => records < wanted,
        _ => false,
    }
}

// Puts a text at the front.
fn put_first(room: &mut [u8], text: &[u8]) -> usize
    ensures { left_room room result ≡ put text.now (lent_room room 0) }
{
    let mut out = Room { bytes: room, at: 0 };
    out.text(text);
    out.at
}

// Puts that the record which alone is wanted is not there, where it is not. Nothing is said where anything was lost.
#[tactic(auto, unfolding(lines::specs::Room::put))]
pub fn put_missing(output: Output, room: &mut [u8], stage: Stage) -> usize
    ensures { left_room room result ≡ put (missing_due output stage) (lent_room room 0) }
{
    let progress = stage.progress;
    if is_sound(stage) & is_missing(output, progress.records) {
        return put_first(
            room,
            b"why: the capture has no whole record with that number\n",
        );
    }
    0
}

// That standard input cannot be read, and by which program.
#[tactic(auto, unfolding(crate::specs::Turns::lost_words, lines::specs::Letters::text))]
fn lost_words(output: Output) -> &'static [u8]
    ensures { result.now ≡ lost_words output }
{
    match output {
        Output::Lines => b"verdicts: standard input cannot be read",
        Output::Forwarded => b"forwarded: standard input cannot be read",
        Output::Reasons(_) => b"why: standard input cannot be read",
    }
}

// Puts that standard input cannot be read, and by which program. Why is for the system to say.
pub fn put_lost(output: Output, room: &mut [u8]) -> usize
    ensures { left_room room result ≡ put (lost_words output) (lent_room room 0) }
{
    put_first(room, lost_words(output))
}

// Puts what comes before the first record, by the capture's header: what opens it, or that it is refused.
pub fn begin(output: Output, header: &[u8], room: &mut [u8]) -> Begun
    ensures { beginning_of result room.new ≡ begun_by output (opened_of header.now) room.old }
{
    let mut out = Room { bytes: room, at: 0 };
    let opened = capture::open(header);
    match opened {
        Ok(_) => outputs::put_opening(output, &mut out),
        Err(refusal) => endings::put_refused_header(&mut out, u8::from(refusal)),
    }
    Begun {
        put: out.at,
        first: opened.ok(),
    }
}

// Puts what the whole records at hand are due, and moves the bytes that are left to the front.
#[tactic(auto, unfolding(crate::specs::Turns::turn_taken))]
pub fn take(
    output: Output,
    input: &mut [u8],
    big_endian: bool,
    room: &mut [u8],
    gateway: &mut Gateway<'_>,
    stage: Stage,
) -> Stage
    ensures same_memory { SameMemory gateway.old gateway.new }
    ensures state { turn_of result input.new room.new (state_in gateway.new)
        ≡ turn_taken output big_endian (turn_of stage input.old room.old (state_in gateway.old)) }
{
    let before = stage.progress;
    let end = streams::within(input, stage.held);
    let progress = feeding::feed(
        output,
        &input[..end],
        big_endian,
        room,
        gateway,
        anew(before),
    );
    let held = streams::shift(input, progress.at, end);
    taken(stage, held, progress)
}
