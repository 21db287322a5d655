// A capture's records, one after the other, judged by a gateway that is set up as document 01's printing program is.
#![tactic(auto)]

ghost use Rattle.std.specs.Prelude.{◌≡◌, ◌≤◌, length};
ghost use Rattle.gateway.specs.Calls.{SameMemory, state_in, seen_in, after_call};
ghost use Rattle.replay.specs.Replay.{program_settings, program_limits, program_placing, started_first, asked_of, judgement_of, stepped};

use capture::{Cursor, Reading, Record};
use gateway::{Gateway, Site, View};
use places::Placing;
use reasons::Explanation;
use refused::Refusal;
use rulings::answers::Answer;
use settings::{Limits, Settings};

const CELL: [u8; 5] = [10, 0, 0, 0, 8];

const PLANT: [u8; 5] = [192, 168, 0, 0, 16];

// The programs' own threshold, whatever the factory's is: what they made of a capture they make of it still.
const T: u16 = 10;

// What one step answers: that no byte is left, that a record is cut off or too long, or a whole record, what the gateway answered, and what it
// answered to the question why where that was asked.
// Kept: as `capture::Reading`, of which it is the answer.
#[derive(Clone, Copy)]
pub enum Step {
    End,
    Cut,
    Long,
    Judged {
        read: Record,
        answer: Result<Answer, Refusal>,
        asked: Option<Result<Explanation, Refusal>>,
    },
}

// What a whole record gets: the gateway's answer, and its answer to the question why where that was asked.
#[derive(Clone, Copy)]
struct Judgement {
    answer: Result<Answer, Refusal>,
    asked: Option<Result<Explanation, Refusal>>,
}

// The settings of every program that replays a capture: the factory's but for T.
fn program_settings() -> Settings
    ensures { result ≡ program_settings }
{
    Settings::factory().with_threshold(T)
}

// Their limits, for the calls after the start.
fn program_limits() -> Limits
    ensures { result ≡ program_limits }
{
    program_settings().limits
}

// What places packets in their tables, which the one start, a cold one, leaves: the keys of the settings.
pub fn program_placing() -> Placing
    ensures { result ≡ program_placing }
{
    let set = program_settings();
    let keys = set.keys;
    Placing { keys }
}

// Starts cold at the first record's second.
#[tactic(auto, unfolding(crate::specs::Replay::started_first))]
fn start_first(is_first: bool, gateway: &mut Gateway<'_>, time: u32)
    ensures same_memory { SameMemory gateway.old gateway.new }
    ensures state { state_in gateway.new ≡ started_first is_first time (state_in gateway.old) }
{
    if is_first {
        let _ = gateway.start(program_settings(), time);
    }
}

// Asks why a frame is dropped, before it is judged, where that is wanted.
#[tactic(auto, unfolding(crate::specs::Replay::asked_of))]
fn ask(asks: bool, view: View<'_>, time: u32, frame: &[u8]) -> Option<Result<Explanation, Refusal>>
    ensures { result ≡ asked_of asks time frame.now (seen_in view.entry) }
{
    if asks {
        let site = Site {
            limits: program_limits(),
            cell: &CELL,
            plant: &PLANT,
        };
        return Some(frames::why(view, site, time, frame));
    }
    None
}

// Judges a whole record's frame, after it was asked why where that is wanted.
#[tactic(auto, unfolding(crate::specs::Replay::record_judged))]
fn judge_record(
    asks: bool,
    bytes: &[u8],
    read: Record,
    is_first: bool,
    gateway: &mut Gateway<'_>,
) -> Judgement
    requires { (read.from ≤ read.end) × (read.end ≤ length bytes.now) }
    ensures same_memory { SameMemory gateway.old gateway.new }
    ensures state { after_call result (state_in gateway.new) ≡ judgement_of asks is_first bytes.now read (state_in gateway.old) }
{
    let time = read.seconds;
    let from = read.from;
    let end = read.end;
    start_first(is_first, gateway, time);
    let frame = &bytes[from..end];
    let asked = ask(asks, gateway.view(), time, frame);
    let site = Site {
        limits: program_limits(),
        cell: &CELL,
        plant: &PLANT,
    };
    let answer = frames::judge(gateway, site, time, frame);
    Judgement { answer, asked }
}

// Reads the record at the cursor and, where it is whole, judges it, after it was asked why where that is wanted; the first one starts the
// gateway. Answers the record and what it got, or why there is none.
#[tactic(auto, unfolding(crate::specs::Replay::stepped))]
pub fn next(
    asks: bool,
    bytes: &[u8],
    cursor: Cursor,
    is_first: bool,
    gateway: &mut Gateway<'_>,
) -> Step
    ensures same_memory { SameMemory gateway.old gateway.new }
    ensures state { after_call result (state_in gateway.new) ≡ stepped asks is_first bytes.now cursor (state_in gateway.old) }
{
    match capture::next(bytes, cursor) {
        Reading::End => Step::End,
        Reading::Cut => Step::Cut,
        Reading::Long => Step::Long,
        Reading::Whole(read) => {
            let got = judge_record(asks, bytes, read, is_first, gateway);
            Step::Judged {
                read,
                answer: got.answer,
                asked: got.asked,
            }
        }
    }
}
