// Why a packet was dropped, for programs in C and Rust: the archive of what `embed_why` does. include/spritgrommet.h says what each call does
// and answers. Each export hands on to `embed_why`, and states its contract again.
// Kept: the C interface has no struct that holds lent memory, so that what a view and a site are is lent to each call part by part.
#![tactic(auto)]

ghost use Rattle.std.specs.Prelude.{◌≡◌};
ghost use Rattle.rulings.specs.Rules.{rules_of};
ghost use Rattle.gateway.specs.Calls.{state_of};
ghost use Rattle.gateway.specs.Why.{why_of};
ghost use Rattle.frames.specs.Frames.{frame_explained};
ghost use Rattle.embed_why.specs.Plain.{plain_reason};

use embed_why::plain::PlainReason;
use places::Placing;
use settings::Limits;

// Why a packet, from its IPv4 header on, that comes at a time is dropped. Tables and clock are only read.
#[unsafe(no_mangle)]
pub extern "C" fn spritgrommet_why(
    placing: Placing,
    cell: &[u8],
    plant: &[u8],
    records: &[u8],
    tags: &[u32],
    counts: &[i16],
    clock: &u32,
    limits: Limits,
    time: u32,
    packet: &[u8],
) -> PlainReason
    ensures { result ≡ plain_reason
        (why_of (rules_of limits) limits cell.now plant.now time packet.now
        (state_of placing records.now tags.now counts.now clock.now)) }
{
    embed_why::spritgrommet_why(
        placing, cell, plant, records, tags, counts, clock, limits, time, packet,
    )
}

// Why what an Ethernet frame that comes at a time carries is dropped. Tables and clock are only read.
#[unsafe(no_mangle)]
pub extern "C" fn spritgrommet_why_frame(
    placing: Placing,
    cell: &[u8],
    plant: &[u8],
    records: &[u8],
    tags: &[u32],
    counts: &[i16],
    clock: &u32,
    limits: Limits,
    time: u32,
    frame: &[u8],
) -> PlainReason
    ensures { result ≡ plain_reason
        (frame_explained (rules_of limits) limits cell.now plant.now time frame.now
        (state_of placing records.now tags.now counts.now clock.now)) }
{
    embed_why::spritgrommet_why_frame(
        placing, cell, plant, records, tags, counts, clock, limits, time, frame,
    )
}
