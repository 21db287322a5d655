// An Ethernet frame: what it carries is judged, or explained, where that is IPv4. A frame that is too short, or carries something else, does
// not reach the gateway.
#![tactic(auto)]

ghost use Rattle.std.specs.Prelude.{◌≡◌};
ghost use Rattle.rulings.specs.Rules.{rules_of};
ghost use Rattle.gateway.specs.Calls.{SameMemory, state_in, seen_in, after_call};
ghost use Rattle.frames.specs.Frames.{inside_of, frame_judged, frame_explained};

use gateway::{Gateway, Site, View};
use reasons::Explanation;
use refused::Refusal;
use rulings::answers::Answer;

// What a frame holds: too few bytes for its own header, an IPv4 packet behind it, or something else.
#[derive(Clone, Copy, PartialEq, Eq)]
pub enum Inside {
    Short,
    Packet,
    Other,
}

// What a frame holds, by its length and its EtherType. The packet, where there is one, begins at the frame's fifteenth byte.
pub fn what_is_in(frame: &[u8]) -> Inside
    ensures { result ≡ inside_of frame.now }
{
    if frame.len() < 14 {
        return Inside::Short;
    }
    if words::two_at(frame, 12) == 0x0800 {
        return Inside::Packet;
    }
    Inside::Other
}

// Judges the packet of a frame that comes at a time. A frame that is too short is refused by 5, and one that carries something else than IPv4
// gets verdict 0.
#[tactic(auto, using(crate::proofs::Cases::has_header), unfolding(crate::specs::Frames::frame_judged))]
pub fn judge(
    gateway: &mut Gateway<'_>,
    site: Site<'_>,
    time: u32,
    frame: &[u8],
) -> Result<Answer, Refusal>
    ensures same_memory { SameMemory gateway.old gateway.new }
    ensures state { after_call result (state_in gateway.new)
        ≡ frame_judged (rules_of site.entry.limits) site.entry.limits site.entry.cell.now site.entry.plant.now time frame.now
        (state_in gateway.old) }
{
    match what_is_in(frame) {
        Inside::Short => Err(Refusal::Short),
        Inside::Packet => {
            let packet = &frame[14..];
            gateway.judge(site, time, packet)
        }
        Inside::Other => Ok(Answer::NotOurs),
    }
}

// Why the packet of a frame that comes at a time is dropped. A frame that is too short is refused by 5, and one that carries something else than
// IPv4 is not ours.
#[tactic(auto, using(crate::proofs::Cases::has_header), unfolding(crate::specs::Frames::frame_explained))]
pub fn why(view: View<'_>, site: Site<'_>, time: u32, frame: &[u8]) -> Result<Explanation, Refusal>
    ensures { result
        ≡ frame_explained (rules_of site.entry.limits) site.entry.limits site.entry.cell.now site.entry.plant.now time frame.now
        (seen_in view.entry) }
{
    let inside = what_is_in(frame);
    if inside == Inside::Short {
        return Err(Refusal::Short);
    }
    if inside == Inside::Other {
        return Ok(Explanation::NotOurs);
    }
    let packet = &frame[14..];
    view.why(site, time, packet)
}
