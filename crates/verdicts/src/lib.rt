// Which verdict a packet of ours gets, and what that makes of its record.
#![tactic(auto)]

ghost use Rattle.std.specs.Prelude.{not, ◌||◌, ◌≡◌};
ghost use Rattle.verdicts.specs.Verdicts.{number_of, is_forwarded, is_counted, is_closing, is_syn_ack, is_udp, is_opening, unless_closing, from_the_plant, from_the_cell, from_blocked_cell, verdict_of, marks_after, record_after};

use packet::kinds::Kind;
use records::Marks;

// The verdicts on a packet of ours, 1 to 6, by their words in document 01.
#[derive(Clone, Copy, PartialEq, Eq)]
pub enum Verdict {
    // Forwarded, nothing counted.
    Uncounted,
    // Forwarded, credit of one.
    CreditOfOne,
    // Forwarded, credit of two.
    CreditOfTwo,
    // Forwarded, fresh contact.
    FreshContact,
    // Dropped, hygiene.
    Hygiene,
    // Dropped, blocked.
    Blocked,
}

// Document 01's numbers of the verdicts.
impl From<Verdict> for u8 {
    ghost from_gives = { λ verdict number. number ≡ number_of verdict };

    fn from(verdict: Verdict) -> u8 {
        match verdict {
            Verdict::Uncounted => 1,
            Verdict::CreditOfOne => 2,
            Verdict::CreditOfTwo => 3,
            Verdict::FreshContact => 4,
            Verdict::Hygiene => 5,
            Verdict::Blocked => 6,
        }
    }
}

// Document 01's number of a verdict, 1 to 6.
pub fn number(verdict: Verdict) -> u8
    ensures { result ≡ number_of verdict }
{
    u8::from(verdict)
}

// Whether a verdict drops the packet: all but the first four do, which is one comparison.
pub fn is_dropped(verdict: Verdict) -> bool
    ensures { result ≡ not (is_forwarded verdict) }
{
    !matches!(
        verdict,
        Verdict::Uncounted | Verdict::CreditOfOne | Verdict::CreditOfTwo | Verdict::FreshContact
    )
}

// Whether something is counted by a verdict: a credit, or a fresh contact.
fn is_counted(verdict: Verdict) -> bool
    ensures { result ≡ is_counted verdict }
{
    matches!(
        verdict,
        Verdict::CreditOfOne | Verdict::CreditOfTwo | Verdict::FreshContact
    )
}

// Whether a packet is closing or SYN+ACK, which hygiene drops where the cell sends it on a record with neither mark.
fn is_closing_or_syn_ack(kind: Kind) -> bool
    ensures { result ≡ (is_closing kind || is_syn_ack kind) }
{
    matches!(kind, Kind::Closing | Kind::SynAck)
}

// Whether a packet is UDP or opening, which a blocked cell address gets through on no record.
fn is_udp_or_opening(kind: Kind) -> bool
    ensures { result ≡ (is_udp kind || is_opening kind) }
{
    matches!(kind, Kind::Udp | Kind::Opening)
}

// A packet on a record with only the other mark: closing earns nothing, and every other kind the credit.
fn unless_closing(kind: Kind, credit: Verdict) -> Verdict
    ensures { result ≡ unless_closing kind credit }
{
    if kind == Kind::Closing {
        Verdict::Uncounted
    } else {
        credit
    }
}

// The verdict on a packet from the plant.
#[tactic(auto, unfolding(crate::specs::Verdicts::from_the_plant))]
fn from_the_plant(own: bool, other: bool, kind: Kind) -> Verdict
    ensures { result ≡ from_the_plant own other kind }
{
    if own {
        return Verdict::Uncounted;
    }
    if other {
        return unless_closing(kind, Verdict::CreditOfTwo);
    }
    Verdict::Uncounted
}

// The verdict on a packet from a cell address that is not blocked.
#[tactic(auto, unfolding(crate::specs::Verdicts::from_the_cell))]
fn from_the_cell(own: bool, other: bool, kind: Kind) -> Verdict
    ensures { result ≡ from_the_cell own other kind }
{
    if own {
        return Verdict::Uncounted;
    }
    if other {
        return unless_closing(kind, Verdict::CreditOfOne);
    }
    if is_closing_or_syn_ack(kind) {
        return Verdict::Hygiene;
    }
    Verdict::FreshContact
}

// The verdict on a packet from a cell address that is blocked.
#[tactic(auto, unfolding(crate::specs::Verdicts::from_blocked_cell))]
fn from_blocked_cell(own: bool, other: bool, kind: Kind) -> Verdict
    ensures { result ≡ from_blocked_cell own other kind }
{
    if !other {
        return Verdict::Blocked;
    }
    if is_udp_or_opening(kind) {
        return Verdict::Blocked;
    }
    if own | (kind == Kind::Closing) {
        return Verdict::Uncounted;
    }
    Verdict::CreditOfOne
}

// The verdict on a packet of ours, by its direction and kind, whether its cell address is blocked, and its record's marks.
#[tactic(auto, unfolding(crate::specs::Verdicts::verdict_of))]
pub fn verdict_of(from_plant: bool, blocked: bool, marks: Marks, kind: Kind) -> Verdict
    ensures { result ≡ verdict_of from_plant blocked marks kind }
{
    if from_plant {
        return from_the_plant(marks.plant, marks.cell, kind);
    }
    if blocked {
        return from_blocked_cell(marks.cell, marks.plant, kind);
    }
    from_the_cell(marks.cell, marks.plant, kind)
}

// The marks, with the packet's own set where it is to be.
fn marks_after(from_plant: bool, marks: Marks, sets: bool) -> Marks
    ensures { result ≡ marks_after from_plant marks sets }
{
    Marks {
        plant: marks.plant | (sets & from_plant),
        cell: marks.cell | (sets & !from_plant),
    }
}

// The packet's record after its verdict. A dropped packet leaves it, age and all.
#[tactic(auto, unfolding(crate::specs::Verdicts::record_after))]
pub fn record_after(from_plant: bool, kind: Kind, verdict: Verdict, byte: u8) -> u8
    ensures { result ≡ record_after from_plant kind verdict byte }
{
    let marks = records::marks_of(byte);
    let first = from_plant & !(marks.plant | marks.cell);
    if is_dropped(verdict) | (first & (kind == Kind::Closing)) {
        return byte;
    }
    records::renewed(marks_after(from_plant, marks, is_counted(verdict) | first))
}
