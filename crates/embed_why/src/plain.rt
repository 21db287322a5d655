// Why a packet was dropped, as plain numbers, laid out as C does. A number that an answer does not have is 0.
// Kept: the C interface (include/spritgrommet.h) needs PlainReason, with a refusal beside the rest in place of a Result of an enum.
ghost use Rattle.std.specs.Prelude.{◌≡◌};
ghost use Rattle.packet.specs.Kinds.{kind_number};
ghost use Rattle.embed_why.specs.Plain.{verdict_alone, plain_drop, plain_reason};

use packet::kinds::Kind;
use reasons::{Drop, Explanation};
use refused::Refusal;
use sides::Entry;

// Why a packet was dropped: the number of its refusal, or 0; the verdict, 0 to 6, which is all of one that is not dropped; its kind, 0 UDP, 1
// opening, 2 SYN+ACK, 3 closing, 4 plain; the marks and the count that it met, and T; which of the four facts are reported; and the entries
// that decided on its source, in the cell list, and on its destination, in the plant list.
#[repr(C)]
#[derive(Clone, Copy)]
pub struct PlainReason {
    pub refusal: u8,
    pub verdict: u8,
    pub kind: u8,
    pub plant_mark: bool,
    pub cell_mark: bool,
    pub count: i16,
    pub threshold: u16,
    pub by_count: bool,
    pub by_plant_mark: bool,
    pub by_cell_mark: bool,
    pub by_kind: bool,
    pub cell_entry: Entry,
    pub plant_entry: Entry,
}

// A kind's number.
// Kept: a function, since neither Kind nor u8 is a type of this crate, for which alone a From could stand here.
fn kind_number(kind: Kind) -> u8
    ensures { result ≡ kind_number kind }
{
    match kind {
        Kind::Udp => 0,
        Kind::Opening => 1,
        Kind::SynAck => 2,
        Kind::Closing => 3,
        Kind::Plain => 4,
    }
}

// A refusal or a verdict, and nothing beside it.
fn verdict_alone(refusal: u8, verdict: u8) -> PlainReason
    ensures { result ≡ verdict_alone refusal verdict }
{
    let none = Entry {
        number: 0,
        address: 0,
        prefix: 0,
    };
    PlainReason {
        refusal,
        verdict,
        kind: 0,
        plant_mark: false,
        cell_mark: false,
        count: 0,
        threshold: 0,
        by_count: false,
        by_plant_mark: false,
        by_cell_mark: false,
        by_kind: false,
        cell_entry: none,
        plant_entry: none,
    }
}

impl From<Drop> for PlainReason {
    ghost from_gives = { λ drop plain. plain ≡ plain_drop drop };

    fn from(drop: Drop) -> PlainReason {
        let Drop {
            verdict,
            header,
            count,
            marks,
            threshold,
            reported,
            cell_entry,
            plant_entry,
        } = drop;
        PlainReason {
            refusal: 0,
            verdict: verdicts::number(verdict),
            kind: kind_number(header.transport.kind),
            plant_mark: marks.plant,
            cell_mark: marks.cell,
            count,
            threshold,
            by_count: reported.count,
            by_plant_mark: reported.plant_mark,
            by_cell_mark: reported.cell_mark,
            by_kind: reported.kind,
            cell_entry,
            plant_entry,
        }
    }
}

// What the gateway answers to the question why.
impl From<Result<Explanation, Refusal>> for PlainReason {
    ghost from_gives = { λ explanation plain. plain ≡ plain_reason explanation };

    fn from(explanation: Result<Explanation, Refusal>) -> PlainReason {
        match explanation {
            Err(refusal) => verdict_alone(u8::from(refusal), 0),
            Ok(Explanation::NotOurs) => verdict_alone(0, 0),
            Ok(Explanation::Forwarded(verdict)) => verdict_alone(0, verdicts::number(verdict)),
            Ok(Explanation::Dropped(drop)) => PlainReason::from(drop),
        }
    }
}
