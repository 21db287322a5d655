// Answers as plain numbers, laid out as C does. A number that an answer does not have is 0.
// Kept: the C interface (include/spritgrommet.h) needs these structs, with a number beside each answer in place of a Result or an Option.
ghost use Rattle.std.specs.Prelude.{◌≡◌};
ghost use Rattle.refused.specs.Refused.{refusal_in};
ghost use Rattle.tally.specs.Tally.{tallied};
ghost use Rattle.embed.specs.Plain.{plain_judged, plain_answer, plain_winner, plain_opening, no_record, plain_next, plain_written, verdict_in};

use capture::{Cursor, Reading, Record};
use places::Placing;
use refused::Refusal;
use rulings::answers::Answer;
use sides::{Side, Winning};
use tally::Tally;

// The answer to a start: the number of its refusal, or 0 and what places packets in the tables, for the calls that follow.
#[repr(C)]
#[derive(Clone, Copy)]
pub struct PlainStarted {
    pub refusal: u8,
    pub placing: Placing,
}

// The answer to a packet: the number of its refusal, or 0; the verdict, 0 to 6; the cell address's count after it; 1 where an address lost
// its entry, and that address.
#[repr(C)]
#[derive(Clone, Copy)]
pub struct PlainAnswer {
    pub refusal: u8,
    pub verdict: u8,
    pub count: i16,
    pub replaced: u8,
    pub address: u32,
}

// The winning entry of an address: 1 where it stands in the cell list, 2 in the plant list, 0 where neither holds the address; and its
// number there, from 1.
#[repr(C)]
#[derive(Clone, Copy)]
pub struct PlainWinner {
    pub side: u8,
    pub number: usize,
}

// A part of a capture written: the number of its refusal, or 0 and the place after it in the room.
#[repr(C)]
#[derive(Clone, Copy)]
pub struct PlainWritten {
    pub refusal: u8,
    pub next: usize,
}

// A capture opened: the number of its refusal, or 0 and where the first record starts.
#[repr(C)]
#[derive(Clone, Copy)]
pub struct PlainOpening {
    pub refusal: u8,
    pub cursor: Cursor,
}

// A record read: the number of its refusal, or 0; 1 where there is a record, and 0 where no byte is left; and the record.
#[repr(C)]
#[derive(Clone, Copy)]
pub struct PlainNext {
    pub refusal: u8,
    pub whole: u8,
    pub read: Record,
}

// The answer to a packet that gets verdict 0, from which each other differs.
const NOT_OURS: PlainAnswer = PlainAnswer {
    refusal: 0,
    verdict: 0,
    count: 0,
    replaced: 0,
    address: 0,
};

// The number of a reply's refusal, or 0.
// Kept: a function, since neither Result nor u8 is a type of this crate, for which alone a From could stand here.
pub fn of_reply(reply: Result<(), Refusal>) -> u8
    ensures { result ≡ refusal_in reply }
{
    match reply {
        Err(refusal) => u8::from(refusal),
        Ok(()) => 0,
    }
}

// A verdict on a packet of ours, and what belongs to it.
fn of_judged(verdict: u8, count: i16, replaced: Option<u32>) -> PlainAnswer
    ensures { result ≡ plain_judged verdict count replaced }
{
    PlainAnswer {
        verdict,
        count,
        replaced: u8::from(replaced.is_some()),
        address: replaced.unwrap_or(0),
        ..NOT_OURS
    }
}

// An answer in plain numbers; those that it does not have are 0.
impl From<Result<Answer, Refusal>> for PlainAnswer {
    ghost from_gives = { λ answer plain. plain ≡ plain_answer answer };

    fn from(answer: Result<Answer, Refusal>) -> PlainAnswer {
        match answer {
            Err(refusal) => PlainAnswer {
                refusal: u8::from(refusal),
                ..NOT_OURS
            },
            Ok(Answer::NotOurs) => NOT_OURS,
            Ok(
                Answer::Judged {
                    verdict,
                    count,
                    replaced,
                },
            ) => of_judged(verdicts::number(verdict), count, replaced),
        }
    }
}

// The tally with an answer's verdict added to its total. A refusal adds nothing, nor does a verdict over 6.
pub fn tally_with(tally: Tally, answer: PlainAnswer) -> Tally
    ensures { result ≡ tallied tally (verdict_in answer) }
{
    if answer.refusal != 0 {
        return tally;
    }
    tally.with_verdict(answer.verdict)
}

// The refusal, or 0 and the place after what was written.
impl From<Result<usize, Refusal>> for PlainWritten {
    ghost from_gives = { λ written plain. plain ≡ plain_written written };

    fn from(written: Result<usize, Refusal>) -> PlainWritten {
        let (refusal, next) = match written {
            Err(refusal) => (u8::from(refusal), 0),
            Ok(next) => (0, next),
        };
        PlainWritten { refusal, next }
    }
}

// Side 1 for the cell, 2 for the plant, and the number there; or twice 0.
impl From<Option<Winning>> for PlainWinner {
    ghost from_gives = { λ winning plain. plain ≡ plain_winner winning };

    fn from(winning: Option<Winning>) -> PlainWinner {
        let Some(Winning { side, number }) = winning else {
            return PlainWinner { side: 0, number: 0 };
        };
        let side = match side {
            Side::Cell => 1,
            Side::Plant => 2,
            Side::Neither => 0,
        };
        PlainWinner { side, number }
    }
}

// The refusal, or 0 and a cursor.
impl From<Result<Cursor, Refusal>> for PlainOpening {
    ghost from_gives = { λ opened plain. plain ≡ plain_opening opened };

    fn from(opened: Result<Cursor, Refusal>) -> PlainOpening {
        match opened {
            Err(refusal) => PlainOpening {
                refusal: u8::from(refusal),
                cursor: Cursor {
                    at: 0,
                    big_endian: false,
                },
            },
            Ok(cursor) => PlainOpening { refusal: 0, cursor },
        }
    }
}

// No record: why, by its number.
fn no_record(refusal: u8) -> PlainNext
    ensures { result ≡ no_record refusal }
{
    PlainNext {
        refusal,
        whole: 0,
        read: Record {
            seconds: 0,
            microseconds: 0,
            captured: 0,
            original: 0,
            from: 0,
            end: 0,
        },
    }
}

// A record that is cut off or too long is refused by 8.
impl From<Reading> for PlainNext {
    ghost from_gives = { λ reading plain. plain ≡ plain_next reading };

    fn from(reading: Reading) -> PlainNext {
        match reading {
            Reading::End => no_record(0),
            Reading::Cut | Reading::Long => no_record(u8::from(Refusal::Record)),
            Reading::Whole(read) => PlainNext {
                refusal: 0,
                whole: 1,
                read,
            },
        }
    }
}
