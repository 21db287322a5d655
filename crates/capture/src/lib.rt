// Captures: classic pcap, version 2.4, link type 1. They are read in either byte order and written in little-endian order. A capture may lie
// in memory whole, or in part: a record that ends beyond the bytes at hand is told as cut, and read again when there are more.
#![tactic(auto)]

ghost use Rattle.std.specs.Prelude.{◌≡◌, ◌+◌, ◌≤◌, length, false};
ghost use Rattle.capture.specs.Capture.{bad_words, opened_of, head_at, next_of};
ghost use Rattle.words.specs.Words.{stored};
ghost use Rattle.capture.specs.Format.{header_bytes, content_of, record_bytes};
ghost use Rattle.capture.specs.Writing.{put_of, header_put, record_put};

use refused::Refusal;

const MAGIC: u32 = 0xa1b2c3d4;

const HEADER: usize = 24;

const RECORD_HEADER: usize = 16;

const MOST_CAPTURED: usize = 2048;

const SNAP_LENGTH: u32 = 2048;

// Where the next record starts among the bytes at hand, and the capture's byte order.
#[repr(C)]
#[derive(Clone, Copy)]
pub struct Cursor {
    pub at: usize,
    pub big_endian: bool,
}

// A record: its second and microsecond, how many bytes were captured of how many, and where these stand: from a place up to another,
// where the next record starts.
#[repr(C)]
#[derive(Clone, Copy)]
pub struct Record {
    pub seconds: u32,
    pub microseconds: u32,
    pub captured: usize,
    pub original: u32,
    pub from: usize,
    pub end: usize,
}

// What reading a record answers: that no byte is left, that the record is cut off by the end of the bytes, that it has too many captured
// bytes, or the record.
// Kept: the callers go on in a way of its own at each of the four, and only two of them are refusals; a Result of an Option nests them.
#[derive(Clone, Copy)]
pub enum Reading {
    End,
    Cut,
    Long,
    Whole(Record),
}

// Whether a header that is not short has a wrong magic, version or link type.
#[tactic(auto, using(words::proofs::Words::there))]
fn bad_words(bytes: &[u8], big_endian: bool) -> bool
    requires { 24 ≤ length bytes.now }
    ensures { result ≡ bad_words big_endian bytes.now }
{
    let magic = words::four_in(bytes, 0, big_endian);
    let major = words::two_in(bytes, 4, big_endian);
    let minor = words::two_in(bytes, 6, big_endian);
    let link = words::four_in(bytes, 20, big_endian);
    (magic != MAGIC) | (((major != 2) | (minor != 4)) | (link != 1))
}

// Reads a capture's header, and answers a cursor at the first record. It is refused by 7.
#[tactic(auto, using(words::proofs::Words::there), unfolding(crate::specs::Capture::opened_of, crate::specs::Capture::bad_header))]
pub fn open(bytes: &[u8]) -> Result<Cursor, Refusal>
    ensures { result ≡ opened_of bytes.now }
{
    if bytes.len() < HEADER {
        return Err(Refusal::Capture);
    }
    let big_endian = words::four_at(bytes, 0) == MAGIC;
    if bad_words(bytes, big_endian) {
        return Err(Refusal::Capture);
    }
    Ok(Cursor {
        at: HEADER,
        big_endian,
    })
}

// What a record's header says, where it is all there.
#[tactic(auto, using(crate::proofs::Parts::four_there))]
fn head_at(bytes: &[u8], at: usize, big_endian: bool) -> Record
    requires { at + 16 ≤ length bytes.now }
    ensures { result ≡ head_at big_endian at bytes.now }
{
    // A part of a length that the compiler knows, so that no word of it asks anew whether its bytes are there.
    let head = &bytes[at..at + RECORD_HEADER];
    let captured = words::four_in(head, 8, big_endian) as usize;
    let from = at + RECORD_HEADER;
    Record {
        seconds: words::four_in(head, 0, big_endian),
        microseconds: words::four_in(head, 4, big_endian),
        captured,
        original: words::four_in(head, 12, big_endian),
        from,
        end: from + captured,
    }
}

// Reads the record that starts at the cursor, and answers it. A place past the bytes at hand is their end.
#[tactic(auto, unfolding(crate::specs::Capture::next_of))]
pub fn next(bytes: &[u8], cursor: Cursor) -> Reading
    ensures { result ≡ next_of bytes.now cursor }
{
    if bytes.len() <= cursor.at {
        return Reading::End;
    }
    if bytes.len() - cursor.at < RECORD_HEADER {
        return Reading::Cut;
    }
    let record = head_at(bytes, cursor.at, cursor.big_endian);
    if MOST_CAPTURED < record.captured {
        return Reading::Long;
    }
    if bytes.len() < record.end {
        return Reading::Cut;
    }
    Reading::Whole(record)
}

// Writes the words of a capture's header into room that is as long.
fn fill_header(room: &mut [u8])
    requires { length room.old ≡ 24 }
    ensures { room.new ≡ stored (header_bytes false) 0 room.old }
{
    words::store_four(room, 0, MAGIC, false);
    words::store_two(room, 4, 2, false);
    words::store_two(room, 6, 4, false);
    words::store_four(room, 8, 0, false);
    words::store_four(room, 12, 0, false);
    words::store_four(room, 16, SNAP_LENGTH, false);
    words::store_four(room, 20, 1, false);
}

// Writes a record, its header and the captured bytes, into room that is as long.
fn fill_record(room: &mut [u8], seconds: u32, microseconds: u32, original: u32, source: &[u8])
    requires { (length source.now ≤ 2048) × (length room.old ≡ 16 + length source.now) }
    ensures { room.new
        ≡ stored (record_bytes false (content_of seconds microseconds original source.now)) 0 room.old }
{
    words::store_four(room, 0, seconds, false);
    words::store_four(room, 4, microseconds, false);
    words::store_four(room, 8, source.len() as u32, false);
    words::store_four(room, 12, original, false);
    words::store(room, RECORD_HEADER, source);
}

// Writes a capture's header into the room at a place, and answers the place of the first record. It is refused by 9 where there is no room.
#[tactic(auto, using(crate::proofs::Writings::put_in_part), unfolding(crate::specs::Writing::header_put, crate::specs::Writing::bytes_put))]
pub fn put_header(room: &mut [u8], at: usize) -> Result<usize, Refusal>
    ensures { put_of result room.new ≡ header_put at room.old }
{
    if words::has_room(room.len(), at, HEADER) {
        let end = at + HEADER;
        fill_header(&mut room[at..end]);
        return Ok(end);
    }
    Err(Refusal::Room)
}

// Writes a record into the room at a place: its second and microsecond, its original length, and the bytes that were captured of it.
// Answers the place of the next record. It is refused by 8 where they are more than 2,048, and then by 9 where there is no room.
#[tactic(auto, using(crate::proofs::Writings::put_in_part), unfolding(crate::specs::Writing::record_put, crate::specs::Writing::bytes_put))]
pub fn put_record(
    room: &mut [u8],
    at: usize,
    seconds: u32,
    microseconds: u32,
    original: u32,
    source: &[u8],
) -> Result<usize, Refusal>
    ensures { put_of result room.new
        ≡ record_put (content_of seconds microseconds original source.now) at room.old }
{
    if MOST_CAPTURED < source.len() {
        return Err(Refusal::Record);
    }
    let size = RECORD_HEADER + source.len();
    if words::has_room(room.len(), at, size) {
        let end = at + size;
        fill_record(&mut room[at..end], seconds, microseconds, original, source);
        return Ok(end);
    }
    Err(Refusal::Room)
}
