// Numbers made of bytes, and bytes of numbers, in either byte order. Where the bytes are not all there, the number is 0; where they have
// no room, none is stored.
#![tactic(auto)]

ghost use Rattle.std.specs.Prelude.{true, ◌≡◌, ◌+◌, ◌<◌, ◌≤◌, length, take, drop, leb, MatchOption};
ghost use Rattle.words.specs.Words.{of_four, two_at, four_at, two_in, four_in, whole, two_bytes, four_bytes, stored};

// The number that four bytes make, the most significant first.
pub fn of_four(first: u8, second: u8, third: u8, fourth: u8) -> u32
    ensures { result ≡ of_four first second third fourth }
{
    u32::from_be_bytes([first, second, third, fourth])
}

// The N bytes at a place; none where they are not all there.
fn bytes_at<const N: usize>(bytes: &[u8], at: usize) -> Option<&[u8; N]>
    ensures cases { MatchOption result (length bytes.now < at + N) (λ y. (at + N ≤ length bytes.now) × (y.now ≡ take N (drop at bytes.now))) }
{
    bytes.get(at..)?.first_chunk()
}

// The number that the two bytes at a place make, the most significant first where big_endian, and else the least; 0 where they are not
// all there.
// Kept: a reader and a writer for each width, as `from_be_bytes` and its like are methods of each type: a trait for both is longer.
#[tactic(auto, unfolding(crate::specs::Words::whole))]
pub fn two_in(bytes: &[u8], at: usize, big_endian: bool) -> u16
    ensures { result ≡ whole 2 (two_in big_endian) bytes.now at }
{
    match bytes_at::<2>(bytes, at) {
        Some(two) if big_endian => u16::from_be_bytes(*two),
        Some(two) => u16::from_le_bytes(*two),
        None => 0,
    }
}

// The number that the four bytes at a place make, the most significant first where big_endian, and else the least; 0 where they are not
// all there.
#[tactic(auto, unfolding(crate::specs::Words::whole))]
pub fn four_in(bytes: &[u8], at: usize, big_endian: bool) -> u32
    ensures { result ≡ whole 4 (four_in big_endian) bytes.now at }
{
    match bytes_at::<4>(bytes, at) {
        Some(four) if big_endian => u32::from_be_bytes(*four),
        Some(four) => u32::from_le_bytes(*four),
        None => 0,
    }
}

// The number that the two bytes at a place make, the most significant first; 0 where they are not all there.
pub fn two_at(bytes: &[u8], at: usize) -> u16
    ensures { result ≡ whole 2 two_at bytes.now at }
{
    two_in(bytes, at, true)
}

// The number that the four bytes at a place make, the most significant first; 0 where they are not all there.
pub fn four_at(bytes: &[u8], at: usize) -> u32
    ensures { result ≡ whole 4 four_at bytes.now at }
{
    four_in(bytes, at, true)
}

// Whether a room of some length has place for so many bytes from a place on.
pub fn has_room(length: usize, at: usize, count: usize) -> bool
    ensures { result ≡ leb (at + count) length }
{
    length.checked_sub(count).is_some_and(|left| at <= left)
}

// Stores bytes in the room from a place on: all of them where they have room, and else none.
#[tactic(auto, unfolding(crate::specs::Words::stored))]
pub fn store(room: &mut [u8], at: usize, source: &[u8])
    ensures { room.new ≡ stored source.now at room.old }
{
    if has_room(room.len(), at, source.len()) {
        room[at..at + source.len()].copy_from_slice(source);
    }
}

// Stores the two bytes of a number from a place on, the most significant first where big_endian, and else the least; none where they have
// no room.
pub fn store_two(room: &mut [u8], at: usize, number: u16, big_endian: bool)
    ensures { room.new ≡ stored (two_bytes big_endian number) at room.old }
{
    let two = if big_endian {
        number.to_be_bytes()
    } else {
        number.to_le_bytes()
    };
    store(room, at, &two);
}

// Stores the four bytes of a number from a place on, the most significant first where big_endian, and else the least; none where they
// have no room.
pub fn store_four(room: &mut [u8], at: usize, number: u32, big_endian: bool)
    ensures { room.new ≡ stored (four_bytes big_endian number) at room.old }
{
    let four = if big_endian {
        number.to_be_bytes()
    } else {
        number.to_le_bytes()
    };
    store(room, at, &four);
}
