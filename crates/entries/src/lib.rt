// The entries of the address table: a list of tags and a list of counts, four of each to a line.
#![tactic(auto)]

ghost use Rattle.std.specs.Prelude.{◌≡◌, length, set};
ghost use Rattle.entries.specs.Entries.{lacks_line, own_way, empty_way, smallest_way, room_for, count_in, count_of, written_of, written};

// The way that a write takes, and the tag that it replaces there, if any.
#[derive(Clone, Copy)]
struct Room {
    way: usize,
    replaced: Option<u32>,
}

// The way of the first non-empty entry with this tag, or 4.
// Kept: with a struct of two arrays, and ways as options, a count_of and a write take 78 instructions and not 66.
fn own_way(tags: &[u32], counts: &[i16], tag: u32) -> usize
    requires { (length tags.now ≡ 4) × (length counts.now ≡ 4) }
    ensures { result ≡ own_way tag tags.now counts.now }
{
    for way in 0..4 {
        let empty = counts::is_empty(counts[way]);
        if !empty & (tags[way] == tag) {
            return way;
        }
    }
    4
}

// The way of the first empty entry, or 4.
fn empty_way(counts: &[i16]) -> usize
    requires { length counts.now ≡ 4 }
    ensures { result ≡ empty_way counts.now }
{
    for way in 0..4 {
        if counts::is_empty(counts[way]) {
            return way;
        }
    }
    4
}

// The way of the smallest count, the lowest on a tie.
fn smallest_way(counts: &[i16]) -> usize
    requires { length counts.now ≡ 4 }
    ensures { result ≡ smallest_way counts.now }
{
    let mut best = 0;
    for way in 1..4 {
        if counts[way] < counts[best] {
            best = way;
        }
    }
    best
}

// Where in its line a tag's entry is to be written.
fn room_for(tags: &[u32], counts: &[i16], tag: u32) -> Room
    requires { (length tags.now ≡ 4) × (length counts.now ≡ 4) }
    ensures { result ≡ room_for tag tags.now counts.now }
{
    let own = own_way(tags, counts, tag);
    if own < 4 {
        return Room {
            way: own,
            replaced: None,
        };
    }
    let empty = empty_way(counts);
    if empty < 4 {
        return Room {
            way: empty,
            replaced: None,
        };
    }
    let smallest = smallest_way(counts);
    Room {
        way: smallest,
        replaced: Some(tags[smallest]),
    }
}

// The count of a tag in its line, 0 where it has no entry.
fn count_in(tags: &[u32], counts: &[i16], tag: u32) -> i16
    requires { (length tags.now ≡ 4) × (length counts.now ≡ 4) }
    ensures { result ≡ count_in tag tags.now counts.now }
{
    let way = own_way(tags, counts, tag);
    if way < 4 {
        return counts[way];
    }
    0
}

// Whether lists of these lengths end before a line does.
fn lacks_line(tags: usize, counts: usize, line: u32) -> bool
    ensures { result ≡ lacks_line line tags counts }
{
    let end = 4 * (line as usize) + 4;
    (tags < end) | (counts < end)
}

// The count of a tag in a line of the table: 0 where the tag has no entry there, or the table no such line.
pub fn count_of(tags: &[u32], counts: &[i16], line: u32, tag: u32) -> i16
    ensures { result ≡ count_of line tag tags.now counts.now }
{
    if lacks_line(tags.len(), counts.len(), line) {
        return 0;
    }
    let at = 4 * (line as usize);
    count_in(&tags[at..at + 4], &counts[at..at + 4], tag)
}

// Writes a tag's entry in the line that is lent: four tags and four counts.
fn write_entry(tags: &mut [u32], counts: &mut [i16], tag: u32, count: i16) -> Option<u32>
    requires { (length tags.old ≡ 4) × (length counts.old ≡ 4) }
    ensures { (result ≡ (room_for tag tags.old counts.old).replaced)
        × (tags.new ≡ set tags.old (room_for tag tags.old counts.old).way tag)
        × (counts.new ≡ set counts.old (room_for tag tags.old counts.old).way count) }
{
    let room = room_for(tags, counts, tag);
    let way = room.way;
    tags[way] = tag;
    counts[way] = count;
    room.replaced
}

// Writes a tag's entry in a line of the table, and answers the tag that lost its entry, if one did. The other lines are out of the
// writer's reach; where the table has no such line, nothing is written.
pub fn write(tags: &mut [u32], counts: &mut [i16], line: u32, tag: u32, count: i16) -> Option<u32>
    ensures { written_of result tags.new counts.new ≡ written line tag count tags.old counts.old }
{
    if lacks_line(tags.len(), counts.len(), line) {
        return None;
    }
    let at = 4 * (line as usize);
    write_entry(&mut tags[at..at + 4], &mut counts[at..at + 4], tag, count)
}
