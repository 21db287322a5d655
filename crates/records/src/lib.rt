// Connection records: one byte each, with a mark for each direction and an age in minutes.
#![tactic(auto)]

ghost use Rattle.std.specs.Prelude.{◌≡◌, not, ◌&&◌, map, ◌+◌, ◌<◌, ◌≤◌, min, eqb, leb, length, get_or, take};
ghost use Rattle.laws.specs.Search.{every, those_below};
ghost use Rattle.records.specs.Records.{marks_of, record_of, aged_by};

// The marks of a record: whether plant to cell was seen, and cell to plant.
#[derive(Clone, Copy)]
pub struct Marks {
    pub plant: bool,
    pub cell: bool,
}

// The marks that a record has: bit 7 is the plant's, bit 6 the cell's.
pub fn marks_of(byte: u8) -> Marks
    ensures { result ≡ marks_of byte }
{
    Marks {
        plant: byte / 128 % 2 == 1,
        cell: byte / 64 % 2 == 1,
    }
}

// The record with these marks on which a packet was forwarded just now: its age is 0.
pub fn renewed(marks: Marks) -> u8
    ensures { result ≡ record_of marks 0 }
{
    if marks.plant {
        if marks.cell { 192 } else { 128 }
    } else {
        if marks.cell { 64 } else { 0 }
    }
}

// One record after a minute boundary or several. All in bytes, so that a sweep takes many records at once.
fn older(byte: u8, steps: u8, oldest: u8) -> u8
    requires { (0 < steps) × (steps ≤ 64) × (oldest ≤ 63) }
    ensures { result ≡ aged_by oldest steps byte }
{
    if byte < 64 {
        return 0;
    }
    if oldest < byte % 64 + steps {
        return 0;
    }
    byte + steps
}

// One record after so many minute boundaries: older by as many, or 0 where it is then over Dconn or was without a mark. By none, it stays.
// None gets older than 63, so that 64 minutes clear them all, and Dconn, which is at most 62, is never more than six bits hold.
pub fn aged(byte: u8, minutes: u32, dconn: u8) -> u8
    ensures { result ≡ aged_by dconn minutes byte }
{
    if minutes == 0 {
        return byte;
    }
    older(byte, minutes.min(64) as u8, dconn.min(63))
}

// The most records that a part has: a line of memory, which is 64 bytes.
const PART: usize = 64;

// Whether each record of a part is at least one value and at most another: from 0 to 0 all of them are 0, from 1 to 255 none is.
fn all_between(records: &[u8], least: u8, most: u8) -> bool
    ensures { result ≡ every (length records.now) (λ slot. leb least (get_or records.now slot 0) && leb (get_or records.now slot 0) most) }
{
    let mut all = true;
    for &byte in records {
        all = ((least <= byte) & (byte <= most)) & all;
    }
    all
}

// Ages each record of a part, and stores to each, so that the processor takes many at once.
fn age_each(records: &mut [u8], minutes: u32, dconn: u8)
    ensures { records.new ≡ map (aged_by dconn minutes) records.old }
{
    for record in records.iter_mut() {
        *record = aged(*record, minutes, dconn);
    }
}

// Puts each record of a part, aged, into a room; the processor takes many at once.
fn age_into(records: &[u8], older: &mut [u8], minutes: u32, dconn: u8)
    requires { length records.now ≤ length older.old }
    ensures { take (length records.now) older.new ≡ map (aged_by dconn minutes) records.now }
{
    for i in 0..records.len() {
        older[i] = aged(records[i], minutes, dconn);
    }
}

// Lists the places at which a part's records differ from what they become, in order, and says how many they are. No branch hangs on a record.
fn list_places(records: &[u8], older: &[u8], places: &mut [u8]) -> usize
    requires { (length records.now ≤ length older.now) × (length records.now ≤ length places.old) × (length places.old ≤ 256) }
    ensures { (result ≤ length records.now)
        × (take result places.new ≡ those_below (length records.now) (λ slot. not (eqb (get_or records.now slot 0) (get_or older.now slot 0)))) }
{
    let mut listed = 0;
    for place in 0..records.len() {
        places[listed] = place as u8;
        listed += usize::from(records[place] != older[place]);
    }
    listed
}

// Stores at the listed places, which are those that differ, what the records there become, and to no other record.
fn store_at(records: &mut [u8], older: &[u8], places: &[u8])
    requires { (length records.old ≤ length older.now)
        × (places.now ≡ those_below (length records.old) (λ slot. not (eqb (get_or records.old slot 0) (get_or older.now slot 0)))) }
    ensures { records.new ≡ take (length records.old) older.now }
{
    for &place in places {
        let at = usize::from(place);
        records[at] = older[at];
    }
}

// Ages the records of a part, and stores to those that differ afterwards, which are the ones that are not 0: to none, to each, or to those
// that are listed.
fn age_part(records: &mut [u8], minutes: u32, dconn: u8)
    requires { length records.old ≤ 64 }
    ensures { records.new ≡ map (aged_by dconn minutes) records.old }
{
    if all_between(records, 0, 0) {
        return;
    }
    if all_between(records, 1, 255) {
        age_each(records, minutes, dconn);
        return;
    }
    let mut older = [0u8; 64];
    age_into(records, &mut older, minutes, dconn);
    let mut places = [0u8; 64];
    let listed = list_places(records, &older, &mut places);
    store_at(records, &older, &places[0..listed]);
}

// Where the part that begins at a place ends: after so many records, or with the table.
fn part_end(at: usize, length: usize) -> usize
    requires { at < length }
    ensures { result ≡ min (at + 64) length }
{
    if length - at < PART {
        length
    } else {
        at + PART
    }
}

// Ages the records of a half of the table, part by part.
fn age_parts(records: &mut [u8], minutes: u32, dconn: u8)
    ensures { records.new ≡ map (aged_by dconn minutes) records.old }
{
    // Kept: 2^20 cold records take 44 us, but 60 with `min` for `part_end` and 90 with `step_by`; no proof follows `chunks_mut`.
    let mut at = 0;
    while at < records.len() {
        let end = part_end(at, records.len());
        age_part(&mut records[at..end], minutes, dconn);
        at = end;
    }
}

// Ages every record by so many minute boundaries. By none, none is touched. It goes half by half since what is called twice the compiler
// leaves apart, and every packet comes by here.
pub fn age_all(records: &mut [u8], minutes: u32, dconn: u8)
    ensures { records.new ≡ map (aged_by dconn minutes) records.old }
{
    if minutes == 0 {
        return;
    }
    // Kept: with `#[inline(never)]` in place of two halves, 2^20 marked records take 159 us and not 149.
    let half = records.len() / 2;
    let (first, second) = records.split_at_mut(half);
    age_parts(first, minutes, dconn);
    age_parts(second, minutes, dconn);
}
