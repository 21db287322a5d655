// The clock: which boundaries a time passes, and what that does to both tables.
ghost use Rattle.std.specs.Prelude.{◌≡◌};
ghost use Rattle.tables.specs.Clock.{multiples_passed, timed_of, time_passed};

// How many multiples of a number are above the old time and not above the new. Of 0 there are none.
pub fn multiples_passed(every: u32, old: u32, new: u32) -> u32
    ensures { result ≡ multiples_passed every old new }
{
    if new <= old {
        return 0;
    }
    if every == 0 {
        return 0;
    }
    new / every - old / every
}

// Passes a time over both tables and the clock: each multiple of Dmiss takes a point from the counts. Where the time is not after the
// clock, nothing is touched. The points are counted in 64 bits, which hold them whatever the time and the point.
pub fn pass(
    records: &mut [u8],
    counts: &mut [i16],
    clock: &mut u32,
    time: u32,
    point: u8,
    dmiss: u16,
    dconn: u8,
)
    ensures { timed_of records.new counts.new clock.new
        ≡ time_passed point dmiss dconn time (timed_of records.old counts.old clock.old) }
{
    let old = *clock;
    if time <= old {
        return;
    }
    records::age_all(records, multiples_passed(60, old, time), dconn);
    let multiples = multiples_passed(dmiss as u32, old, time);
    counts::decay_all(counts, multiples as u64 * point as u64);
    *clock = time;
}
