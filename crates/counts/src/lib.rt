// The counts of the address table: signed 16-bit numbers, one to an entry. Nothing here overflows, whatever the count.
#![tactic(auto)]

ghost use Rattle.std.specs.Prelude.{◌≡◌, map};
ghost use Rattle.counts.specs.Counts.{is_empty, is_blocked, lowered_by, raised_by, decayed_by};

// Whether an entry with this count is empty: only -32,768 says so.
pub fn is_empty(count: i16) -> bool
    ensures { result ≡ is_empty count }
{
    count == -32768
}

// Whether an address with this count is blocked: whether it is at least the threshold.
pub fn is_blocked(count: i16, threshold: u16) -> bool
    ensures { result ≡ is_blocked threshold count }
{
    i32::from(threshold) <= i32::from(count)
}

// A count less some points of credit, and never below the floor.
pub fn lowered(count: i16, points: u8, floor: i16) -> i16
    ensures { result ≡ lowered_by points floor count }
{
    count.saturating_sub(i16::from(points)).max(floor)
}

// A count and the points of a fresh contact, up to a ceiling. A count above the ceiling stays.
pub fn raised(count: i16, points: u8, ceiling: i16) -> i16
    ensures { result ≡ raised_by points ceiling count }
{
    count
        .saturating_add(i16::from(points))
        .min(ceiling)
        .max(count)
}

// A positive count less so many points, stopping at 0; any other stays. All in 16 bits, so that a sweep takes many counts at once.
fn fallen(count: i16, steps: u16) -> i16
    ensures { result ≡ decayed_by steps count }
{
    if count <= 0 {
        return count;
    }
    (count as u16).saturating_sub(steps) as i16
}

// One count after a decay by so many points: a positive one falls, to 0 at the lowest, and any other stays. No count is over 32,767, so
// that as many steps do what more of them do.
pub fn decayed(count: i16, points: u64) -> i16
    ensures { result ≡ decayed_by points count }
{
    fallen(count, points.min(32767) as u16)
}

// Decays every count by so many points. By none, none is touched.
pub fn decay_all(counts: &mut [i16], points: u64)
    ensures { counts.new ≡ map (decayed_by points) counts.old }
{
    if points == 0 {
        return;
    }
    for count in counts.iter_mut() {
        *count = decayed(*count, points);
    }
}
