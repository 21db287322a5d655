// Which side an address is on, by two side lists. A list has entries of five bytes: an address, most significant byte first, then a
// prefix length.
#![tactic(auto)]

ghost use Rattle.std.specs.Prelude.{◌≡◌, ◌+◌, ◌*◌, ◌-◌, ◌<◌, ◌≤◌, ℕ, length, get_or, slice_index, slice_index_or, leb};
ghost use Rattle.std.specs.List.{list_all};
ghost use Rattle.sides.specs.declared.Best.{Best};
ghost use Rattle.sides.specs.Lists.{bad_list, rank_at, better, best_in, entry_of, past, winner_of, winner_at, winning_of, entry_in, side_by, direction_of, direction_between};

// The side that an address belongs to: outside, inside, or neither list holds it.
#[derive(Clone, Copy, PartialEq, Eq)]
pub enum Side {
    Cell,
    Plant,
    Neither,
}

// Whose packet it is: ours when one end is cell and the other plant, and then from which of them.
#[derive(Clone, Copy, PartialEq, Eq)]
pub enum Direction {
    FromCell,
    FromPlant,
    NotOurs,
}

// What a list has for an address: the number, from 1, of the entry that holds it best, and that entry's prefix length plus one. Both
// are 0 where no entry holds the address.
// Kept: rank 0 and no Option, with which `direction_between` takes 96 instructions for an entry of both lists, and so 42 (callgrind).
#[derive(Clone, Copy)]
struct Best {
    number: usize,
    rank: u8,
}

// Where the winning entry of an address stands: the side whose list has it, and its number there, from 1.
#[derive(Clone, Copy)]
pub struct Winning {
    pub side: Side,
    pub number: usize,
}

// An entry of a side list by value: its number there, from 1, its address and its prefix length; each 0 where there is none.
// Kept: the C interface has it so, in `PlainReason`.
#[repr(C)]
#[derive(Clone, Copy)]
pub struct Entry {
    pub number: usize,
    pub address: u32,
    pub prefix: u8,
}

// Refusal 3: whether a side list is not of whole entries, has over 64 of them, or a prefix length over 32.
#[tactic(auto, unfolding(crate::specs::Lists::bad_list))]
pub fn bad_list(list: &[u8]) -> bool
    ensures { result ≡ bad_list list.now }
{
    let (entries, rest) = list.as_chunks::<5>();
    let too_many = 64 < entries.len();
    !rest.is_empty() || too_many || !all_short(entries)
}

// Whether the prefix length of each entry is at most 32.
fn all_short(entries: &[[u8; 5]]) -> bool
    ensures { result ≡ list_all (λ e. leb (slice_index e 4) 32) entries.now }
{
    entries.iter().all(|entry| entry[4] <= 32)
}

// The rank of an entry for an address: its prefix length plus one where it holds the address, else 0.
fn rank(entry: &[u8; 5], address: u32) -> u8
    ensures { result ≡ rank_at entry.now address 0 }
{
    let [first, second, third, fourth, prefix] = *entry;
    if 32 < prefix {
        return 0;
    }
    let net = words::of_four(first, second, third, fourth);
    let beyond = 32 - prefix;
    if u64::from(address) >> beyond == u64::from(net) >> beyond {
        prefix + 1
    } else {
        0
    }
}

impl Best {
    // The better of what was kept and an entry of this number and rank: the entry where it ranks above.
    fn or(self, number: usize, rank: u8) -> Best
        ensures { result ≡ better self number rank }
    {
        if self.rank < rank {
            Best { number, rank }
        } else {
            self
        }
    }
}

// Of each address, the better of what was kept and this entry.
fn keep_better<const N: usize>(
    best: &mut [Best; N],
    number: usize,
    entry: &[u8; 5],
    addresses: &[u32; N],
)
    ensures { (i : ℕ) (d : Best) → i < N → slice_index_or best.new i d
        ≡ better (slice_index_or best.old i d) number (rank_at entry.now (slice_index addresses.now i) 0) }
{
    for (i, kept) in best.iter_mut().enumerate() {
        *kept = kept.or(number, rank(entry, addresses[i]));
    }
}

// The entry of a list that holds an address with the longest prefix, the first such, for each of some addresses, in one pass over the list.
fn best_in<const N: usize>(list: &[u8], addresses: &[u32; N]) -> [Best; N]
    ensures { (i : ℕ) (d : Best) → i < N → slice_index_or result i d ≡ best_in list.now (slice_index addresses.now i) }
{
    let mut best = [Best { number: 0, rank: 0 }; N];
    let (entries, _) = list.as_chunks();
    for (k, entry) in entries.iter().enumerate() {
        keep_better(&mut best, k + 1, entry, addresses);
    }
    best
}

// The side of an address, by what each list has for it.
fn side_by(in_cell: Best, in_plant: Best) -> Side
    ensures { result ≡ side_by in_cell in_plant }
{
    if in_cell.rank < in_plant.rank {
        return Side::Plant;
    }
    if 0 < in_cell.rank {
        return Side::Cell;
    }
    Side::Neither
}

// Entry `number`, counted from 1, as a part of its list.
fn part<'a>(list: &'a [u8], number: usize) -> &'a [u8]
    requires { (0 < number) × (5 * number ≤ length list.now) }
    ensures bytes { result.now ≡ entry_of list.now number }
    ensures place { result.ref_ptr ≡ past list.entry.ref_ptr (5 * number - 5) }
{
    let end = 5 * number;
    let start = end - 5;
    &list[start..end]
}

// The winning entry, as a part of whichever list held it; an empty part of the cell list where neither holds the address.
pub fn winner<'a>(cell: &'a [u8], plant: &'a [u8], address: u32) -> &'a [u8]
    ensures bytes { result.now ≡ winner_of cell.now plant.now address }
    ensures place { result.ref_ptr ≡ winner_at cell.entry plant.entry address }
{
    let [of_cell] = best_in(cell, &[address]);
    let [of_plant] = best_in(plant, &[address]);
    match side_by(of_cell, of_plant) {
        Side::Cell => part(cell, of_cell.number),
        Side::Plant => part(plant, of_plant.number),
        Side::Neither => &cell[0..0],
    }
}

// The winning entry by its place: whose list held it, and its number there, from 1; none where neither holds the address.
pub fn winning_entry(cell: &[u8], plant: &[u8], address: u32) -> Option<Winning>
    ensures { result ≡ winning_of cell.now plant.now address }
{
    let [by_cell] = best_in(cell, &[address]);
    let [by_plant] = best_in(plant, &[address]);
    let side = side_by(by_cell, by_plant);
    let number = match side {
        Side::Cell => by_cell.number,
        Side::Plant => by_plant.number,
        Side::Neither => return None,
    };
    Some(Winning { side, number })
}

// The prefix length of an entry, in its part; 0 where that is empty.
fn prefix_in(part: &[u8]) -> u8
    ensures { result ≡ get_or part.now 4 0 }
{
    part.get(4).copied().unwrap_or(0)
}

// An entry by value: the number that it has in its list, and the address and the prefix length in its part. An empty part has 0 for both.
pub fn entry_in(number: usize, part: &[u8]) -> Entry
    ensures { result ≡ entry_in number part.now }
{
    Entry {
        number,
        address: words::four_at(part, 0),
        prefix: prefix_in(part),
    }
}

// The direction of a packet whose ends are on these sides: from the cell, from the plant, or not ours.
fn direction_of(source: Side, destination: Side) -> Direction
    ensures { result ≡ direction_of source destination }
{
    match (source, destination) {
        (Side::Cell, Side::Plant) => Direction::FromCell,
        (Side::Plant, Side::Cell) => Direction::FromPlant,
        _ => Direction::NotOurs,
    }
}

// The direction of a packet between two addresses. Each list is passed once for both.
pub fn direction_between(cell: &[u8], plant: &[u8], source: u32, destination: u32) -> Direction
    ensures { result ≡ direction_between cell.now plant.now source destination }
{
    let ends = [source, destination];
    let [from_cell, to_cell] = best_in(cell, &ends);
    let [from_plant, to_plant] = best_in(plant, &ends);
    direction_of(side_by(from_cell, from_plant), side_by(to_cell, to_plant))
}
