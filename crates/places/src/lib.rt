// What the permutation places: the slot of a connection, the line and tag of an address, and the way back from line and tag.
#![tactic(auto)]

ghost use Rattle.std.specs.Prelude.{◌≡◌};
ghost use Rattle.places.specs.Places.{slot_of, place_of, address_of};

// What places packets in a gateway's tables: it is part of the gateway's state, a start sets it, and no other call changes it.
#[repr(C)]
#[derive(Clone, Copy)]
pub struct Placing {
    // The eight round keys of the address permutation.
    pub keys: [u32; 8],
}

// The slot of a connection among a number of records; among none, the word itself. Any word may stand in the port's place.
#[tactic(auto, unfolding(crate::specs::Places::slot_of))]
pub fn slot(keys: &[u32; 8], plant: u32, cell: u32, port: u32, records: u32) -> u32
    ensures { result ≡ slot_of keys.now plant cell port records }
{
    let pair = permute::encrypt(keys, permute::encrypt(keys, plant) ^ cell);
    let word = permute::encrypt(keys, pair ^ port);
    word.checked_rem(records).unwrap_or(word)
}

// Where the address table keeps an address: in which line, and under which tag.
#[derive(Clone, Copy)]
pub struct Place {
    pub line: u32,
    pub tag: u32,
}

// The line and tag of an address among a number of lines; with none, the word itself and tag 0.
#[tactic(auto, unfolding(crate::specs::Places::place_of))]
pub fn place_of(keys: &[u32; 8], address: u32, lines: u32) -> Place
    ensures { result ≡ place_of keys.now address lines }
{
    let word = permute::encrypt(keys, address);
    Place {
        line: word.checked_rem(lines).unwrap_or(word),
        tag: word.checked_div(lines).unwrap_or(0),
    }
}

// The address that a line and a tag name among a number of lines; with none, that of the line as a word.
#[tactic(auto, unfolding(crate::specs::Places::address_of))]
pub fn address_of(keys: &[u32; 8], place: Place, lines: u32) -> u32
    ensures { result ≡ address_of keys.now place lines }
{
    if lines == 0 {
        return permute::decrypt(keys, place.line);
    }
    let lines = u64::from(lines);
    let tags = 4294967296 / lines;
    let word = u64::from(place.tag) % tags * lines + u64::from(place.line);
    permute::decrypt(keys, (word % 4294967296) as u32)
}
