// The address permutation E, and its inverse.
#![tactic(auto)]

ghost use Rattle.std.specs.Prelude.{◌≡◌, ℕ, ◌<◌};
ghost use Rattle.permute.specs.Permutation.{at, nibbles, round, unround, E, D};

// An S-box, lent by its table: what it has at each nibble, which is a nibble too. (No static may hold boxes, as they have a ghost field,
// and the name of a constant makes a copy of it.)
#[derive(Clone, Copy)]
struct Sbox<'a> {
    images: &'a [u8; 16],
    ghost small: { (n : ℕ) → n < 16 → at images.now n < 16 },
}

impl Sbox<'_> {
    // What the box has at a nibble.
    fn image(self, nibble: u32) -> u32
        requires { nibble < 16 }
        ensures { (result ≡ at self.entry.images.now nibble) × (result < 16) }
    {
        self.images[nibble as usize] as u32
    }

    // The four lowest nibbles of a word, each replaced by what the box has there. No term waits for another.
    fn half(self, word: u32) -> u32
        ensures { (result ≡ nibbles 4 (at self.entry.images.now) word) × (result < 65536) }
    {
        self.image(word % 16)
            + self.image(word / 16 % 16) * 16
            + self.image(word / 256 % 16) * 256
            + self.image(word / 4096 % 16) * 4096
    }

    // Each of the eight nibbles of a word replaced by what the box has there.
    fn substituted(self, word: u32) -> u32
        ensures { result ≡ nibbles 8 (at self.entry.images.now) word }
    {
        self.half(word) + self.half(word / 65536) * 65536
    }

    // One round with its key; and one round undone.
    fn one_round(self, key: u32, word: u32) -> u32
        ensures { result ≡ round (at self.entry.images.now) key word }
    {
        self.substituted(word.wrapping_add(key)).rotate_left(11)
    }

    fn one_round_back(self, key: u32, word: u32) -> u32
        ensures { result ≡ unround (at self.entry.images.now) key word }
    {
        self.substituted(word.rotate_right(11)).wrapping_sub(key)
    }
}

// S-box r stands in row r.
static BOXES: [[u8; 16]; 8] = [
    [3, 8, 15, 1, 10, 6, 5, 11, 14, 13, 4, 2, 7, 0, 9, 12],
    [15, 12, 2, 7, 9, 0, 5, 10, 1, 11, 14, 8, 6, 13, 3, 4],
    [8, 6, 7, 9, 3, 12, 10, 15, 13, 1, 14, 4, 0, 11, 5, 2],
    [0, 15, 11, 8, 12, 9, 6, 3, 13, 1, 2, 4, 10, 7, 5, 14],
    [1, 15, 8, 3, 12, 0, 11, 6, 2, 5, 4, 10, 9, 14, 7, 13],
    [15, 5, 2, 11, 4, 10, 9, 12, 0, 3, 14, 8, 13, 6, 7, 1],
    [7, 2, 12, 5, 8, 4, 6, 11, 14, 9, 1, 13, 15, 3, 10, 0],
    [1, 13, 15, 0, 14, 8, 2, 11, 7, 4, 12, 10, 9, 3, 5, 6],
];

// The inverse of S-box r stands in row r.
static INVERSES: [[u8; 16]; 8] = [
    [13, 3, 11, 0, 10, 6, 5, 12, 1, 14, 4, 7, 15, 9, 8, 2],
    [5, 8, 2, 14, 15, 6, 12, 3, 11, 4, 7, 9, 1, 13, 10, 0],
    [12, 9, 15, 4, 11, 14, 1, 2, 0, 3, 6, 13, 5, 8, 10, 7],
    [0, 9, 10, 7, 11, 14, 6, 13, 3, 5, 12, 2, 4, 8, 15, 1],
    [5, 0, 8, 3, 10, 9, 7, 14, 2, 12, 11, 6, 4, 15, 13, 1],
    [8, 15, 2, 9, 4, 1, 13, 14, 11, 6, 5, 3, 7, 12, 10, 0],
    [15, 10, 1, 13, 5, 3, 6, 0, 4, 9, 14, 7, 2, 11, 8, 12],
    [3, 0, 6, 13, 9, 14, 15, 8, 5, 12, 11, 7, 10, 1, 4, 2],
];

// The permutation E of a word, under eight round keys.
pub fn encrypt(keys: &[u32; 8], word: u32) -> u32
    ensures { result ≡ E keys.now word }
{
    let mut y = word;
    // Kept: the index r, as document 01 names the form of this place: the boxes are "indexed by round and nibble".
    for r in 0..8usize {
        let images = &BOXES[r];
        y = Sbox { images }.one_round(keys[r], y);
    }
    y
}

// The inverse of E: the word whose permutation under these keys is this one.
pub fn decrypt(keys: &[u32; 8], word: u32) -> u32
    ensures { result ≡ D keys.now word }
{
    let mut y = word;
    for r in (0..8usize).rev() {
        let images = &INVERSES[r];
        y = Sbox { images }.one_round_back(keys[r], y);
    }
    y
}
