// Refusal 2: the sizes that the tables may have.
ghost use Rattle.std.specs.Prelude.{◌≡◌};
ghost use Rattle.laws.specs.Choice.{among};
ghost use Rattle.tables.specs.Sizes.{record_sizes, entry_sizes, bad_sizes};

// Whether a number of records is a power of two, 16 to 1,048,576.
fn fits_records(records: usize) -> bool
    ensures { result ≡ among records record_sizes }
{
    match records {
        16
        | 32
        | 64
        | 128
        | 256
        | 512
        | 1024
        | 2048
        | 4096
        | 8192
        | 16384
        | 32768
        | 65536
        | 131072
        | 262144
        | 524288
        | 1048576 => true,
        _ => false,
    }
}

// Whether a number of entries is four times a power of two, 1 to 262,144: 4, 8, or as many as there may be records.
fn fits_entries(entries: usize) -> bool
    ensures { result ≡ among entries entry_sizes }
{
    (entries == 4) | ((entries == 8) | fits_records(entries))
}

// How many records, tags and counts the tables have.
#[derive(Clone, Copy)]
pub struct Sizes {
    pub records: usize,
    pub tags: usize,
    pub counts: usize,
}

impl Sizes {
    // Refusal 2: whether some table's length is not one that it may have, or those of tags and counts differ.
    #[tactic(auto, unfolding(crate::specs::Sizes::bad_sizes))]
    pub fn are_bad(self) -> bool
        ensures { result ≡ bad_sizes self.records self.tags self.counts }
    {
        (!fits_records(self.records) | !fits_entries(self.tags)) | (self.tags != self.counts)
    }
}
