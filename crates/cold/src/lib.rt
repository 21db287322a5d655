// A cold start: what it writes to the tables that the caller lends.
#![tactic(auto, unfolding(crate::specs::Cold::cold_tables))]

ghost use Rattle.std.specs.Prelude.{◌≡◌};
ghost use Rattle.tables.specs.Tables.{lent_tables, left_tables};
ghost use Rattle.cold.specs.Cold.{cold_tables};

// Fills all tables as a cold start does, whatever they held: 0 in every record and tag, and in every count the -32,768 of an empty entry.
pub fn fill(records: &mut [u8], tags: &mut [u32], counts: &mut [i16])
    ensures { left_tables records tags counts ≡ cold_tables (lent_tables records tags counts) }
{
    records.fill(0);
    tags.fill(0);
    counts.fill(-32768);
}
