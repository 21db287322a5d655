// A trial: one call of the gateway over small tables, good as it stands until inputs of it are changed. Its line names the call and what
// was changed, and then tells what was answered and whether every byte and number of tables and clock is as before.
use crate::inputs::{Call, Change};
use crate::lines::Told;
use crate::packets;
use gateway::{Gateway, Site};
use places::Placing;
use settings::{Limits, Settings};
use std::io;
use std::io::Write;

const CLOCK: u32 = 100;

// Of tables, side lists and packet a trial has the length that is lent; of each list the prefix length of its first entry too.
#[derive(Clone, Copy)]
struct Trial {
    limits: Limits,
    records: u16,
    tags: u16,
    counts: u16,
    cell: u16,
    cell_bits: u8,
    plant: u16,
    plant_bits: u8,
    time: u32,
    bytes: u16,
    version: u8,
    words: u8,
    total: u8,
    protocol: u8,
}

impl Trial {
    // A trial that no number refuses. Its packet is a SYN from 10.0.0.1 to 192.168.0.1.
    fn good() -> Trial {
        Trial {
            limits: Settings::factory().limits,
            records: 16,
            tags: 4,
            counts: 4,
            cell: 5,
            cell_bits: 8,
            plant: 5,
            plant_bits: 16,
            time: CLOCK,
            bytes: 40,
            version: 4,
            words: 5,
            total: 40,
            protocol: packets::TCP,
        }
    }

    fn change(&mut self, change: Change) {
        match change {
            Change::T(threshold) => self.limits.threshold = threshold,
            Change::Cmin(floor) => self.limits.floor = floor,
            Change::Dmiss(seconds) => self.limits.dmiss = seconds,
            Change::Dconn(minutes) => self.limits.dconn = minutes,
            Change::Records(length) => self.records = length,
            Change::Tags(length) => self.tags = length,
            Change::Counts(length) => self.counts = length,
            Change::Cell(length) => self.cell = length,
            Change::CellBits(prefix) => self.cell_bits = prefix,
            Change::Plant(length) => self.plant = length,
            Change::PlantBits(prefix) => self.plant_bits = prefix,
            Change::Time(second) => self.time = second,
            Change::Bytes(length) => self.bytes = length,
            Change::Version(version) => self.version = version,
            Change::Words(words) => self.words = words,
            Change::Total(length) => self.total = length,
            Change::Protocol(protocol) => self.protocol = protocol,
        }
    }

    fn packet(self) -> [u8; 40] {
        let mut bytes = packets::tcp_to_plant(packets::CELL_HOST, packets::SYN);
        bytes[0] = self.version % 16 * 16 + self.words % 16;
        bytes[3] = self.total;
        bytes[9] = self.protocol;
        bytes
    }
}

// A side list with room for 65 entries: the network high.low.0.0 with this prefix length, and then 0.0.0.0/0, which loses to it.
fn side_list(high: u8, low: u8, prefix: u8) -> [u8; 325] {
    let mut list = [0; 325];
    list[..5].copy_from_slice(&[high, low, 0, 0, prefix]);
    list
}

// What there is to lend of the tables, and the clock.
#[derive(Drop)]
struct Tables {
    records: [u8; 32],
    tags: [u32; 32],
    counts: [i16; 32],
    clock: u32,
}

// The first elements of a slice, so many as a trial asks for; none asks for more than there are.
fn first<T>(all: &mut [T], count: u16) -> &mut [T] {
    let end = usize::from(count).min(all.len());
    &mut all[..end]
}

impl Tables {
    // Before a call every record is 9, every tag 7 and every count 5, and a call that writes leaves something else: a packet of ours marks a
    // record, and a cold start or a minute clears one without marks.
    fn before() -> Tables {
        Tables {
            records: [9; 32],
            tags: [7; 32],
            counts: [5; 32],
            clock: CLOCK,
        }
    }

    // What was not lent is looked at too.
    fn is_kept(&self) -> bool {
        self.records == [9; 32]
            && self.tags == [7; 32]
            && self.counts == [5; 32]
            && self.clock == CLOCK
    }
}

// Makes the lists and the packet, and with them the call, after a start with the factory's keys.
fn answer_to(call: Call, trial: Trial, tables: &mut Tables) -> Told {
    let set = Settings {
        limits: trial.limits,
        ..Settings::factory()
    };
    let keys = set.keys;
    let mut gateway = Gateway {
        placing: Placing { keys },
        records: first(&mut tables.records, trial.records),
        tags: first(&mut tables.tags, trial.tags),
        counts: first(&mut tables.counts, trial.counts),
        clock: &mut tables.clock,
    };
    match call {
        Call::Judge => {
            let mut cell = side_list(10, 0, trial.cell_bits);
            let mut plant = side_list(192, 168, trial.plant_bits);
            let mut packet = trial.packet();
            let site = Site {
                limits: trial.limits,
                cell: first(&mut cell, trial.cell),
                plant: first(&mut plant, trial.plant),
            };
            Told::Packet(gateway.judge(site, trial.time, first(&mut packet, trial.bytes)))
        }
        Call::Pass => Told::Other(gateway.pass(trial.limits, trial.time)),
        Call::Start => Told::Other(gateway.start(set, trial.time)),
    }
}

// A call with some of its inputs changed.
pub fn line<W: Write>(out: &mut W, call: Call, changes: &[Change]) -> io::Result<()> {
    let mut trial = Trial::good();
    write!(out, "{call}")?;
    for &change in changes {
        trial.change(change);
        write!(out, "{change}")?;
    }
    let mut tables = Tables::before();
    let told = answer_to(call, trial, &mut tables);
    let kept = if tables.is_kept() { "kept" } else { "changed" };
    writeln!(out, "= {told} {kept}")
}
