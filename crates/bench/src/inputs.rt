// The inputs of a trial with the values that a line gives them, and the calls, as lines name them.
use std::fmt;

// An input changed: a setting, the length that is lent of a table or a side list, the prefix length of a list's first entry, the time, or of
// the packet how many bytes there are and what its IP header says.
#[derive(Clone, Copy)]
pub enum Change {
    T(u16),
    Cmin(i16),
    Dmiss(u16),
    Dconn(u8),
    Records(u16),
    Tags(u16),
    Counts(u16),
    Cell(u16),
    CellBits(u8),
    Plant(u16),
    PlantBits(u8),
    Time(u32),
    Bytes(u16),
    Version(u8),
    Words(u8),
    Total(u8),
    Protocol(u8),
}

impl Change {
    fn name_and_value(self) -> (&'static str, i64) {
        match self {
            Change::T(threshold) => ("T", i64::from(threshold)),
            Change::Cmin(floor) => ("Cmin", i64::from(floor)),
            Change::Dmiss(seconds) => ("Dmiss", i64::from(seconds)),
            Change::Dconn(minutes) => ("Dconn", i64::from(minutes)),
            Change::Records(length) => ("records", i64::from(length)),
            Change::Tags(length) => ("tags", i64::from(length)),
            Change::Counts(length) => ("counts", i64::from(length)),
            Change::Cell(length) => ("cell", i64::from(length)),
            Change::CellBits(prefix) => ("cell/", i64::from(prefix)),
            Change::Plant(length) => ("plant", i64::from(length)),
            Change::PlantBits(prefix) => ("plant/", i64::from(prefix)),
            Change::Time(second) => ("time", i64::from(second)),
            Change::Bytes(length) => ("bytes", i64::from(length)),
            Change::Version(version) => ("version", i64::from(version)),
            Change::Words(words) => ("words", i64::from(words)),
            Change::Total(length) => ("total", i64::from(length)),
            Change::Protocol(protocol) => ("protocol", i64::from(protocol)),
        }
    }
}

impl fmt::Display for Change {
    fn fmt<W: fmt::Write>(&self, f: &mut fmt::Formatter<W>) -> fmt::Result {
        let (name, value) = self.name_and_value();
        write!(f, "{name:9}{value} ")
    }
}

// A call of the gateway: a packet, a time alone, or a cold start.
#[derive(Clone, Copy)]
pub enum Call {
    Judge,
    Pass,
    Start,
}

impl fmt::Display for Call {
    fn fmt<W: fmt::Write>(&self, f: &mut fmt::Formatter<W>) -> fmt::Result {
        let name = match self {
            Call::Judge => "judge",
            Call::Pass => "pass",
            Call::Start => "start",
        };
        write!(f, "{name:9}")
    }
}
