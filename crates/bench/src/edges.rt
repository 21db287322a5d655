// Every refusal of a packet at its edge: the last good value and the first bad one, with all else good. The largest tables are not made
// here: both edges of the sizes are computed in tables/proofs/Edges.
use crate::inputs::{Call, Change};
use crate::trials;
use std::io;
use std::io::Write;

const SETTINGS: [&[Change]; 16] = [
    &[Change::T(0)],
    &[Change::T(1)],
    &[Change::T(255)],
    &[Change::T(256)],
    &[Change::Cmin(-1001)],
    &[Change::Cmin(-1000)],
    &[Change::Cmin(0)],
    &[Change::Cmin(1)],
    &[Change::Dmiss(0)],
    &[Change::Dmiss(1)],
    &[Change::Dmiss(3600)],
    &[Change::Dmiss(3601)],
    &[Change::Dconn(0)],
    &[Change::Dconn(1)],
    &[Change::Dconn(62)],
    &[Change::Dconn(63)],
];

// Sizes, side lists and times. A prefix length of 32 leaves the packet outside the list, and so not ours.
const LENGTHS_AND_TIMES: [&[Change]; 22] = [
    &[Change::Records(15)],
    &[Change::Records(16)],
    &[Change::Records(17)],
    &[Change::Records(32)],
    &[Change::Tags(0), Change::Counts(0)],
    &[Change::Tags(4), Change::Counts(4)],
    &[Change::Tags(5), Change::Counts(5)],
    &[Change::Tags(8), Change::Counts(8)],
    &[Change::Tags(12), Change::Counts(12)],
    &[Change::Cell(6)],
    &[Change::Cell(320)],
    &[Change::Cell(325)],
    &[Change::CellBits(32)],
    &[Change::CellBits(33)],
    &[Change::Plant(4)],
    &[Change::Plant(320)],
    &[Change::Plant(325)],
    &[Change::PlantBits(32)],
    &[Change::PlantBits(33)],
    &[Change::Time(99)],
    &[Change::Time(100)],
    &[Change::Time(u32::MAX)],
];

// Header tests have their own order: fewer than 20 bytes, 5; then 6; then bytes fewer than the header length, 5; then transport, 5.
// Protocol 1 needs nothing after the IP header.
const HEADERS: [&[Change]; 18] = [
    &[Change::Protocol(1), Change::Bytes(19)],
    &[Change::Protocol(1), Change::Bytes(20)],
    &[Change::Version(3)],
    &[Change::Version(5)],
    &[Change::Words(4)],
    &[Change::Protocol(1), Change::Total(19)],
    &[Change::Protocol(1), Change::Total(20)],
    &[Change::Protocol(1), Change::Words(6), Change::Bytes(23)],
    &[Change::Protocol(1), Change::Words(6), Change::Bytes(24)],
    &[Change::Protocol(1), Change::Words(6), Change::Total(23)],
    &[Change::Version(6), Change::Words(6), Change::Bytes(20)],
    &[Change::Words(6), Change::Total(24), Change::Bytes(20)],
    &[Change::Bytes(39)],
    &[Change::Total(39)],
    &[Change::Protocol(17), Change::Bytes(27)],
    &[Change::Protocol(17), Change::Bytes(28)],
    &[Change::Protocol(17), Change::Total(27)],
    &[Change::Protocol(17), Change::Total(28)],
];

fn judge_each<W: Write>(out: &mut W, trials: &[&[Change]]) -> io::Result<()> {
    for changes in trials {
        trials::line(out, Call::Judge, changes)?;
    }
    Ok(())
}

// Prints the answer to a packet at both edges of every refusal that it can meet there: the last good value and the first bad one.
pub fn run<W: Write>(out: &mut W) -> io::Result<()> {
    judge_each(out, &SETTINGS)?;
    judge_each(out, &LENGTHS_AND_TIMES)?;
    trials::line(out, Call::Pass, &[Change::Time(u32::MAX)])?;
    judge_each(out, &HEADERS)
}
