// Refusals by one fault and by two. The lowest number is the answer: T 0 is refused by 1, eight counts to four tags by 2, a side list of
// four bytes by 3, second 99 by 4, a packet of 19 bytes by 5 and version 6 by 6.
use crate::inputs::{Call, Change};
use crate::trials;
use std::io;
use std::io::Write;

const FAULTS_OF_PACKETS: [Change; 6] = [
    Change::T(0),
    Change::Counts(8),
    Change::Cell(4),
    Change::Time(99),
    Change::Bytes(19),
    Change::Version(6),
];

const FAULTS_OF_TIMES: [Change; 3] = [Change::T(0), Change::Counts(8), Change::Time(99)];

const FAULTS_OF_STARTS: [Change; 2] = [Change::T(0), Change::Counts(8)];

// One fault alone, and with each of the others.
fn with_fault<W: Write>(
    out: &mut W,
    call: Call,
    fault: Change,
    others: &[Change],
) -> io::Result<()> {
    trials::line(out, call, &[fault])?;
    for &other in others {
        trials::line(out, call, &[fault, other])?;
    }
    Ok(())
}

// No fault, and each of them alone and with each behind it.
fn with_faults<W: Write>(out: &mut W, call: Call, faults: &[Change]) -> io::Result<()> {
    trials::line(out, call, &[])?;
    for (at, &fault) in faults.iter().enumerate() {
        with_fault(out, call, fault, &faults[at + 1..])?;
    }
    Ok(())
}

// Prints what each call answers to every two inputs that are bad at once. A cold start at a time before the clock is not refused.
pub fn run<W: Write>(out: &mut W) -> io::Result<()> {
    with_faults(out, Call::Judge, &FAULTS_OF_PACKETS)?;
    with_faults(out, Call::Pass, &FAULTS_OF_TIMES)?;
    with_faults(out, Call::Start, &FAULTS_OF_STARTS)?;
    trials::line(out, Call::Start, &[Change::Time(99)])
}
