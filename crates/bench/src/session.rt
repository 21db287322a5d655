// Six runs over 4,096 records and 256 lines, with the factory settings and a cold start at second 100. Turns 1 to 4 are document 01's
// session. Turns 5 to 28 are the incident: twelve plant machines poll one cell machine, nothing is heard for two hours, and then it sweeps
// all twelve. The others are those of `flags`.
use crate::lines::Told;
use crate::{flags, packets};
use gateway::{Gateway, Site};
use places::Placing;
use refused::Refusal;
use rulings::answers::Answer;
use settings::Settings;
use std::io;
use std::io::Write;
use std::ops::Range;
use tally::Tally;

const CELL_LIST: [u8; 5] = [10, 0, 0, 0, 8];

const PLANT_LIST: [u8; 5] = [192, 168, 0, 0, 16];

fn packet_of(turn: u8) -> [u8; 40] {
    let cell = packets::CELL_HOST;
    match turn {
        1 => packets::tcp_to_plant(cell, packets::SYN),
        2 => packets::tcp_from_plant(cell, packets::SYN | packets::ACK),
        3 => packets::tcp_to_plant(cell, packets::ACK),
        4 => packets::udp_to([10, 0, 0, 2]),
        5..=28 => poll_or_sweep(turn),
        _ => flags::packet_of(turn),
    }
}

// One of twelve plant machines polls, up to turn 16; then it is swept.
fn poll_or_sweep(turn: u8) -> [u8; 40] {
    let plant = [192, 168, 0, turn % 12 + 1];
    if turn <= 16 {
        packets::udp_from(plant)
    } else {
        packets::udp_to(plant)
    }
}

fn time_of(turn: u8) -> u32 {
    match turn {
        17..=28 => 7300,
        _ => 100,
    }
}

fn judge(gateway: &mut Gateway<'_>, turn: u8) -> Result<Answer, Refusal> {
    let site = Site {
        limits: Settings::factory().limits,
        cell: &CELL_LIST,
        plant: &PLANT_LIST,
    };
    gateway.judge(site, time_of(turn), &packet_of(turn))
}

fn judge_turns<W: Write>(
    out: &mut W,
    gateway: &mut Gateway<'_>,
    turns: Range<u8>,
) -> io::Result<Tally> {
    let mut tally = Tally::empty();
    for turn in turns {
        let answer = judge(gateway, turn);
        writeln!(out, "{turn} {}", Told::Packet(answer))?;
        tally = tally.with(answer);
    }
    Ok(tally)
}

fn print_tally<W: Write>(out: &mut W, tally: Tally) -> io::Result<()> {
    write!(out, "tally")?;
    for total in tally.totals {
        write!(out, " {total}")?;
    }
    writeln!(out)
}

// Keys, tables and clock hold other things before the cold start, so that it has work to do.
fn run_turns<W: Write>(out: &mut W, turns: Range<u8>) -> io::Result<()> {
    let mut gateway = Gateway {
        placing: Placing { keys: [1; 8] },
        records: &mut [255; 4096],
        tags: &mut [7; 1024],
        counts: &mut [9; 1024],
        clock: &mut 4000000000,
    };
    let _ = gateway.start(Settings::factory(), 100);
    let tally = judge_turns(out, &mut gateway, turns)?;
    print_tally(out, tally)
}

// Prints document 01's session turn by turn, with the tally after it, then the two-hour incident, and the runs of `flags`.
pub fn run<W: Write>(out: &mut W) -> io::Result<()> {
    for turns in [1..5, 5..29, 29..38, 56..96, 96..128, 128..192] {
        run_turns(out, turns)?;
    }
    Ok(())
}
