// What the programs share that replay a capture: it is read on standard input, through fixed buffers, and what each record is due goes to
// standard output before the next read, which may wait. What they decide is said in `turns`: here it is read, handed on and written.
#![tactic(auto)]

use gateway::Gateway;
use outputs::Output;
use std::io::{Cursor, Error, Write};
use std::rt::HostRuntime;
use std::time::Duration;
use std::{io, str, thread};
use turns::{Source, Stage, Stream};

// What a program reads from and writes to, what it is to put out and where it puts that, and by which error its last read failed, if it did.
#[derive(Drop)]
struct World {
    rt: HostRuntime,
    output: Output,
    room: [u8; 65536],
    error: Option<Error>,
}

// The records of a capture: those bytes of them that are at hand, their byte order, and the gateway that judges them.
#[derive(Drop)]
struct Records<'a> {
    input: [u8; 262144],
    big_endian: bool,
    gateway: Gateway<'a>,
}

// Whether a read failed that would only have had to wait.
fn has_to_wait(filled: &io::Result<usize>) -> bool {
    match filled {
        Ok(_) => false,
        Err(error) => error.raw_os_error().is_some_and(turns::is_early),
    }
}

// Reads behind so many bytes that are held. Where a read would only have had to wait, it waits two milliseconds and reads again: that is
// neither an end nor a failure. As in `run` below the turns are counted, for a proved loop has to end.
fn fill(rt: &HostRuntime, input: &mut [u8], held: usize) -> io::Result<usize> {
    let mut stdin = rt.stdin();
    let mut filled = streams::fill(&mut stdin, input, held);
    for _ in 0..u64::MAX {
        if !has_to_wait(&filled) {
            break;
        }
        thread::sleep(rt, Duration::from_millis(2));
        filled = streams::fill(&mut stdin, input, held);
    }
    filled
}

// Writes all of it, and answers whether it could.
fn write_all(rt: &HostRuntime, to: Stream, bytes: &[u8]) -> bool {
    match to {
        Stream::Stdout => rt.stdout().write_all(bytes).is_ok(),
        Stream::Stderr => rt.stderr().write_all(bytes).is_ok(),
    }
}

// The system's words for an error, as std shows it, without the error's number behind them.
fn words_of(shown: &str) -> &str {
    match shown.split_once(" (os error ") {
        Some((words, _)) => words,
        None => shown,
    }
}

// Writes a line to standard error: what failed, a colon and why.
fn fail(rt: &HostRuntime, what: &[u8], error: Error) {
    let mut shown = Cursor::new([0u8; 256]);
    let _ = write!(shown, "{error}");
    let length = shown.position() as usize;
    let bytes = shown.into_inner();
    let end = streams::within(&bytes, length);
    let words = str::from_utf8(&bytes[..end]).map_or("", words_of);
    for part in [what, b": ", words.as_bytes(), b"\n"] {
        write_all(rt, Stream::Stderr, part);
    }
}

impl World {
    // Reads, where that is wanted.
    fn refill(&mut self, input: &mut [u8], stage: Stage) -> Stage {
        if !stage.wants_bytes {
            return stage;
        }
        let filled = fill(&self.rt, input, stage.held);
        self.error = filled.err();
        turns::refilled(stage, filled)
    }

    // Writes what was put.
    fn write(&self, to: Stream, put: usize) -> bool {
        let end = streams::within(&self.room, put);
        write_all(&self.rt, to, &self.room[..end])
    }

    // Puts out what the whole records at hand are due, and writes it.
    fn tell(&mut self, capture: &mut Records<'_>, stage: Stage) -> Stage {
        let next = turns::take(
            self.output,
            &mut capture.input,
            capture.big_endian,
            &mut self.room,
            &mut capture.gateway,
            stage,
        );
        turns::written(next, self.write(Stream::Stdout, next.progress.put))
    }

    // A read, where one is wanted, and what is due, where it goes on.
    fn turn(&mut self, capture: &mut Records<'_>, stage: Stage) -> Stage {
        let next = self.refill(&mut capture.input, stage);
        if turns::goes_on(next) {
            self.tell(capture, next)
        } else {
            next
        }
    }

    // A proved loop has to end, and nothing says that standard input does. So the loop counts its turns, up to a number that no run uses up.
    fn run(&mut self, capture: &mut Records<'_>, is_opened: bool) -> Stage {
        let mut stage = turns::first(is_opened);
        for _ in 0..u64::MAX {
            if !turns::goes_on(stage) {
                break;
            }
            stage = self.turn(capture, stage);
        }
        stage
    }

    // Says on standard error that standard input could not be read, and why.
    fn tell_lost(&mut self, error: Error) {
        let put = turns::put_lost(self.output, &mut self.room);
        let end = streams::within(&self.room, put);
        fail(&self.rt, &self.room[..end], error);
    }

    // Says what is to be said beside output at the very end: that a record is missing, or that a read failed.
    fn tell_beside(&mut self, stage: Stage) {
        let put = turns::put_missing(self.output, &mut self.room, stage);
        self.write(Stream::Stderr, put);
        if matches!(stage.source, Source::Lost)
            && let Some(error) = self.error
        {
            self.tell_lost(error);
        }
    }

    // Says how the capture ended, unless something was lost: then the last line is missing.
    fn end(&mut self, stage: Stage) {
        let put = turns::put_end(&mut self.room, stage);
        let is_written = self.write(turns::ending_goes_to(self.output), put);
        self.tell_beside(turns::written(stage, is_written));
    }

    // Replays a capture whose header was read.
    fn replay_records(&mut self, big_endian: bool, is_opened: bool) {
        let input = [0; 262144];
        let gateway = Gateway {
            placing: replay::program_placing(),
            records: &mut [0; 4096],
            tags: &mut [0; 1024],
            counts: &mut [i16::MIN; 1024],
            clock: &mut 0,
        };
        let mut capture = Records {
            input,
            big_endian,
            gateway,
        };
        let stage = self.run(&mut capture, is_opened);
        self.end(stage);
    }

    // Reads the capture's header, or what there is of it. A read brings a byte or more, or is the last: so many turns are enough.
    fn read_header(&mut self, header: &mut [u8; 24]) -> Stage {
        let mut stage = turns::first(true);
        for _ in 0..24 {
            if turns::lacks_header(stage) {
                stage = self.refill(header, stage);
            }
        }
        stage
    }

    // Begins by the header's bytes, and goes on where it opens.
    fn replay_from(&mut self, header: &[u8], stage: Stage) {
        let begun = turns::begin(self.output, header, &mut self.room);
        let to = turns::beginning_goes_to(self.output, begun.first.is_some());
        let is_written = self.write(to, begun.put);
        match begun.first {
            Some(first) => self.replay_records(first.big_endian, is_written),
            None => self.tell_beside(turns::written(stage, is_written)),
        }
    }
}

// Replays the capture on standard input, and puts out what a program is to put out. What it reads and writes no contract can say; it
// answers nothing, and ends where standard input ends, where the capture is refused by 7 or a record by 8, or where something cannot be
// read or written: then the last line is missing, and of a read that failed a sentence on standard error tells why.
pub fn replay(rt: &HostRuntime, output: Output) {
    let room = [0; 65536];
    let mut world = World {
        rt: *rt,
        output,
        room,
        error: None,
    };
    let mut header = [0; 24];
    let stage = world.read_header(&mut header);
    let end = streams::within(&header, stage.held);
    if turns::is_sound(stage) {
        world.replay_from(&header[..end], stage);
    } else {
        world.tell_beside(stage);
    }
}
