// What is put out for a record of which it is asked why: a first line for machines, and sentences for people, put into lent room. In a text
// about a packet that was dropped, a letter behind "%" stands for a value.
#![tactic(auto, using(lines::proofs::Rooms::put_more), unfolding(lines::specs::Room::put, lines::specs::Letters::text))]

ghost use Rattle.std.specs.Prelude.{◌≡◌, cond, false, [], Ok};
ghost use Rattle.packet.specs.Kinds.{ported};
ghost use Rattle.lines.specs.Room.{put};
ghost use Rattle.lines.specs.Rooms.{room_in};
ghost use Rattle.explanations.specs.Values.{kind_word, kind_words, is_blocking, kinds_that_pass, source_port, destination_port, port_word, port_words, entry_text, value_of, letter_text, filled};
ghost use Rattle.explanations.specs.Explanations.{of_facts, first_line, who_and_whom, by_plant_mark, situation, ways_through, drop_text, forwarded_text, refused_words, refused_text, refused_asked, explanation_text, is_drop, is_told, asked_text};

use lines::Room;
use packet::Header;
use packet::kinds::Kind;
use reasons::{Drop, Explanation};
use refused::Refusal;
use sides::Entry;
use verdicts::Verdict;

// What is told of a packet that was dropped: its record's number and second, and why.
#[derive(Clone, Copy)]
struct Report {
    number: u64,
    seconds: u32,
    drop: Drop,
}

// A text for each fact, in the facts' order.
#[derive(Clone, Copy)]
struct Texts<'a> {
    count: &'a [u8],
    plant_mark: &'a [u8],
    cell_mark: &'a [u8],
    kind: &'a [u8],
}

// The kind in a word.
fn kind_word(kind: Kind) -> &'static [u8]
    ensures { result.now ≡ kind_word kind }
{
    match kind {
        Kind::Udp => b"udp",
        Kind::Opening => b"opening",
        Kind::SynAck => b"syn+ack",
        Kind::Closing => b"closing",
        Kind::Plain => b"plain",
    }
}

// The kind in words.
fn kind_words(kind: Kind) -> &'static [u8]
    ensures { result.now ≡ kind_words kind }
{
    match kind {
        Kind::Udp => b"a UDP packet",
        Kind::Opening => b"an opening (TCP SYN without ACK)",
        Kind::SynAck => b"an answering TCP packet (SYN+ACK)",
        Kind::Closing => b"a closing TCP packet (FIN or RST)",
        Kind::Plain => b"a plain packet",
    }
}

// Whether a packet is dropped as blocked.
fn is_blocking(verdict: Verdict) -> bool
    ensures { result ≡ is_blocking verdict }
{
    matches!(verdict, Verdict::Blocked)
}

// The kinds that would have been forwarded, where the kind is reported.
fn kinds_that_pass(verdict: Verdict) -> &'static [u8]
    ensures { result.now ≡ kinds_that_pass (is_blocking verdict) }
{
    if is_blocking(verdict) {
        b"SYN+ACK, closing or plain"
    } else {
        b"UDP, opening or plain"
    }
}

// Whether a packet has ports: TCP and UDP do, but not in a later fragment.
fn has_ports(header: Header) -> bool
    ensures { result ≡ ported header.protocol header.later }
{
    !header.later & matches!(header.protocol, 6 | 17)
}

// The source port, where the packet has ports.
fn source_port(header: Header) -> Option<u16>
    ensures { result ≡ source_port header }
{
    has_ports(header).then_some(header.transport.source_port)
}

// The destination port, where the packet has ports.
fn destination_port(header: Header) -> Option<u16>
    ensures { result ≡ destination_port header }
{
    has_ports(header).then_some(header.transport.destination_port)
}

// A port in the first line, or "-".
fn put_port_word(room: &mut Room, port: Option<u16>)
    ensures same { room.new.bytes.ghost_name ≡ room.old.bytes.ghost_name }
    ensures put { room_in room.new ≡ put (port_word port) (room_in room.old) }
{
    match port {
        Some(port) => room.decimal(port as u64),
        None => room.text(b"-"),
    }
}

// A port in a sentence, or nothing.
fn put_port_words(room: &mut Room, port: Option<u16>)
    ensures same { room.new.bytes.ghost_name ≡ room.old.bytes.ghost_name }
    ensures put { room_in room.new ≡ put (port_words port) (room_in room.old) }
{
    if let Some(port) = port {
        room.text(b" port ");
        room.decimal(port as u64);
    }
}

// An entry of a side list: its address in dotted form, and its prefix length behind a slash.
fn put_entry(room: &mut Room, entry: Entry)
    ensures same { room.new.bytes.ghost_name ≡ room.old.bytes.ghost_name }
    ensures put { room_in room.new ≡ put (entry_text entry) (room_in room.old) }
{
    room.dotted(entry.address);
    room.byte(b'/');
    room.decimal(entry.prefix as u64);
}

// What a letter stands for.
// Kept: the letters stand in the texts, which are definitions (`filled`, `value_of`); an enum would name each letter twice.
#[tactic(auto, unfolding(lines::specs::Room::put, crate::specs::Values::value_of))]
fn put_value(room: &mut Room, letter: u8, report: Report)
    ensures same { room.new.bytes.ghost_name ≡ room.old.bytes.ghost_name }
    ensures put { room_in room.new ≡ put (value_of report letter) (room_in room.old) }
{
    let drop = report.drop;
    let header = drop.header;
    let transport = header.transport;
    match letter {
        b'n' => room.decimal(report.number),
        b'v' => room.decimal(u8::from(drop.verdict) as u64),
        b'c' => room.signed(drop.count),
        b't' => room.decimal(drop.threshold as u64),
        b's' => room.decimal(report.seconds as u64),
        b'a' => room.dotted(header.source),
        b'b' => room.dotted(header.destination),
        b'p' => put_port_word(room, source_port(header)),
        b'q' => put_port_word(room, destination_port(header)),
        b'P' => put_port_words(room, source_port(header)),
        b'Q' => put_port_words(room, destination_port(header)),
        b'i' => room.decimal(header.protocol as u64),
        b'k' => room.text(kind_word(transport.kind)),
        b'K' => room.text(kind_words(transport.kind)),
        b'e' => room.decimal(drop.cell_entry.number as u64),
        b'f' => room.decimal(drop.plant_entry.number as u64),
        b'E' => put_entry(room, drop.cell_entry),
        b'F' => put_entry(room, drop.plant_entry),
        b'w' => room.text(kinds_that_pass(drop.verdict)),
        _ => {}
    }
}

// A byte of a text: behind "%" what the letter stands for, "%" itself left out, and any other as it is.
fn put_letter(room: &mut Room, marked: bool, byte: u8, report: Report)
    ensures same { room.new.bytes.ghost_name ≡ room.old.bytes.ghost_name }
    ensures put { room_in room.new ≡ put (letter_text report marked byte) (room_in room.old) }
{
    if marked {
        put_value(room, byte, report);
    } else if byte != b'%' {
        room.byte(byte);
    }
}

// A text with its values.
fn put_filled(room: &mut Room, text: &[u8], report: Report)
    ensures same { room.new.bytes.ghost_name ≡ room.old.bytes.ghost_name }
    ensures put { room_in room.new ≡ put (filled report false text.now) (room_in room.old) }
{
    let mut marked = false;
    for byte in text {
        put_letter(room, marked, *byte, report);
        marked = !marked & (*byte == b'%');
    }
}

// A text with its values, where it is to stand.
fn put_if(room: &mut Room, told: bool, text: &[u8], report: Report)
    ensures same { room.new.bytes.ghost_name ≡ room.old.bytes.ghost_name }
    ensures put { room_in room.new ≡ put (cond told (filled report false text.now) []) (room_in room.old) }
{
    if told {
        put_filled(room, text, report);
    }
}

// A text for each fact that is reported.
fn put_facts(room: &mut Room, texts: Texts, report: Report)
    ensures same { room.new.bytes.ghost_name ≡ room.old.bytes.ghost_name }
    ensures put { room_in room.new
        ≡ put (of_facts report texts.entry.count.now texts.entry.plant_mark.now texts.entry.cell_mark.now texts.entry.kind.now) (room_in room.old) }
{
    let reported = report.drop.reported;
    put_if(room, reported.count, texts.count, report);
    put_if(room, reported.plant_mark, texts.plant_mark, report);
    put_if(room, reported.cell_mark, texts.cell_mark, report);
    put_if(room, reported.kind, texts.kind, report);
}

// The first line, for machines.
fn put_first_line(room: &mut Room, report: Report)
    ensures same { room.new.bytes.ghost_name ≡ room.old.bytes.ghost_name }
    ensures put { room_in room.new ≡ put (first_line report) (room_in room.old) }
{
    put_filled(room, b"%n %v %c %t %s %a %p %b %q %i %k %e %f", report);
    let texts = Texts {
        count: b" count",
        plant_mark: b" plant-mark",
        cell_mark: b" cell-mark",
        kind: b" kind",
    };
    put_facts(room, texts, report);
    room.text(b"\n");
}

// Who sent what to whom, and which entries made it ours.
fn put_who_and_whom(room: &mut Room, report: Report)
    ensures same { room.new.bytes.ghost_name ≡ room.old.bytes.ghost_name }
    ensures put { room_in room.new ≡ put (who_and_whom report) (room_in room.old) }
{
    put_filled(room, b"  %a%P sent %K to %b%Q at second %s.\n", report);
    put_filled(
        room,
        b"  It is ours by entry %e of the cell list, %E, and entry %f of the plant list, %F.\n",
        report,
    );
}

// What the plant-to-cell mark says to a blocked machine.
fn put_by_plant_mark(room: &mut Room, mark: bool, report: Report)
    ensures same { room.new.bytes.ghost_name ≡ room.old.bytes.ghost_name }
    ensures put { room_in room.new ≡ put (by_plant_mark report mark) (room_in room.old) }
{
    if mark {
        put_filled(
            room,
            b"  The plant-to-cell mark of this connection is set, but from a blocked machine UDP and openings do not go through even so.\n",
            report,
        );
    } else {
        put_filled(
            room,
            b"  From a blocked machine only answers to the plant go through, and the plant-to-cell mark of this connection is not set.\n",
            report,
        );
    }
}

// The verdict, and the count against T.
fn put_situation(room: &mut Room, blocking: bool, report: Report)
    ensures same { room.new.bytes.ghost_name ≡ room.old.bytes.ghost_name }
    ensures put { room_in room.new ≡ put (situation report blocking) (room_in room.old) }
{
    if blocking {
        put_filled(
            room,
            b"  It was dropped as blocked: the count of %a is %c, and T is %t.\n",
            report,
        );
        put_by_plant_mark(room, report.drop.marks.plant, report);
    } else {
        put_filled(
            room,
            b"  It was dropped as hygiene, not as blocked: the count of %a is %c, and T is %t.\n",
            report,
        );
        put_filled(
            room,
            b"  It answers or closes a connection, and this connection has neither mark.\n",
            report,
        );
    }
}

// What would have let it pass.
fn put_ways_through(room: &mut Room, report: Report)
    ensures same { room.new.bytes.ghost_name ≡ room.old.bytes.ghost_name }
    ensures put { room_in room.new ≡ put (ways_through report) (room_in room.old) }
{
    put_filled(
        room,
        b"  Any one of these alone would have let it through:\n",
        report,
    );
    let texts = Texts {
        count: b"  - the count: below %t\n",
        plant_mark: b"  - the plant-to-cell mark: set (the plant has spoken on this connection lately, other than to close it)\n",
        cell_mark: b"  - the cell-to-plant mark: set (the cell was let through on this connection lately, other than to close it)\n",
        kind: b"  - the kind: %w\n",
    };
    put_facts(room, texts, report);
}

// All of a packet that was dropped.
fn put_drop(room: &mut Room, report: Report)
    ensures same { room.new.bytes.ghost_name ≡ room.old.bytes.ghost_name }
    ensures put { room_in room.new ≡ put (drop_text report) (room_in room.old) }
{
    put_first_line(room, report);
    put_who_and_whom(room, report);
    put_situation(room, is_blocking(report.drop.verdict), report);
    put_ways_through(room, report);
}

// A verdict alone.
fn forwarded_text(verdict: Verdict) -> &'static [u8]
    ensures { result.now ≡ forwarded_text verdict }
{
    match verdict {
        Verdict::Uncounted => b" 1\n  It was forwarded, and nothing was counted (verdict 1).\n",
        Verdict::CreditOfOne => b" 2\n  It was forwarded, with a credit of one (verdict 2).\n",
        Verdict::CreditOfTwo => b" 3\n  It was forwarded, with a credit of two (verdict 3).\n",
        Verdict::FreshContact => b" 4\n  It was forwarded as a fresh contact (verdict 4).\n",
        Verdict::Hygiene => b" 5\n",
        Verdict::Blocked => b" 6\n",
    }
}

// What a refusal means, by its number.
// Kept: the number may be any, of which the enum has nine.
#[tactic(auto, unfolding(lines::specs::Letters::text, crate::specs::Explanations::refused_words))]
fn refused_words(refusal: u8) -> &'static [u8]
    ensures { result.now ≡ refused_words refusal }
{
    match refusal {
        4 => b"\n  It was refused, and not judged: its time is before the clock (refusal 4).\n",
        5 => b"\n  It was refused, and not judged: its header bytes end too soon (refusal 5).\n",
        6 =>
            b"\n  It was refused, and not judged: it has no IPv4 header that can be read (refusal 6).\n",
        _ => b"\n  It was refused, and not judged.\n",
    }
}

// A refusal.
fn put_refusal(room: &mut Room, refusal: u8)
    ensures same { room.new.bytes.ghost_name ≡ room.old.bytes.ghost_name }
    ensures put { room_in room.new ≡ put (refused_text refusal) (room_in room.old) }
{
    room.text(b" R ");
    room.decimal(refusal as u64);
    room.text(refused_words(refusal));
}

// Puts what is told of a record that is refused, by its number and the refusal's, which may be any: where it is the one that is wanted.
pub fn put_refused(room: &mut Room, wanted: Option<u64>, number: u64, refusal: u8)
    ensures same { room.new.bytes.ghost_name ≡ room.old.bytes.ghost_name }
    ensures put { room_in room.new ≡ put (refused_asked wanted number refusal) (room_in room.old) }
{
    if let Some(wanted) = wanted {
        if number == wanted {
            room.decimal(number);
            put_refusal(room, refusal);
        }
    }
}

// What is told of a record that is answered, whatever its verdict.
fn put_explanation(room: &mut Room, number: u64, seconds: u32, explanation: Explanation)
    ensures same { room.new.bytes.ghost_name ≡ room.old.bytes.ghost_name }
    ensures put { room_in room.new ≡ put (explanation_text number seconds (Ok explanation)) (room_in room.old) }
{
    match explanation {
        Explanation::NotOurs => {
            room.decimal(number);
            room.text(
                b" 0\n  It was forwarded: it is no IPv4 packet between the cell and the plant (verdict 0).\n",
            );
        }
        Explanation::Forwarded(verdict) => {
            room.decimal(number);
            room.text(forwarded_text(verdict));
        }
        Explanation::Dropped(drop) => put_drop(
            room,
            Report {
                number,
                seconds,
                drop,
            },
        ),
    }
}

// Whether it is told why a packet was dropped.
fn is_drop(explanation: Explanation) -> bool
    ensures { result ≡ is_drop (Ok explanation) }
{
    matches!(explanation, Explanation::Dropped(_))
}

// Whether a record that is answered is told of: the one with the number that is wanted, and each that was dropped where none is.
fn is_told(wanted: Option<u64>, number: u64, explanation: Explanation) -> bool
    ensures { result ≡ is_told wanted number (Ok explanation) }
{
    match wanted {
        None => is_drop(explanation),
        Some(wanted) => number == wanted,
    }
}

// Puts what is told of a record, by its number and second, where it is asked why: of the one with the number that is wanted, and of each that
// was dropped where none is.
#[tactic(auto, using(lines::proofs::Rooms::put_more, crate::proofs::Refusals::told_refused), unfolding(lines::specs::Room::put))]
pub fn put_asked(
    room: &mut Room,
    wanted: Option<u64>,
    number: u64,
    seconds: u32,
    asked: Option<Result<Explanation, Refusal>>,
)
    ensures same { room.new.bytes.ghost_name ≡ room.old.bytes.ghost_name }
    ensures put { room_in room.new ≡ put (asked_text wanted number seconds asked) (room_in room.old) }
{
    match asked {
        None => {}
        Some(Err(refusal)) => put_refused(room, wanted, number, u8::from(refusal)),
        Some(Ok(explanation)) => {
            if is_told(wanted, number, explanation) {
                put_explanation(room, number, seconds, explanation);
            }
        }
    }
}
