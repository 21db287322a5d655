// Why a packet from the cell was dropped: which of four facts, changed alone, would have had it forwarded.
#![tactic(auto)]

ghost use Rattle.std.specs.Prelude.{false, ◌≡◌};
ghost use Rattle.laws.specs.Choice.{at_some};
ghost use Rattle.verdicts.specs.Verdicts.{is_forwarded, verdict_of};
ghost use Rattle.reasons.specs.Reasons.{facts_of, kind_values, reported_on};

use packet::Header;
use packet::kinds::Kind;
use records::Marks;
use sides::Entry;
use verdicts::Verdict;

// Four facts, and whether each is reported: the address's count, the plant-to-cell mark, the cell-to-plant mark, the kind of packet.
#[derive(Clone, Copy)]
pub struct Reported {
    pub count: bool,
    pub plant_mark: bool,
    pub cell_mark: bool,
    pub kind: bool,
}

// A packet that was dropped: its verdict, its headers, the count and the marks that it met, T, the facts that are reported, and the entries
// that decided: of the cell list on its source, of the plant list on its destination.
#[derive(Clone, Copy)]
pub struct Drop {
    pub verdict: Verdict,
    pub header: Header,
    pub count: i16,
    pub marks: Marks,
    pub threshold: u16,
    pub reported: Reported,
    pub cell_entry: Entry,
    pub plant_entry: Entry,
}

// What the gateway answers to the question why, where it does not refuse it: that the packet is not ours; the verdict alone of one that is
// forwarded; or why it was dropped.
#[derive(Clone, Copy)]
pub enum Explanation {
    NotOurs,
    Forwarded(Verdict),
    Dropped(Drop),
}

// Whether a packet from the cell is forwarded, by whether its address is blocked, its record's marks and its kind.
fn passes(blocked: bool, marks: Marks, kind: Kind) -> bool
    ensures { result ≡ is_forwarded (verdict_of false blocked marks kind) }
{
    !verdicts::is_dropped(verdicts::verdict_of(false, blocked, marks, kind))
}

const KINDS: [Kind; 5] = [
    Kind::Udp,
    Kind::Opening,
    Kind::SynAck,
    Kind::Closing,
    Kind::Plain,
];

// Whether a packet of some kind is forwarded.
fn passes_as_some_kind(blocked: bool, marks: Marks) -> bool
    ensures { result ≡ at_some (λ kind. is_forwarded (verdict_of false blocked marks kind)) kind_values }
{
    KINDS.iter().any(|kind| passes(blocked, marks, *kind))
}

// Which facts are reported of a packet from the cell with this count, these marks and this kind. Of all counts one below T lets the most
// through, and some count is below any T.
pub fn report(threshold: u16, count: i16, marks: Marks, kind: Kind) -> Reported
    ensures { result ≡ reported_on threshold (facts_of count marks.plant marks.cell kind) }
{
    let blocked = counts::is_blocked(count, threshold);
    let plant = marks.plant;
    let cell = marks.cell;
    Reported {
        count: passes(false, marks, kind),
        plant_mark: passes(blocked, Marks { plant: true, cell }, kind)
            | passes(blocked, Marks { plant: false, cell }, kind),
        cell_mark: passes(blocked, Marks { plant, cell: true }, kind)
            | passes(blocked, Marks { plant, cell: false }, kind),
        kind: passes_as_some_kind(blocked, marks),
    }
}
