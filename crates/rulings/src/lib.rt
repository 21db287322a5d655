// All that a packet of ours gets: its verdict, and what follows for its record and its cell address's count. Nothing here touches a table.
#![tactic(auto)]

ghost use Rattle.std.specs.Prelude.{None, ◌≡◌};
ghost use Rattle.rulings.specs.Rules.{rules_of};
ghost use Rattle.rulings.specs.Rulings.{count_written, ruling_of};

pub mod answers;

use packet::Header;
use settings::Limits;
use verdicts::Verdict;

// A verdict, and what follows from it: the packet's record, whether the cell address's entry is written, and its count.
// Kept: the count is the answer's, written or not, so that it stands beside the flag.
#[derive(Clone, Copy)]
pub struct Ruling {
    pub verdict: Verdict,
    pub byte: u8,
    pub writes: bool,
    pub count: i16,
}

// The count that a verdict writes over this one, if it writes.
#[tactic(auto, unfolding(crate::specs::Rulings::count_written))]
fn count_after(verdict: Verdict, count: i16, floor: i16) -> Option<i16>
    ensures { result ≡ count_written floor 1 1 None verdict count }
{
    match verdict {
        Verdict::CreditOfOne => Some(counts::lowered(count, 1, floor)),
        Verdict::CreditOfTwo => Some(counts::lowered(count, 2, floor)),
        Verdict::FreshContact => Some(counts::raised(count, 1, 32767)),
        Verdict::Uncounted | Verdict::Hygiene | Verdict::Blocked => None,
    }
}

// All that a packet of ours gets, by the record and the count that it meets: its verdict, its record after it, whether its cell address's
// entry is written, and the count.
pub fn ruling_of(limits: Limits, header: Header, from_plant: bool, byte: u8, count: i16) -> Ruling
    ensures { result ≡ ruling_of (rules_of limits) header from_plant byte count }
{
    let kind = header.transport.kind;
    let blocked = counts::is_blocked(count, limits.threshold);
    let verdict = verdicts::verdict_of(from_plant, blocked, records::marks_of(byte), kind);
    let after = count_after(verdict, count, limits.floor);
    let renewed = verdicts::record_after(from_plant, kind, verdict, byte);
    Ruling {
        verdict,
        byte: renewed,
        writes: after.is_some(),
        count: after.unwrap_or(count),
    }
}
