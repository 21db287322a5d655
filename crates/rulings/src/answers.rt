// What the gateway answers to a packet that it does not refuse.
use verdicts::Verdict;

// That the packet is not ours; or the verdict, its cell address's count after it, and the address that lost its entry to the packet's.
// Kept: with an Option the first would be None, which says less than that it has verdict 0, not ours.
#[derive(Clone, Copy)]
pub enum Answer {
    NotOurs,
    Judged {
        verdict: Verdict,
        count: i16,
        replaced: Option<u32>,
    },
}
