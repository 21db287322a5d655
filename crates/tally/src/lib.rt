// The tally of verdicts, by value. The one function over a tally that the caller lends is the library's, `embed::spritgrommet_tally`.
#![tactic(auto)]

ghost use Rattle.std.specs.Prelude.{◌≡◌};
ghost use Rattle.rulings.specs.Answers.{verdict_told};
ghost use Rattle.tally.specs.Tally.{empty_tally, tallied, verdict_numbered};

use refused::Refusal;
use rulings::answers::Answer;

// A total for each verdict, 0 to 6, by its number.
#[repr(C)]
#[derive(Clone, Copy)]
pub struct Tally {
    pub totals: [u32; 7],
}

impl Tally {
    // The tally before the first answer: every total 0.
    pub fn empty() -> Tally
        ensures { result ≡ empty_tally }
    {
        Tally { totals: [0; 7] }
    }

    // The tally with this verdict added, by its number. A number that no verdict has adds nothing.
    pub fn with_verdict(self, number: u8) -> Tally
        ensures { result ≡ tallied self (verdict_numbered number) }
    {
        if 6 < number {
            return self;
        }
        let at = usize::from(number);
        let mut tally = self;
        tally.totals[at] = tally.totals[at].saturating_add(1);
        tally
    }

    // The tally with an answer's verdict added to its total. A refusal has none, and adds nothing.
    #[tactic(auto, using(crate::proofs::Totals::is_numbered), unfolding(crate::specs::Tally::tallied, crate::specs::Tally::verdict_numbered))]
    pub fn with(self, answer: Result<Answer, Refusal>) -> Tally
        ensures { result ≡ tallied self (verdict_told answer) }
    {
        match answer {
            Err(_) => self,
            Ok(Answer::NotOurs) => self.with_verdict(0),
            Ok(Answer::Judged { verdict, .. }) => self.with_verdict(verdicts::number(verdict)),
        }
    }
}
