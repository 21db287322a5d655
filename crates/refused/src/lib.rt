// Why a call is refused: document 01's refusals, each with its number there.
#![tactic(auto)]

ghost use Rattle.std.specs.Prelude.{◌≡◌};
ghost use Rattle.refused.specs.Refused.{refusal_number};

// The refusals by their numbers: 1 to 8 in document 01, 9 in document 02, K1.
#[derive(Clone, Copy, PartialEq, Eq)]
pub enum Refusal {
    // 1: a setting is outside its range.
    Settings,
    // 2: a table's size is none of those named, or the tag and count lists differ in length.
    Sizes,
    // 3: a side list is not one.
    Lists,
    // 4: the time is before the gateway's clock.
    Time,
    // 5: the header bytes end too soon.
    Short,
    // 6: the IP version, the header length or the total length is wrong.
    Header,
    // 7: a capture's header is short or wrong.
    Capture,
    // 8: a capture's record is cut off or too long.
    Record,
    // 9: there is no room for what is to be written.
    Room,
}

impl From<Refusal> for u8 {
    ghost from_gives = { λ refusal number. number ≡ refusal_number refusal };

    fn from(refusal: Refusal) -> u8 {
        match refusal {
            Refusal::Settings => 1,
            Refusal::Sizes => 2,
            Refusal::Lists => 3,
            Refusal::Time => 4,
            Refusal::Short => 5,
            Refusal::Header => 6,
            Refusal::Capture => 7,
            Refusal::Record => 8,
            Refusal::Room => 9,
        }
    }
}
