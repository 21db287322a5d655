// The refusals 1 to 4: whether a call is refused before any header is looked at.
#![tactic(auto)]

ghost use Rattle.std.specs.Prelude.{◌≡◌};
ghost use Rattle.refused.specs.Refused.{answer_unless};
ghost use Rattle.refusals.specs.Refusals.{start_refusal, time_refusal, early_refusal};

use refused::Refusal;
use settings::Limits;
use tables::sizes::Sizes;

// Tests what a cold start is given: it is refused by 1 or 2.
#[tactic(auto, unfolding(crate::specs::Refusals::start_refusal))]
pub fn of_start(limits: Limits, sizes: Sizes) -> Result<(), Refusal>
    ensures { result ≡ answer_unless (start_refusal limits sizes.records sizes.tags sizes.counts) tt }
{
    if limits.is_bad() {
        return Err(Refusal::Settings);
    }
    if sizes.are_bad() {
        return Err(Refusal::Sizes);
    }
    Ok(())
}

// Tests what a time alone is given: it is refused by 1, 2 or 4.
#[tactic(auto, unfolding(crate::specs::Refusals::start_refusal, crate::specs::Refusals::time_refusal))]
pub fn of_time(limits: Limits, sizes: Sizes, clock: u32, time: u32) -> Result<(), Refusal>
    ensures { result ≡ answer_unless (time_refusal limits sizes.records sizes.tags sizes.counts clock time) tt }
{
    of_start(limits, sizes)?;
    if time < clock {
        return Err(Refusal::Time);
    }
    Ok(())
}

// Tests what a packet is given, before its headers are looked at: it is refused by 1 to 4.
#[tactic(auto, unfolding(crate::specs::Refusals::start_refusal, crate::specs::Refusals::early_refusal))]
pub fn of_packet(
    limits: Limits,
    sizes: Sizes,
    cell: &[u8],
    plant: &[u8],
    clock: u32,
    time: u32,
) -> Result<(), Refusal>
    ensures { result ≡ answer_unless (early_refusal limits sizes.records sizes.tags sizes.counts cell.now plant.now clock time) tt }
{
    of_start(limits, sizes)?;
    if sides::bad_list(cell) {
        return Err(Refusal::Lists);
    }
    if sides::bad_list(plant) {
        return Err(Refusal::Lists);
    }
    if clock <= time {
        Ok(())
    } else {
        Err(Refusal::Time)
    }
}
