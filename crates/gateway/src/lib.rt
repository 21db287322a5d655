// The gateway: a cold start, a time alone, a packet, and why a packet was dropped. Tables and clock are lent by the caller, and a refused call
// leaves them alone.
#![tactic(auto)]

ghost use Rattle.std.specs.Prelude.{false, ◌≡◌, ◌<◌, ◌≤◌, length};
ghost use Rattle.sides.specs.Lists.{deciding_entry};
ghost use Rattle.tables.specs.Sizes.{bad_sizes};
ghost use Rattle.rulings.specs.Rules.{cell_of, plant_of, slot_rule, rules_of};
ghost use Rattle.gateway.specs.Packets.{replacement_of, spot_of, ruling_at, settled, ours};
ghost use Rattle.gateway.specs.Calls.{SameMemory, state_in, seen_in, after_call, with_outcome, sizes_of, onward, started, passed, judged};
ghost use Rattle.gateway.specs.Why.{met_in, drop_of, why_met, why_ours, why_of};

use packet::Header;
use places::{Place, Placing};
use reasons::{Drop, Explanation};
use refused::Refusal;
use rulings::Ruling;
use rulings::answers::Answer;
use settings::{Limits, Settings};
use sides::{Direction, Entry};
use tables::sizes::Sizes;
use verdicts::Verdict;

// A gateway in its caller's memory: what places packets in its tables, the tables, and the clock. Before its start it has no keys: each is 0.
#[derive(Drop)]
pub struct Gateway<'a> {
    pub placing: Placing,
    pub records: &'a mut [u8],
    pub tags: &'a mut [u32],
    pub counts: &'a mut [i16],
    pub clock: &'a mut u32,
}

// A gateway that is only looked at.
#[derive(Clone, Copy)]
pub struct View<'a> {
    pub placing: Placing,
    pub records: &'a [u8],
    pub tags: &'a [u32],
    pub counts: &'a [i16],
    pub clock: u32,
}

// What stays the same from call to call beside a gateway: its settings, and its side lists.
#[derive(Clone, Copy)]
pub struct Site<'a> {
    pub limits: Limits,
    pub cell: &'a [u8],
    pub plant: &'a [u8],
}

// Counts are in points: each multiple of Dmiss that is passed takes one.
const POINT: u8 = 1;

// Where a packet of ours is looked up: its slot, the number of lines, and its cell address's place in them.
#[derive(Clone, Copy)]
struct Spot {
    slot: usize,
    lines: u32,
    place: Place,
}

// What a packet of ours meets where it is looked up: its record, and its cell address's count.
#[derive(Clone, Copy)]
struct Met {
    byte: u8,
    count: i16,
}

// The ends of a packet of ours: the cell's, and the plant's.
fn ends_of(header: Header, from_plant: bool) -> (u32, u32)
    ensures { result ≡ (cell_of header from_plant, plant_of header from_plant) }
{
    if from_plant {
        (header.destination, header.source)
    } else {
        (header.source, header.destination)
    }
}

// Where a packet of ours is looked up in tables of these lengths.
fn spot_of(placing: Placing, header: Header, from_plant: bool, sizes: Sizes) -> Spot
    requires { (sizes.records ≤ 1048576) × (sizes.tags ≤ 1048576) }
    ensures { result ≡ spot_of slot_rule placing header from_plant sizes.records sizes.tags }
{
    let (cell, plant) = ends_of(header, from_plant);
    let port = u32::from(header.port(from_plant));
    let lines = (sizes.tags / 4) as u32;
    Spot {
        slot: places::slot(&placing.keys, plant, cell, port, sizes.records as u32) as usize,
        lines,
        place: places::place_of(&placing.keys, cell, lines),
    }
}

// The address whose entry a write replaced, if one was, from its line and tag.
fn replacement_of(keys: &[u32; 8], lines: u32, line: u32, replaced: Option<u32>) -> Option<u32>
    ensures { result ≡ replacement_of keys.now lines line replaced }
{
    let tag = replaced?;
    Some(places::address_of(keys, Place { line, tag }, lines))
}

impl Gateway<'_> {
    // How many records, tags and counts its tables have.
    fn sizes(&self) -> Sizes
        ensures { result ≡ sizes_of (state_in self.now).tables }
    {
        self.view().sizes()
    }

    // Starts cold: every record and tag 0, every count -32,768, the clock at the time, and from then on the settings' keys. It is refused by
    // 1 or 2, and then nothing is changed.
    #[tactic(auto, unfolding(crate::specs::Calls::started))]
    pub fn start(&mut self, set: Settings, time: u32) -> Result<(), Refusal>
        ensures same_memory { SameMemory self.old self.new }
        ensures state { after_call result (state_in self.new) ≡ started set time (state_in self.old) }
    {
        refusals::of_start(set.limits, self.sizes())?;
        cold::fill(self.records, self.tags, self.counts);
        *self.clock = time;
        let keys = set.keys;
        self.placing = Placing { keys };
        Ok(())
    }

    // Passes a time, with no packet: records age, counts decay and the clock moves. It is refused by 1, 2 or 4, and then nothing is changed.
    #[tactic(auto, unfolding(crate::specs::Calls::passed))]
    pub fn pass(&mut self, limits: Limits, time: u32) -> Result<(), Refusal>
        ensures same_memory { SameMemory self.old self.new }
        ensures state { after_call result (state_in self.new) ≡ passed (rules_of limits) limits time (state_in self.old) }
    {
        refusals::of_time(limits, self.sizes(), *self.clock, time)?;
        self.go_on(limits, time);
        Ok(())
    }

    // Brings tables and clock to a time.
    fn go_on(&mut self, limits: Limits, time: u32)
        ensures same_memory { SameMemory self.old self.new }
        ensures state { state_in self.new ≡ onward 1 limits time (state_in self.old) }
    {
        tables::clock::pass(
            self.records,
            self.counts,
            self.clock,
            time,
            POINT,
            limits.dmiss,
            limits.dconn,
        );
    }

    // The ruling on a packet of ours, by the record and the count where it is looked up.
    fn ruling_at(&self, limits: Limits, header: Header, from_plant: bool, spot: Spot) -> Ruling
        requires { spot.slot < length self.now.records.now }
        ensures { result ≡ ruling_at (rules_of limits) header from_plant spot (state_in self.now).tables }
    {
        let byte = self.records[spot.slot];
        let count = entries::count_of(self.tags, self.counts, spot.place.line, spot.place.tag);
        rulings::ruling_of(limits, header, from_plant, byte, count)
    }

    // Writes what a ruling makes of the tables, the cell address's entry where it says so, and answers it.
    fn settle(&mut self, spot: Spot, ruling: Ruling) -> Answer
        requires { spot.slot < length self.old.records.now }
        ensures same_memory { SameMemory self.old self.new }
        ensures state { after_call result (state_in self.new)
            ≡ with_outcome (state_in self.old) (settled self.old.placing.keys spot ruling (state_in self.old).tables) }
    {
        let place = spot.place;
        self.records[spot.slot] = ruling.byte;
        let replaced = if ruling.writes {
            entries::write(self.tags, self.counts, place.line, place.tag, ruling.count)
        } else {
            None
        };
        Answer::Judged {
            verdict: ruling.verdict,
            count: ruling.count,
            replaced: replacement_of(&self.placing.keys, spot.lines, place.line, replaced),
        }
    }

    // Judges a packet of ours.
    #[tactic(auto, unfolding(crate::specs::Packets::ours))]
    fn judge_ours(&mut self, limits: Limits, header: Header, from_plant: bool) -> Answer
        requires { bad_sizes (length self.old.records.now) (length self.old.tags.now) (length self.old.counts.now) ≡ false }
        ensures same_memory { SameMemory self.old self.new }
        ensures state { after_call result (state_in self.new)
            ≡ with_outcome (state_in self.old) (ours (rules_of limits) self.old.placing header from_plant (state_in self.old).tables) }
    {
        let spot = spot_of(self.placing, header, from_plant, self.sizes());
        let ruling = self.ruling_at(limits, header, from_plant, spot);
        self.settle(spot, ruling)
    }

    // Judges a packet that comes at a time, and brings tables and clock up to it. Answers the verdict with the count and the replaced
    // address. It is refused by 1 to 6, and then nothing is changed.
    #[tactic(auto, unfolding(crate::specs::Calls::judged, packet::specs::Header::read_of, crate::specs::Packets::by_direction))]
    pub fn judge(&mut self, site: Site<'_>, time: u32, packet: &[u8]) -> Result<Answer, Refusal>
        ensures same_memory { SameMemory self.old self.new }
        ensures state { after_call result (state_in self.new)
            ≡ judged (rules_of site.entry.limits) site.entry.limits site.entry.cell.now site.entry.plant.now time packet.now (state_in self.old) }
    {
        refusals::of_packet(
            site.limits,
            self.sizes(),
            site.cell,
            site.plant,
            *self.clock,
            time,
        )?;
        let header = packet::read(packet)?;
        let (from, to) = (header.source, header.destination);
        let direction = sides::direction_between(site.cell, site.plant, from, to);
        self.go_on(site.limits, time);
        // Packets of both directions go by one call, so that the compiler makes one piece of it all and the keys are not copied for it.
        match direction {
            Direction::NotOurs => Ok(Answer::NotOurs),
            Direction::FromCell | Direction::FromPlant => {
                let from_plant = matches!(direction, Direction::FromPlant);
                Ok(self.judge_ours(site.limits, header, from_plant))
            }
        }
    }

    // The gateway, to be looked at.
    pub fn view(&self) -> View<'_>
        ensures { seen_in result ≡ state_in self.now }
    {
        View {
            placing: self.placing,
            records: self.records,
            tags: self.tags,
            counts: self.counts,
            clock: *self.clock,
        }
    }
}

// The entry of the side lists that decides on an address, by value: its number, and what stands in the part that the lookup hands back.
fn deciding_entry(site: Site<'_>, address: u32) -> Entry
    ensures { result ≡ deciding_entry site.entry.cell.now site.entry.plant.now address }
{
    let number = match sides::winning_entry(site.cell, site.plant, address) {
        Some(winning) => winning.number,
        None => 0,
    };
    sides::entry_in(number, sides::winner(site.cell, site.plant, address))
}

// A packet that is dropped with a verdict: what it met, which facts would have had it forwarded, and the entries that made it ours.
fn drop_of(site: Site<'_>, header: Header, verdict: Verdict, met: Met) -> Drop
    ensures { result ≡ drop_of (rules_of site.entry.limits) site.entry.cell.now site.entry.plant.now header verdict met }
{
    let threshold = site.limits.threshold;
    let marks = records::marks_of(met.byte);
    let cell_entry = deciding_entry(site, header.source);
    let plant_entry = deciding_entry(site, header.destination);
    Drop {
        verdict,
        header,
        count: met.count,
        marks,
        threshold,
        reported: reasons::report(threshold, met.count, marks, header.transport.kind),
        cell_entry,
        plant_entry,
    }
}

// Explains a packet of ours by what it meets.
fn explain_met(site: Site<'_>, header: Header, from_plant: bool, met: Met) -> Explanation
    ensures { result ≡ why_met (rules_of site.entry.limits) site.entry.cell.now site.entry.plant.now header from_plant met }
{
    let blocked = counts::is_blocked(met.count, site.limits.threshold);
    let marks = records::marks_of(met.byte);
    let verdict = verdicts::verdict_of(from_plant, blocked, marks, header.transport.kind);
    if verdicts::is_dropped(verdict) {
        return Explanation::Dropped(drop_of(site, header, verdict, met));
    }
    Explanation::Forwarded(verdict)
}

impl View<'_> {
    // How many records, tags and counts its tables have.
    fn sizes(self) -> Sizes
        ensures { result ≡ sizes_of (seen_in self.entry).tables }
    {
        Sizes {
            records: self.records.len(),
            tags: self.tags.len(),
            counts: self.counts.len(),
        }
    }

    // What a packet of ours would meet at a time: one record aged and one count decayed as the clock would do it. No other is looked at but
    // those of its line.
    fn met_at(self, limits: Limits, spot: Spot, time: u32) -> Met
        requires { spot.slot < length self.records.now }
        ensures { result ≡ met_in spot (onward 1 limits time (seen_in self.entry)).tables }
    {
        let minutes = tables::clock::multiples_passed(60, self.clock, time);
        let multiples = tables::clock::multiples_passed(u32::from(limits.dmiss), self.clock, time);
        let count = entries::count_of(self.tags, self.counts, spot.place.line, spot.place.tag);
        Met {
            byte: records::aged(self.records[spot.slot], minutes, limits.dconn),
            count: counts::decayed(count, u64::from(multiples) * u64::from(POINT)),
        }
    }

    // Explains a packet of ours, at a time.
    #[tactic(auto, unfolding(crate::specs::Why::why_ours))]
    fn explain_ours(
        self,
        site: Site<'_>,
        header: Header,
        from_plant: bool,
        time: u32,
    ) -> Explanation
        requires { bad_sizes (length self.records.now) (length self.tags.now) (length self.counts.now) ≡ false }
        ensures { result ≡ why_ours (rules_of site.entry.limits) self.entry.placing site.entry.cell.now site.entry.plant.now header from_plant
            (onward 1 site.entry.limits time (seen_in self.entry)).tables }
    {
        let spot = spot_of(self.placing, header, from_plant, self.sizes());
        explain_met(
            site,
            header,
            from_plant,
            self.met_at(site.limits, spot, time),
        )
    }

    // Why a packet that comes at a time is dropped: which of four facts, changed alone, would have had it forwarded, with the entries of the
    // side lists that decided, the count and T; or the verdict alone where it is not dropped. It is refused as the packet would be. Tables,
    // clock and lists are only read, and no table is swept or copied.
    #[tactic(auto, unfolding(crate::specs::Why::why_of, packet::specs::Header::read_of, crate::specs::Why::why_by_direction))]
    pub fn why(self, site: Site<'_>, time: u32, packet: &[u8]) -> Result<Explanation, Refusal>
        ensures { result
            ≡ why_of (rules_of site.entry.limits) site.entry.limits site.entry.cell.now site.entry.plant.now time packet.now (seen_in self.entry) }
    {
        refusals::of_packet(
            site.limits,
            self.sizes(),
            site.cell,
            site.plant,
            self.clock,
            time,
        )?;
        let header = packet::read(packet)?;
        let Header {
            source,
            destination,
            ..
        } = header;
        let direction = sides::direction_between(site.cell, site.plant, source, destination);
        match direction {
            Direction::NotOurs => Ok(Explanation::NotOurs),
            Direction::FromCell | Direction::FromPlant => {
                let of_plant = direction == Direction::FromPlant;
                Ok(self.explain_ours(site, header, of_plant, time))
            }
        }
    }
}
