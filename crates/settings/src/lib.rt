// The settings of a gateway: their factory values, and refusal 1.
#![tactic(auto)]

ghost use Rattle.std.specs.Prelude.{◌≡◌};
ghost use Rattle.settings.specs.Settings.{factory_settings, with_threshold, bad_limits};

// The settings that have a range, which every call of a gateway takes. The type of each number is wider than its range, so that a value
// outside it can be given, and is refused.
#[repr(C)]
#[derive(Clone, Copy)]
pub struct Limits {
    // T, 1 to 255: a cell address is blocked when its count is at least this.
    pub threshold: u16,
    // Cmin, -1,000 to 0: no credit lowers a count below this.
    pub floor: i16,
    // Dmiss, 1 to 3,600: at each multiple of so many seconds every positive count falls by one.
    pub dmiss: u16,
    // Dconn, 1 to 62: a connection record lives over so many minute boundaries.
    pub dconn: u8,
}

// All settings of a gateway. The keys are free, and a cold start alone takes them: from then on the gateway runs on those of its state.
#[repr(C)]
#[derive(Clone, Copy)]
pub struct Settings {
    // The eight round keys of the address permutation.
    pub keys: [u32; 8],
    pub limits: Limits,
}

impl Settings {
    // The factory values of threshold, floor, dmiss and dconn, under document 01's letters; T as document 02, K2, has it.
    pub const T: u16 = 5;

    pub const CMIN: i16 = -20;

    pub const DMISS: u16 = 60;

    pub const DCONN: u8 = 10;

    // The factory settings, with keys all zero.
    pub fn factory() -> Settings
        ensures values { result ≡ factory_settings }
        ensures threshold { Self.T ≡ result.limits.threshold }
        ensures floor { Self.CMIN ≡ result.limits.floor }
        ensures dmiss { Self.DMISS ≡ result.limits.dmiss }
        ensures dconn { Self.DCONN ≡ result.limits.dconn }
    {
        Settings {
            keys: [0; 8],
            limits: Limits {
                threshold: Self::T,
                floor: Self::CMIN,
                dmiss: Self::DMISS,
                dconn: Self::DCONN,
            },
        }
    }

    // The same settings with another T.
    pub fn with_threshold(self, threshold: u16) -> Settings
        ensures { result ≡ with_threshold threshold self }
    {
        Settings {
            limits: Limits {
                threshold,
                ..self.limits
            },
            ..self
        }
    }
}

impl Limits {
    // Refusal 1: whether a setting is outside its range.
    pub fn is_bad(self) -> bool
        ensures { result ≡ bad_limits self }
    {
        // Kept: with `(1..=255).contains(&threshold)` the proof is left open at `returns`, whose tests then go through `partial_cmp`.
        let threshold = self.threshold;
        let floor = self.floor;
        let dmiss = self.dmiss;
        let dconn = self.dconn;
        ((threshold < 1) | (255 < threshold))
            | ((floor < -1000) | (0 < floor))
            | ((dmiss < 1) | (3600 < dmiss))
            | ((dconn < 1) | (62 < dconn))
    }
}
