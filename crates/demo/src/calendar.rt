// What happens to the link, and when. The first four hours come again as the first hours of each week.
ghost use Rattle.std.specs.Prelude.{◌<◌, ◌^◌};

pub const FIRST_HOURS: u32 = 4 * 60;

const DAY: u32 = 24 * 60;

const WEEK: u32 = 7 * DAY;

pub const YEAR: u32 = 365 * DAY;

// The minute of each day in which both ends rekey.
const REKEY: u32 = 90;

// 15.9 years: a minute's clock is taken modulo it, so that no clock can overflow. The life is ten years.
const MOST_MINUTES: u32 = 1 << 23;

// A minute has four frames, one to a second: how late each is beside the others.
pub const WOBBLES_MS: [u8; 4] = [0, 1, 3, 0];

const _: () = prove!(
    WOBBLES_MS[0] < 4 && WOBBLES_MS[1] < 4 && WOBBLES_MS[2] < 4 && WOBBLES_MS[3] < 4
);

// A minute of the life.
#[derive(Clone, Copy)]
pub struct Minute(pub u32);

impl Minute {
    // Its beginning by the sender's clock.
    pub fn clock_ms(self) -> u64
        ensures { result < 2 ^ 40 }
    {
        60_000 * u64::from(self.0 % MOST_MINUTES)
    }

    fn of_week(self) -> u32 {
        self.0 % WEEK
    }

    // --- Round trips ---

    // A number below 1024 that looks random from minute to minute (multiplicative hashing).
    fn scattered(self) -> u32 {
        let first = self.0.wrapping_mul(2_654_435_761);
        first.wrapping_add(first >> 15).wrapping_mul(2_246_822_519) >> 22
    }

    // After the first hours about one round trip in thirteen is a little longer.
    fn is_longer(self) -> bool {
        FIRST_HOURS <= self.0 && self.scattered() < 79
    }

    // The slow spell is ten minutes long.
    pub fn round_trip_ms(self) -> u32
        ensures { result < 1000 }
    {
        match self.of_week() {
            40..50 => 180,
            _ if self.is_longer() => 4,
            _ => 3,
        }
    }

    // --- Frames ---

    pub fn rekeys(self) -> bool {
        self.0 % DAY == REKEY
    }

    // The minutes since the last rekey, where counters begin again. The sender's clock goes on, so that its timestamps wrap.
    pub fn of_session(self) -> u32
        ensures { result < 1440 }
    {
        self.0
            .checked_sub(REKEY)
            .map_or(self.0, |since| since % DAY)
    }

    // Half of the frames are lost in the lossy hour.
    pub fn arrives(self, frame: u8) -> bool {
        !(120..180).contains(&self.of_week()) || frame % 2 == 0
    }

    // --- Reports that tell nothing new ---

    // This minute's report comes twice.
    pub fn repeats(self) -> bool {
        self.0 % 7 == 3
    }

    // The report of the minute before comes once more.
    pub fn comes_late(self) -> bool {
        self.0 % 11 == 5
    }
}
