// The two tables, and the last sentences.
use crate::cut::Cut;
use crate::extremes::Extremes;
use crate::life::Life;
use std::io::Write;
use std::{fmt, io};

pub const HEADING: &str = "\
The first four hours of a 3 ms link. Times are in us; those of the smoother that stores whole milliseconds in ms.
S and V are the exact averages of RFC 6298, which SRTT and RTTVAR follow in whole us: 0 <= SRTT-S < 7, |RTTVAR-V| < 10.
Places are cut, not rounded. A report comes twice every 7 minutes, and late every 11: both are stale.

                                                                               whole-ms    stale
minute    SRTT           S     SRTT-S  RTTVAR          V   RTTVAR-V jitter   ETX smoother reports  event
";

pub const YEARS_HEADING: &str = "
Ten years of that link: a slow spell and a lossy hour every week, a rekey every day, and 4 ms instead of 3 about
once in 13 minutes. A report a minute, and a line at each year's end; the last three columns are of all its minutes.

                                                                               whole-ms    stale     least  greatest   greatest
  year    SRTT           S     SRTT-S  RTTVAR          V   RTTVAR-V jitter   ETX smoother reports    SRTT-S    SRTT-S |RTTVAR-V|
";

// The columns of both tables.
impl fmt::Display for Life {
    fn fmt<W: fmt::Write>(&self, f: &mut fmt::Formatter<W>) -> fmt::Result {
        let beside = self.beside();
        write!(
            f,
            "{:6}  {:10.3}  {:9.6}  {:6}  {:9.3}  {:9.6}{:7}  {:.2}{:8}  {:7}",
            self.metrics.srtt.srtt_us,
            Cut(beside.average_us),
            Cut(self.above()),
            self.metrics.srtt.rttvar_us,
            Cut(beside.variation_us),
            Cut(self.variation_above()),
            self.last.jitter,
            Cut(self.metrics.etx),
            beside.whole_ms,
            self.metrics.stale_reports,
        )
    }
}

// What begins or ends in a minute of the first hours.
fn event(minute: u32) -> &'static str {
    match minute {
        0 => "  first report: 3 ms",
        3 => "  first repeated report",
        5 => "  first late report",
        40 => "  slow spell begins: 180 ms",
        50 => "  slow spell ends: 3 ms",
        90 => "  rekey",
        120 => "  lossy hour begins",
        180 => "  lossy hour ends",
        _ => "",
    }
}

pub fn minute(out: &mut impl Write, life: &Life, minute: u32) -> io::Result<()> {
    writeln!(out, "{minute:6}  {life}{}", event(minute))
}

pub fn year(out: &mut impl Write, life: &Life, year: u32) -> io::Result<()> {
    writeln!(
        out,
        "{year:6}  {life}  {:9.6} {:9.6}  {:9.6}",
        Cut(life.year.least),
        Cut(life.year.greatest),
        Cut(life.year.variation),
    )
}

pub fn last(out: &mut impl Write, life: &Life, ever: Extremes, years: u32) -> io::Result<()> {
    let metrics = &life.metrics;
    writeln!(
        out,
        "\n{years} years, {} reports: {} round trips, and {} reports that came again or late.",
        metrics.reports_seen, metrics.rtt_samples, metrics.stale_reports,
    )?;
    let srtt = if 0.0 <= ever.least && ever.greatest < 7.0 {
        "It was never below S and never 7 us above it"
    } else {
        "IT WAS BELOW S, OR 7 us ABOVE IT OR MORE"
    };
    writeln!(
        out,
        "SRTT is {:.6} us above the exact average S. {srtt}: {:.6} to {:.6} us.",
        Cut(life.above()),
        Cut(ever.least),
        Cut(ever.greatest),
    )?;
    let rttvar = if ever.variation < 10.0 {
        "RTTVAR was never 10 us off the exact average V"
    } else {
        "RTTVAR WAS 10 us OFF THE EXACT AVERAGE V, OR MORE"
    };
    writeln!(out, "{rttvar}: at most {:.6} us.", Cut(ever.variation))?;
    let beside = life.beside();
    writeln!(
        out,
        "The smoother that stores whole milliseconds says {} ms, where S is {:.3} us.",
        beside.whole_ms,
        Cut(beside.average_us),
    )
}
