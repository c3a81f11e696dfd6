// metrics.rs: what an end learns of a link from its peer's receiver reports. Times come in as numbers.

#![tactic(auto)]

pub mod updates; // updates.rt: a rekey, and the reverse delivery ratio
pub mod reports; // reports.rt: what a receiver report moves, and how it is processed
pub mod accessors; // accessors.rt: the figures

ghost use Rattle.std.specs.Prelude.{◌≡◌};
ghost use Rattle.refusals.specs.Answers.{passed, admitted};
ghost use Rattle.metrics.specs.State.{fresh, trends_ok, ratios_ok, tallied, keeps_the_rule, refusal_of};

use algorithms::ewma::DualEwma;
use algorithms::srtt::SrttEstimator;
use figures::{Tallies, goodput_ok, tallies_ok};
use refusals::questions::Questions;
use refusals::ranges::{etx_ok, optional_clock_ok, ratio_ok};
use refusals::refusal::{Refusal, Refused};

// Which log entry applies to a report that was processed.
#[derive(Clone, Copy)]
pub enum RrLog {
    // No RTT log point fires (the report carried no timestamp echo). No Option of the others: the rules have this enum as a field of `Outcome`.
    None,
    // The report was ignored as stale or duplicate: the counters kept, for the operator.
    Stale {
        prev_highest: u64,
        prev_packets: u64,
        prev_bytes: u64,
    },
    // A valid RTT sample was taken: its whole ms, and SRTT in ms as it stood before the sample.
    RttSample {
        rtt_ms: u32,
        srtt_ms: f64,
    },
    // The report carried an echo but the derived RTT was invalid.
    InvalidRtt,
}

// What became of a report.
#[derive(Clone, Copy)]
pub struct Outcome {
    // SRTT has just become known.
    pub first_srtt: bool,
    pub log: RrLog,
}

// Derived metrics, updated from the receiver reports of one peer.
#[derive(Clone, Copy)]
pub struct MmpMetrics {
    // Smoothed RTT from timestamp echo.
    pub srtt: SrttEstimator,
    // Dual EWMA trend detectors.
    pub rtt_trend: DualEwma,
    pub loss_trend: DualEwma,
    pub goodput_trend: DualEwma,
    pub jitter_trend: DualEwma,
    pub etx_trend: DualEwma,
    // What fraction of our frames the peer received, and of its frames we did.
    pub delivery_ratio_forward: f64,
    pub delivery_ratio_reverse: f64,
    // ETX computed from bidirectional delivery ratios.
    pub etx: f64,
    // Smoothed goodput in bytes/sec: what the peer received from us.
    pub goodput_bps: f64,
    // --- State for delta computation ---
    pub prev_rr_cum_packets: u64,
    pub prev_rr_cum_bytes: u64,
    pub prev_rr_highest_counter: u64,
    pub prev_rr_ecn_ce: u32,
    pub prev_rr_reorder: u32,
    // Time of the previous report (for goodput rate).
    pub prev_rr_ms: Option<u64>,
    // Whether there is a previous report. A flag beside the numbers and no Option: a call hands back, and replay prints, what they hold where it is off too, and
    // `last_ecn_ce_count` answers one of them whatever it says. The same of the reverse side below.
    pub has_prev_rr: bool,
    // --- State for reverse delivery ratio delta computation ---
    pub prev_reverse_packets: u64,
    pub prev_reverse_highest: u64,
    pub has_prev_reverse: bool,
    // --- Report-processing counters ---
    // Reports that arrived at all, stale ones too.
    pub reports_seen: u64,
    // Reports that produced an accepted RTT sample.
    pub rtt_samples: u64,
    // Echoes whose derived RTT truncated to 0 ms.
    pub rtt_zero: u64,
    // Echoes whose arithmetic failed.
    pub rtt_arith_fail: u64,
    // The most recent accepted RTT in ms, which SRTT smooths away.
    pub last_rtt_ms: Option<u32>,
    // Stale reports.
    pub stale_reports: u64,
    // Fresh reports whose echo was 0.
    pub no_echo_reports: u64,
}

// Highest counter, packets received and reorder count of a report.
#[derive(Clone, Copy)]
pub struct RrCounters {
    pub highest: u64,
    pub packets: u64,
    pub reorders: u32,
}

impl MmpMetrics {
    pub fn new() -> MmpMetrics
        ensures { result ≡ fresh }
    {
        MmpMetrics {
            srtt: SrttEstimator::new(),
            rtt_trend: DualEwma::new(),
            loss_trend: DualEwma::new(),
            goodput_trend: DualEwma::new(),
            jitter_trend: DualEwma::new(),
            etx_trend: DualEwma::new(),
            delivery_ratio_forward: 1.0,
            delivery_ratio_reverse: 1.0,
            etx: 1.0,
            goodput_bps: 0.0,
            prev_rr_cum_packets: 0,
            prev_rr_cum_bytes: 0,
            prev_rr_highest_counter: 0,
            prev_rr_ecn_ce: 0,
            prev_rr_reorder: 0,
            prev_rr_ms: None,
            has_prev_rr: false,
            prev_reverse_packets: 0,
            prev_reverse_highest: 0,
            has_prev_reverse: false,
            reports_seen: 0,
            rtt_samples: 0,
            rtt_zero: 0,
            rtt_arith_fail: 0,
            last_rtt_ms: None,
            stale_reports: 0,
            no_echo_reports: 0,
        }
    }

    // --- The state rule ---

    #[tactic(auto, unfolding(crate::specs::State::trends_ok))]
    fn trends_ok(self) -> bool
        ensures { result ≡ trends_ok self }
    {
        self.rtt_trend.keeps_rule()
            & self.loss_trend.keeps_rule()
            & self.goodput_trend.keeps_rule()
            & self.jitter_trend.keeps_rule()
            & self.etx_trend.keeps_rule()
    }

    #[tactic(auto, unfolding(crate::specs::State::ratios_ok))]
    fn ratios_ok(self) -> bool
        ensures { result ≡ ratios_ok self }
    {
        ratio_ok(self.delivery_ratio_forward)
            & ratio_ok(self.delivery_ratio_reverse)
            & etx_ok(self.etx)
            & goodput_ok(self.goodput_bps)
    }

    #[tactic(auto, unfolding(crate::specs::State::keeps_the_rule))]
    pub fn keeps_rule(self) -> bool
        ensures { result ≡ keeps_the_rule self }
    {
        optional_clock_ok(self.prev_rr_ms)
            & self.srtt.keeps_rule()
            & self.trends_ok()
            & self.ratios_ok()
            & self.tallies_ok()
    }

    // In the record the counts are fields of its own: the rules list them so, and the statement of `history` reads them.
    #[tactic(auto)]
    pub(crate) fn tallies_ok(self) -> bool
        ensures { result ≡ tallied self }
    {
        tallies_ok(Tallies {
            reports_seen: self.reports_seen,
            stale: self.stale_reports,
            no_echo: self.no_echo_reports,
            samples: self.rtt_samples,
            zeros: self.rtt_zero,
            failures: self.rtt_arith_fail,
        })
    }

    // Question 1 alone, for a call with no other: ewma.rt says why each record has these lines.
    #[tactic(auto, unfolding(crate::specs::State::refusal_of, refusals::specs::Questions::first_no, refusals::specs::Questions::asked))]
    fn ask(self) -> Result<(), Refusal>
        ensures { result ≡ passed (refusal_of self) }
    {
        let mut q = Questions::all_yes();
        q.state = self.keeps_rule();
        q.first_no()
    }

    // The same of a call that moves the record.
    #[tactic(auto, unfolding(crate::specs::State::refusal_of, refusals::specs::Questions::first_no, refusals::specs::Questions::asked))]
    fn admit(self) -> Result<(), Refused<MmpMetrics>>
        ensures { result ≡ admitted (refusal_of self) self }
    {
        let mut q = Questions::all_yes();
        q.state = self.keeps_rule();
        q.admit(self)
    }
}

impl Default for MmpMetrics {
    ghost is_default = { λ m. m ≡ fresh };

    fn default() -> MmpMetrics {
        MmpMetrics::new()
    }
}
