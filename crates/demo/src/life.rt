// Our metrics, the peer's receiver, what stands beside them, and a minute of their life.
use crate::calendar::{Minute, WOBBLES_MS};
use crate::extremes::Extremes;
use crate::smoothers::Smoothers;
use metrics::MmpMetrics;
use receiver::ReceiverState;
use refusals::refusal::Refused;
use std::mem;
use wire::receiver_report::{ReceiverReport, no_report};

// The receiver's window of delay samples.
const WINDOW: usize = 32;

// The receiver's clock is 500 s ahead of the sender's.
const AHEAD_MS: u64 = 500_000;

// Sent timestamps are u32: they wrap after 49.7 days.
const TIMESTAMP_SPAN: u64 = 1 << 32;

#[derive(Drop)]
pub struct Life {
    pub metrics: MmpMetrics,
    receiver: ReceiverState,
    times: [u32; WINDOW],
    delays: [i64; WINDOW],
    // The report before the last one.
    earlier: ReceiverReport,
    pub last: ReceiverReport,
    smoothers: Option<Smoothers>,
    // Of this year.
    pub year: Extremes,
}

// A refusal leaves the state as it was.
fn kept<S: Copy>(answer: Result<S, Refused<S>>) -> S {
    answer.unwrap_or_else(|refused| refused.state)
}

impl Life {
    pub fn new() -> Life {
        Life {
            metrics: MmpMetrics::new(),
            receiver: ReceiverState::new(WINDOW),
            times: [0; WINDOW],
            delays: [0; WINDOW],
            earlier: no_report(),
            last: no_report(),
            smoothers: None,
            year: Extremes::NONE,
        }
    }

    // --- What stands beside ---

    pub fn beside(&self) -> Smoothers {
        self.smoothers.unwrap_or_default()
    }

    // SRTT - S.
    pub fn above(&self) -> f64 {
        floats::nearest_i64_to_f64(self.metrics.srtt.srtt_us) - self.beside().average_us
    }

    // RTTVAR - V.
    pub fn variation_above(&self) -> f64 {
        floats::nearest_i64_to_f64(self.metrics.srtt.rttvar_us) - self.beside().variation_us
    }

    // --- A minute ---

    // Both ends rekey.
    fn rekey(&mut self, now_ms: u64) {
        self.metrics = kept(self.metrics.reset_for_rekey());
        self.receiver = kept(self.receiver.reset_for_rekey(now_ms));
    }

    // The minute's frames reach the peer.
    fn receive(&mut self, minute: Minute) {
        for (frame, wobble_ms) in (0u8..).zip(WOBBLES_MS) {
            if !minute.arrives(frame) {
                continue;
            }
            let sent_ms = minute.clock_ms() + 1000 * u64::from(frame) + 1;
            self.receiver = kept(
                self.receiver.record_recv(
                    &mut self.times,
                    &mut self.delays,
                    4 * u64::from(minute.of_session()) + u64::from(frame),
                    (sent_ms % TIMESTAMP_SPAN) as u32,
                    1200,
                    false,
                    sent_ms + AHEAD_MS + u64::from(wobble_ms),
                ),
            );
        }
    }

    // The peer's report of the minute.
    fn report(&mut self, now_ms: u64) {
        if let Ok((receiver, Some(report))) = self
            .receiver
            .build_report(&self.times, &self.delays, now_ms)
        {
            self.receiver = receiver;
            self.earlier = mem::replace(&mut self.last, report);
        }
    }

    // A report reaches us when its echo, its dwell and a round trip have passed.
    fn hear(&mut self, report: ReceiverReport, rtt_ms: u32, minute: Minute) {
        let ours = report
            .timestamp_echo
            .wrapping_add(u32::from(report.dwell_time))
            .wrapping_add(rtt_ms);
        let processed = self
            .metrics
            .process_receiver_report(report, ours, minute.clock_ms() + 10_000);
        self.metrics = kept(processed.map(|(metrics, _)| metrics));
    }

    // A minute more. Its report may come twice, or the one before late: with times that would be round trips of 900 and 700 ms.
    pub fn minute(&mut self, minute: Minute) {
        let theirs_ms = minute.clock_ms() + AHEAD_MS;
        if minute.rekeys() {
            self.rekey(theirs_ms);
        }
        self.receive(minute);
        self.report(theirs_ms + 3020);

        let rtt_ms = minute.round_trip_ms();
        self.hear(self.last, rtt_ms, minute);
        if minute.repeats() {
            self.hear(self.last, 900, minute);
        }
        if minute.comes_late() {
            self.hear(self.earlier, 700, minute);
        }

        self.smoothers = Some(match self.smoothers {
            None => Smoothers::first(rtt_ms),
            Some(before) => before.after(rtt_ms),
        });
        self.year = self.year.and(Extremes {
            least: self.above(),
            greatest: self.above(),
            variation: self.variation_above().abs(),
        });
    }
}
