// A receiver with the buffers of its window.
use crate::lines::Stop;
use receiver::ReceiverState;
use refusals::refusal::Refused;
use wire::receiver_report::ReceiverReport;

// The size of each frame.
const BYTES: usize = 100;

#[derive(Clone, Copy)]
pub struct Link {
    pub state: ReceiverState,
    pub times: [u32; 2],
    pub delays: [i64; 2],
}

impl Link {
    // A new receiver, its buffers as long as its window.
    pub fn new() -> Link {
        Link {
            state: ReceiverState::new(2),
            times: [0; 2],
            delays: [0; 2],
        }
    }

    // A frame, sampled.
    pub fn sampled(&mut self, counter: u64, timestamp: u32, now_ms: u64) -> Result<(), Stop> {
        self.state = self.state.record_recv(
            &mut self.times,
            &mut self.delays,
            counter,
            timestamp,
            BYTES,
            false,
            now_ms,
        )?;
        Ok(())
    }

    // A frame that is sampled or only counted, as the call is told.
    pub fn frame(
        &mut self,
        counter: u64,
        timestamp: u32,
        now_ms: u64,
        sampled: bool,
    ) -> Result<(), Stop> {
        self.state = self.state.record_frame(
            &mut self.times,
            &mut self.delays,
            counter,
            timestamp,
            BYTES,
            false,
            now_ms,
            sampled,
        )?;
        Ok(())
    }

    // A report, if one is made, and the receiver after it.
    pub fn build_report(
        self,
        now_ms: u64,
    ) -> Result<(ReceiverState, Option<ReceiverReport>), Refused<ReceiverState>> {
        self.state.build_report(&self.times, &self.delays, now_ms)
    }

    // A report that the rules make.
    pub fn report(self, now_ms: u64) -> Result<ReceiverReport, Stop> {
        let (_, report) = self.build_report(now_ms)?;
        report.ok_or(Stop::Unruly)
    }
}
