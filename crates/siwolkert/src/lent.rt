// The sender's record lent by the daemon and updated there, thin over the calls by value. A refusal writes nothing.
ghost use Rattle.std.specs.Prelude.{◌≡◌};
ghost use Rattle.sender.specs.State.{refusal_of};
ghost use Rattle.sender.specs.Sent.{sent_of};
ghost use Rattle.sender.specs.Reports.{built_of};
ghost use Rattle.siwolkert.specs.Lent.{some_into, report_into};

use refusals::questions::Questions;
use sender::SenderState;
use wire::sender_report::{SenderReport, no_report};

// Whether a record keeps the state rule.
#[tactic(auto, unfolding(sender::specs::State::refusal_of, refusals::specs::Questions::first_no, refusals::specs::Questions::asked, refusals::specs::Answers::answered, refusals::specs::Answers::numbered))]
pub fn siwolkert_sender_check(state: &SenderState) -> u8
    ensures { result ≡ refusal_of state.now }
{
    let mut q = Questions::all_yes();
    q.state = state.keeps_rule();
    match q.first_no() {
        Ok(()) => 0,
        Err(refusal) => refusal.into(),
    }
}

// A frame is sent.
#[tactic(auto, unfolding(sender::specs::Sent::sent_of, sender::specs::Sent::sent_refusal, refusals::specs::Questions::first_no, refusals::specs::Answers::settled, refusals::specs::Answers::numbered))]
pub fn siwolkert_sender_record_sent(
    state: &mut SenderState,
    counter: u64,
    timestamp: u32,
    bytes: usize,
) -> u8
    ensures { (result ≡ (sent_of state.old counter timestamp bytes).refusal)
        × (state.new ≡ (sent_of state.old counter timestamp bytes).state) }
{
    match state.record_sent(counter, timestamp, bytes) {
        Ok(sent) => {
            *state = sent;
            0
        }
        Err(refused) => refused.refusal.into(),
    }
}

// A report is built where a frame has been sent since the last one; else `some` is false and the report zeros.
#[tactic(auto, unfolding(crate::specs::Lent::some_into, crate::specs::Lent::report_into, sender::specs::Reports::built_of, sender::specs::Reports::built, sender::specs::Reports::report_built, sender::specs::Reports::report_refusal, refusals::specs::Questions::first_no, refusals::specs::Answers::settled_with, refusals::specs::Answers::numbered))]
pub fn siwolkert_sender_build_report(
    state: &mut SenderState,
    now_ms: u64,
    some: &mut bool,
    report: &mut SenderReport,
) -> u8
    ensures { (result ≡ (built_of state.old now_ms).refusal)
        × (state.new ≡ (built_of state.old now_ms).state)
        × (some.new ≡ some_into state.old now_ms some.old)
        × (report.new ≡ report_into state.old now_ms report.old) }
{
    match state.build_report(now_ms) {
        Ok((built, reported)) => {
            *state = built;
            *some = reported.is_some();
            *report = reported.unwrap_or(no_report());
            0
        }
        Err(refused) => refused.refusal.into(),
    }
}
