// The sender's record lent by the daemon and updated there.
ghost use Rattle.std.specs.Prelude.{◌≡◌};
ghost use Rattle.sender.specs.State.{refusal_of};
ghost use Rattle.sender.specs.Sent.{sent_of};
ghost use Rattle.sender.specs.Reports.{built_of};
ghost use Rattle.siwolkert.specs.Lent.{some_into, report_into};

use sender::SenderState;
use wire::sender_report::SenderReport;

#[unsafe(no_mangle)]
pub extern "C" fn siwolkert_sender_check(state: &SenderState) -> u8
    ensures { result ≡ refusal_of state.now }
{
    siwolkert::lent::siwolkert_sender_check(state)
}

#[unsafe(no_mangle)]
pub extern "C" fn siwolkert_sender_record_sent(
    state: &mut SenderState,
    counter: u64,
    timestamp: u32,
    bytes: usize,
) -> u8
    ensures { (result ≡ (sent_of state.old counter timestamp bytes).refusal)
        × (state.new ≡ (sent_of state.old counter timestamp bytes).state) }
{
    siwolkert::lent::siwolkert_sender_record_sent(state, counter, timestamp, bytes)
}

#[unsafe(no_mangle)]
pub extern "C" fn siwolkert_sender_build_report(
    state: &mut SenderState,
    now_ms: u64,
    some: &mut bool,
    report: &mut SenderReport,
) -> u8
    ensures { (result ≡ (built_of state.old now_ms).refusal)
        × (state.new ≡ (built_of state.old now_ms).state)
        × (some.new ≡ some_into state.old now_ms some.old)
        × (report.new ≡ report_into state.old now_ms report.old) }
{
    siwolkert::lent::siwolkert_sender_build_report(state, now_ms, some, report)
}
