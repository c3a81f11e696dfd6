// Report bytes: written, read back, and refused.
use crate::lines::{Lines, Shown};
use codec::reader::TooShort;
use wire::path_mtu::PathMtuNotification;
use wire::receiver_report::ReceiverReport;
use wire::sender_report::SenderReport;

const SENT: SenderReport = SenderReport {
    interval_start_counter: 100,
    interval_end_counter: 200,
    interval_start_timestamp: 5000,
    interval_end_timestamp: 6000,
    interval_bytes_sent: 50000,
    cumulative_packets_sent: 10000,
    cumulative_bytes_sent: 5000000,
};

const RECEIVED: ReceiverReport = ReceiverReport {
    highest_counter: 195,
    cumulative_packets_recv: 9500,
    cumulative_bytes_recv: 4750000,
    timestamp_echo: 5900,
    dwell_time: 5,
    max_burst_loss: 3,
    mean_burst_loss: 384,
    jitter: 1200,
    ecn_ce_count: 0,
    owd_trend: -50,
    burst_loss_count: 2,
    cumulative_reorder_count: 10,
    interval_packets_recv: 95,
    interval_bytes_recv: 47500,
};

// 48 bytes, the type 0x01 first; the last field is read back from the payload.
pub fn sender(out: &mut impl Lines) -> Shown {
    let mut buffer = [255; 50];
    out.refusal("sender report into 50 bytes", SENT.encode(&mut buffer), 0)?;
    out.number("its type byte", buffer[0], 1)?;
    out.number("its last reserved byte", buffer[3], 0)?;
    out.number("its start counter's first byte", buffer[4], 100)?;
    out.number("the byte past it", buffer[48], 255)?;
    let decoded = SenderReport::decode(&buffer[1..]);
    out.refusal("decoded: refusal", decoded, 0)?;
    out.number(
        "decoded: bytes sent",
        decoded?.cumulative_bytes_sent,
        5000000,
    )
}

// 68 bytes, the type 0x02 first; the signed trend comes back with its sign.
pub fn receiver(out: &mut impl Lines) -> Shown {
    let mut buffer = [255; 70];
    out.refusal(
        "receiver report into 70 bytes",
        RECEIVED.encode(&mut buffer),
        0,
    )?;
    out.number("its type byte", buffer[0], 2)?;
    out.number(
        "its reserved bytes before the jitter",
        buffer[38] | buffer[39],
        0,
    )?;
    out.number("the byte past it", buffer[68], 255)?;
    let decoded = ReceiverReport::decode(&buffer[1..]);
    out.refusal("decoded: refusal", decoded, 0)?;
    out.number("decoded: jitter", decoded?.jitter, 1200)?;
    out.holds("decoded: trend is -50", decoded?.owd_trend == -50)
}

pub fn path_mtu(out: &mut impl Lines) -> Shown {
    let mut buffer = [0; 2];
    out.refusal(
        "path MTU 1280 into 2 bytes",
        PathMtuNotification::new(1280).encode(&mut buffer),
        0,
    )?;
    out.number(
        "decoded: path MTU",
        PathMtuNotification::decode(&buffer)?.path_mtu,
        1280,
    )
}

// Every byte of a field counts in its place, the least significant first: the payload is a row of letters.
pub fn in_place(out: &mut impl Lines) -> Shown {
    let letters = b"0123456789abcdefghijklmnopqrstuvwxyzABCDEFGHIJKLMNOPQRSTUVWXYZ.:/-!";
    let sent = SenderReport::decode(letters)?;
    out.number(
        "start counter of the bytes 3456789a",
        sent.interval_start_counter,
        7005692505135330355,
    )?;
    out.number(
        "start time of the bytes jklm",
        sent.interval_start_timestamp,
        1835821930,
    )?;
    out.number(
        "path MTU of the bytes 01",
        PathMtuNotification::decode(letters)?.path_mtu,
        12592,
    )
}

// The least number of a signed field: put together as an i32, its last byte would overflow.
pub fn least_trend(out: &mut impl Lines) -> Shown {
    let mut payload = [0; 67];
    payload[50] = 128;
    out.holds(
        "trend of the bytes 00 00 00 80 is -2147483648",
        ReceiverReport::decode(&payload)?.owd_trend == i32::MIN,
    )
}

// Number 6 for a buffer that is too short, and nothing written.
pub fn no_room(out: &mut impl Lines) -> Shown {
    let mut buffer = [9; 67];
    out.refusal(
        "receiver report into 67 bytes",
        RECEIVED.encode(&mut buffer),
        6,
    )?;
    out.number("the first byte stays", buffer[0], 9)
}

// The lengths needed and given that a refusal tells, 0 and 0 where none does.
fn lengths<T: Copy>(decoded: Result<T, TooShort>) -> (u64, u64) {
    decoded.map_or_else(
        |short| (short.needed as u64, short.given as u64),
        |_| (0, 0),
    )
}

// Number 7 for a payload that is too short, with both lengths.
pub fn too_short(out: &mut impl Lines) -> Shown {
    let payload = [9; 66];
    let received = ReceiverReport::decode(&payload);
    out.refusal("payload of 66: refusal", received, 7)?;
    let (needed, given) = lengths(received);
    out.number("payload of 66: needed", needed, 67)?;
    out.number("payload of 66: given", given, 66)?;
    // Where there is no report, 0 is shown.
    let highest = received.map_or(0, |report| report.highest_counter);
    out.number("payload of 66: highest counter", highest, 0)?;
    out.refusal(
        "sender payload of 66: refusal",
        SenderReport::decode(&payload),
        0,
    )?;
    let (needed, _) = lengths(SenderReport::decode(&payload[..46]));
    out.number("sender payload of 46: needed", needed, 47)
}
