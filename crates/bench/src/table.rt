// What the loops have in common: the tables of numbers in memory, and a record's fields as they stand there, one after the other from a place that the random
// number picks. The compiler knows nothing of what is read, so it keeps every test of it.
use refusals::refusal::{Refusal, Refused};

// 2^-32.
pub const SCALE: f64 = 1.0 / 4_294_967_296.0;

// The low bits. A cast names its type, so there are two.
pub fn u32_of(x: u64) -> u32 {
    (x % (1 << 32)) as u32
}

pub fn u16_of(x: u64) -> u16 {
    (x % (1 << 16)) as u16
}

// The place below n that the number picks.
pub fn picked(x: u64, n: u64) -> usize {
    if n == 0 { 0 } else { (x % n) as usize }
}

pub fn at<T: Copy + Default>(s: &[T], i: usize) -> T {
    s.get(i).copied().unwrap_or_default()
}

pub fn store<T: Copy>(s: &mut [T], i: usize, value: T) {
    if i < s.len() {
        s[i] = value;
    }
}

// The number of the question that refuses, 0 where none does.
pub fn refusal_of(answer: Result<(), Refusal>) -> u64 {
    match answer {
        Ok(()) => 0,
        Err(refusal) => u64::from(u8::from(refusal)),
    }
}

// The record after a call: as given where it refuses.
pub fn settled<S: Copy>(answer: Result<S, Refused<S>>) -> S {
    answer.unwrap_or_else(|refused| refused.state)
}

// Stores a part of the random number in the table, where it stays below 2^35, and a pair of it in the windows. The three are no struct: the borrow checker does not
// cover a call that is lent two of its fields and reads a third.
pub fn store_drawn(x: u64, numbers: &mut [u64], times: &mut [u32], delays: &mut [i64]) {
    store(numbers, picked(x, 64), x >> 29);
    let slot = picked(x, times.len() as u64);
    store(times, slot, u32_of(x));
    store(delays, slot, (x >> 24).cast_signed());
}

// A record's fields.
#[derive(Clone, Copy)]
pub struct Fields<'a, T> {
    pub all: &'a [T],
    pub from: usize,
}

impl<'a, T: Copy + Default> Fields<'a, T> {
    // Those of the record that the number picks, which begins below 32.
    pub fn picked(all: &'a [T], x: u64) -> Fields<'a, T> {
        Fields {
            all,
            from: picked(x >> 8, 32),
        }
    }

    // Field k.
    pub fn at(&self, k: usize) -> T {
        at(self.all, self.from.wrapping_add(k))
    }
}

impl<'a> Fields<'a, u64> {
    pub fn word(&self, k: usize) -> u32 {
        u32_of(self.at(k))
    }

    // A number that every record has: the shifted part is 0.
    pub fn held(&self, k: usize, number: u64) -> u64 {
        number ^ (self.at(k) >> 35)
    }

    // A flag that is set in every record.
    pub fn is_set(&self, k: usize) -> bool {
        self.at(k) >> 35 == 0
    }
}
