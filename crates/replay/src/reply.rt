// What a call answers: numbers, as docs/REPLAY.md writes each type.
use crate::line::MOST;
use codec::reader::TooShort;
use refusals::refusal::{Refusal, Refused};
use std::num::f64_to_bits_with_nan;

#[derive(Drop)]
pub struct Reply {
    numbers: [u64; MOST],
    // how many of the numbers are there
    count: usize,
}

impl Reply {
    pub fn new() -> Reply {
        Reply {
            numbers: [0; MOST],
            count: 0,
        }
    }

    pub fn clear(&mut self) {
        self.count = 0;
    }

    pub fn numbers(&self) -> &[u64] {
        self.numbers.get(..self.count).unwrap_or(&[])
    }

    // One number more. The longest answer, a record and two windows, leaves room.
    pub fn number(&mut self, x: u64) {
        if let Some(slot) = self.numbers.get_mut(self.count) {
            *slot = x;
            self.count += 1;
        }
    }

    pub fn put<R: Reported>(&mut self, x: R) {
        x.report(self);
    }

    // A buffer or a window: its length and its numbers.
    pub fn list<R: Reported>(&mut self, items: &[R]) {
        self.put(items.len());
        for &x in items {
            self.put(x);
        }
    }

    // What stands for a value that is not there.
    fn none<R: Reported>(&mut self) {
        for _ in 0..R::width() {
            self.number(0);
        }
    }

    // A refusal's number, and zeros for the value that it stands beside.
    fn refused<R: Reported>(&mut self, refusal: Refusal) {
        self.put(u8::from(refusal));
        self.none::<R>();
    }
}

// What stands in an answer, or is a part of what does.
pub trait Reported: Copy {
    // How many numbers it is.
    fn width() -> usize {
        1
    }

    fn report(self, reply: &mut Reply);
}

impl Reported for () {
    fn width() -> usize {
        0
    }

    fn report(self, _reply: &mut Reply) {}
}

impl Reported for u8 {
    fn report(self, reply: &mut Reply) {
        reply.number(u64::from(self));
    }
}

impl Reported for u16 {
    fn report(self, reply: &mut Reply) {
        reply.number(u64::from(self));
    }
}

impl Reported for u32 {
    fn report(self, reply: &mut Reply) {
        reply.number(u64::from(self));
    }
}

impl Reported for u64 {
    fn report(self, reply: &mut Reply) {
        reply.number(self);
    }
}

impl Reported for usize {
    fn report(self, reply: &mut Reply) {
        reply.number(self as u64);
    }
}

impl Reported for i32 {
    fn report(self, reply: &mut Reply) {
        reply.put(i64::from(self));
    }
}

impl Reported for i64 {
    fn report(self, reply: &mut Reply) {
        reply.number(self.cast_unsigned());
    }
}

impl Reported for f64 {
    fn report(self, reply: &mut Reply) {
        reply.number(f64_to_bits_with_nan(self));
    }
}

impl Reported for bool {
    fn report(self, reply: &mut Reply) {
        reply.number(u64::from(self));
    }
}

impl<T: Reported> Reported for Option<T> {
    fn width() -> usize {
        T::width().saturating_add(1)
    }

    fn report(self, reply: &mut Reply) {
        reply.put(self.is_some());
        match self {
            Some(x) => reply.put(x),
            None => reply.none::<T>(),
        }
    }
}

// Bytes with no length.
impl<const N: usize> Reported for [u8; N] {
    fn width() -> usize {
        N
    }

    fn report(self, reply: &mut Reply) {
        for b in self {
            reply.put(b);
        }
    }
}

// A buffer. Where there is none it is the empty one: its length.
impl Reported for &[u8] {
    fn report(self, reply: &mut Reply) {
        reply.list(self);
    }
}

// One after the other.
impl<T: Reported, U: Reported> Reported for (T, U) {
    fn width() -> usize {
        T::width().saturating_add(U::width())
    }

    fn report(self, reply: &mut Reply) {
        let (first, second) = self;
        reply.put(first);
        reply.put(second);
    }
}

// A call that may refuse: the refusal, 0 for none, and the value.
impl<T: Reported> Reported for Result<T, Refusal> {
    fn width() -> usize {
        T::width().saturating_add(1)
    }

    fn report(self, reply: &mut Reply) {
        match self {
            Ok(x) => {
                reply.number(0);
                reply.put(x);
            }
            Err(refusal) => reply.refused::<T>(refusal),
        }
    }
}

// A length answer, and the value.
impl<T: Reported> Reported for Result<T, TooShort> {
    fn width() -> usize {
        T::width().saturating_add(3)
    }

    fn report(self, reply: &mut Reply) {
        match self {
            Ok(x) => {
                reply.put([0, 0, 0]);
                reply.put(x);
            }
            Err(short) => {
                reply.put(u8::from(Refusal::Payload));
                reply.put(short.needed);
                reply.put(short.given);
                reply.none::<T>();
            }
        }
    }
}

// A call on a record: the refusal, and the record after.
impl<S: Reported> Reported for Result<S, Refused<S>> {
    fn width() -> usize {
        S::width().saturating_add(1)
    }

    fn report(self, reply: &mut Reply) {
        match self {
            Ok(state) => {
                reply.number(0);
                reply.put(state);
            }
            Err(refused) => {
                reply.put(u8::from(refused.refusal));
                reply.put(refused.state);
            }
        }
    }
}

// The same with a value, which stands before the record.
impl<S: Reported, T: Reported> Reported for Result<(S, T), Refused<S>> {
    fn width() -> usize {
        S::width().saturating_add(T::width()).saturating_add(1)
    }

    fn report(self, reply: &mut Reply) {
        match self {
            Ok((state, x)) => {
                reply.number(0);
                reply.put(x);
                reply.put(state);
            }
            Err(refused) => {
                reply.refused::<T>(refused.refusal);
                reply.put(refused.state);
            }
        }
    }
}
