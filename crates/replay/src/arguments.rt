// A line's numbers, read one after the other as the arguments of its call. A read that answers none says that the line is malformed.
use crate::reply::Reported;
use std::num::f64_from_bits_with_nan;

// The numbers that are left.
#[derive(Drop)]
pub struct Arguments<'a> {
    pub left: &'a [u64],
}

impl<'a> Arguments<'a> {
    pub fn number(&mut self) -> Option<u64> {
        let (first, others) = self.left.split_first()?;
        self.left = others;
        Some(*first)
    }

    pub fn take<T: Argument>(&mut self) -> Option<T> {
        T::read(self)
    }

    // A buffer or a window: its length, at most that of the room, and so many numbers.
    pub fn list<'r, T: Argument>(&mut self, room: &'r mut [T]) -> Option<&'r mut [T]> {
        let list = room.get_mut(..self.take()?)?;
        for item in list.iter_mut() {
            *item = self.take()?;
        }
        Some(list)
    }

    // Whether none is left over.
    pub fn end(&self) -> Option<()> {
        self.left.is_empty().then_some(())
    }
}

// What stands in a line as an argument of a call, or as a part of one.
pub trait Argument: Copy {
    fn read(args: &mut Arguments<'_>) -> Option<Self>;
}

impl Argument for u8 {
    fn read(args: &mut Arguments<'_>) -> Option<u8> {
        u8::try_from(args.number()?).ok()
    }
}

impl Argument for u16 {
    fn read(args: &mut Arguments<'_>) -> Option<u16> {
        u16::try_from(args.number()?).ok()
    }
}

impl Argument for u32 {
    fn read(args: &mut Arguments<'_>) -> Option<u32> {
        u32::try_from(args.number()?).ok()
    }
}

impl Argument for u64 {
    fn read(args: &mut Arguments<'_>) -> Option<u64> {
        args.number()
    }
}

impl Argument for usize {
    fn read(args: &mut Arguments<'_>) -> Option<usize> {
        usize::try_from(args.number()?).ok()
    }
}

impl Argument for i32 {
    fn read(args: &mut Arguments<'_>) -> Option<i32> {
        i32::try_from(args.take::<i64>()?).ok()
    }
}

impl Argument for i64 {
    fn read(args: &mut Arguments<'_>) -> Option<i64> {
        Some(args.number()?.cast_signed())
    }
}

impl Argument for f64 {
    fn read(args: &mut Arguments<'_>) -> Option<f64> {
        Some(f64_from_bits_with_nan(args.number()?))
    }
}

impl Argument for bool {
    fn read(args: &mut Arguments<'_>) -> Option<bool> {
        match args.number()? {
            0 => Some(false),
            1 => Some(true),
            _ => None,
        }
    }
}

// Whether it is there, and its numbers, which are 0 where it is not.
impl<T: Argument + Reported> Argument for Option<T> {
    fn read(args: &mut Arguments<'_>) -> Option<Self> {
        if args.take()? {
            return Some(Some(args.take()?));
        }
        for _ in 0..T::width() {
            if args.number()? != 0 {
                return None;
            }
        }
        Some(None)
    }
}

// Bytes with no length.
impl<const N: usize> Argument for [u8; N] {
    fn read(args: &mut Arguments<'_>) -> Option<Self> {
        let mut bytes = [0; N];
        for b in bytes.iter_mut() {
            *b = args.take()?;
        }
        Some(bytes)
    }
}
