// A link's life in figures: a 3 ms link, a slow spell, a rekey, a lossy hour, and reports that come again or late; then ten years of the same, a line
// a year. Beside our figures stand RFC 6298's exact averages and a smoother that stores whole milliseconds. With an argument it writes every minute of the first
// hours, for tools/draw-life.

#![tactic(auto)]

mod calendar;
mod cut;
mod extremes;
mod life;
mod lines;
mod smoothers;

use calendar::{FIRST_HOURS, Minute, YEAR};
use extremes::Extremes;
use life::Life;
use std::env::{Env, FillError};
use std::io::{BufWriter, Write};
use std::{io, mem};

const YEARS: u32 = 10;

// A minute with an event, every tenth, and the last.
fn shown(minute: u32) -> bool {
    minute % 10 == 0 || minute == 3 || minute == 5 || minute == FIRST_HOURS - 1
}

fn first_hours(out: &mut impl Write, life: &mut Life, every: bool) -> io::Result<()> {
    out.write_all(lines::HEADING.as_bytes())?;
    for minute in 0..FIRST_HOURS {
        life.minute(Minute(minute));
        if every || shown(minute) {
            lines::minute(out, life, minute)?;
        }
    }
    Ok(())
}

// The years begin with the first hours.
fn years(out: &mut impl Write, life: &mut Life) -> io::Result<()> {
    out.write_all(lines::YEARS_HEADING.as_bytes())?;
    let mut ever = Extremes::NONE;
    for minute in FIRST_HOURS..YEARS * YEAR {
        life.minute(Minute(minute));
        if minute % YEAR == YEAR - 1 {
            lines::year(out, life, minute / YEAR + 1)?;
            ever = ever.and(mem::replace(&mut life.year, Extremes::NONE));
        }
    }
    lines::last(out, life, ever, YEARS)
}

fn main(rt: HostRuntime) -> io::Result<()> {
    // An argument of any bytes: one byte of it is enough to know that it is there.
    let every = !matches!(rt.arg(1, &mut [0u8; 1]), Err(FillError::NotPresent));
    let mut life = Life::new();
    let mut out = BufWriter::new(rt.alloc(), io::writer(&rt))?;
    first_hours(&mut out, &mut life, every)?;
    if !every {
        years(&mut out, &mut life)?;
    }
    out.flush()
}
