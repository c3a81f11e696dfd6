// receiver.rs, the sampling half of a frame, and the echo of a report. `_unchecked` is for a record that has asked the questions.

#![tactic(auto)]

pub mod delay; // delay.rt: one-way delay from a reference
pub mod echo; // echo.rt: the echo of a report
pub mod transit; // transit.rt: the transit difference, and the jitter after it
