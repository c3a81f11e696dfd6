// codec.rs: bytes read and written with every bound tested. `Reader` and `Writer` are functions on a slice and a place in it.

#![tactic(auto)]

pub mod fields;
pub mod reader;
pub mod writer;

// Where the next byte is read or written.
#[derive(Clone, Copy, Debug, PartialEq, Eq)]
pub struct Place {
    pub pos: usize,
}
