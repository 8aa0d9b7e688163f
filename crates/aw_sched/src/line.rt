//! A line of a schedule, its names not looked up.
use aw_base::RawTerms;

/// What a line says, in the line's own bytes.
#[derive(Debug, Drop)]
pub enum SchedLine<'a> {
    Start {
        sort: &'a [u8],
        case: u64,
    },
    Choose {
        node: &'a [u8],
        rule: &'a [u8],
        args: RawTerms,
    },
    Deliver(u64),
    Settle,
    List(&'a [u8]),
}
