//! The edge of the program: sources, sinks and wires, and what is read and written whole.
#![tactic(auto)]

pub mod edge;
pub mod error;
pub mod memory;
pub mod real;
pub mod report;
pub mod script;
pub mod sure;
pub mod whole;

pub use edge::{Arrival, Dialed, Got, Put, Sink, Source, Wire};
pub use error::{PrintFault, ReadError, WriteError};
pub use memory::{MemSink, MemSource};
pub use real::{StdSink, StdSource};
pub use report::{OUTPUT_LIMIT, Report};
pub use script::{Calls, Sizes};
pub use sure::{SureSink, SureSource, SureWire, Texts};
pub use whole::{read_all, write_all};
