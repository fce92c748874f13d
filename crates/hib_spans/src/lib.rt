//! A journal as a trace, for viewers of traces: sessions as tracks, transactions and locks as spans, steps as marks. A
//! tick is a microsecond. That what is written is the journal's is tested, and not proved.
#![tactic(auto)]

mod events;
mod kept;
mod members;
mod services;

pub use events::perfetto;
pub use services::jaeger;
