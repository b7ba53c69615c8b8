//! The outside of the program: files by their names, and a place for what is printed.
#![tactic(auto)]

mod blame;
mod errors;
mod fault_log;
mod file_list;
mod file_store;
mod mem_sink;
mod mem_store;
mod out_sink;
mod sink;
mod store;
mod sure_sink;
mod sure_store;

pub use blame::Blame;
pub use errors::{SinkError, StoreError};
pub use file_list::have_own_names;
pub use file_store::FileStore;
pub use mem_sink::MemSink;
pub use mem_store::MemStore;
pub use out_sink::OutSink;
pub use sink::Sink;
pub use store::Store;
pub use sure_sink::SureSink;
pub use sure_store::SureStore;
