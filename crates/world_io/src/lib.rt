//! Files and sinks: what a program reads from and writes to, with every failure counted. There are objects in memory,
//! whose contracts are exact, and adapters over the host, which tell nothing of bytes.
#![tactic(auto)]

mod counts;
mod fail_plan;
mod files;
mod host_files;
mod host_stream;
mod mem_files;
mod mem_sink;
mod reads;
mod sink;
mod writes;

pub use files::{CallList, FileItem, FileList, FileNo, Files, WriteNo};
pub use host_files::HostFiles;
pub use host_stream::{HostErr, HostOut, HostStream};
pub use mem_files::MemFiles;
pub use mem_sink::MemSink;
pub use reads::read_within;
pub use sink::{Failed, Sink};
pub use writes::write_all;
