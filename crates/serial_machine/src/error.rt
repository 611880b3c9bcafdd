use thiserror::Error;

/// Why an entry is not done: it is not enabled, or there was no memory.
#[derive(Clone, Copy, Debug, PartialEq, Eq, Error)]
pub enum SerialNo {
    #[error("the entry is not enabled")]
    NotEnabled,
    #[error("out of memory")]
    Memory,
}
