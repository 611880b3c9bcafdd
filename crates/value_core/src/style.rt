/// How strings are written: as their bytes, or so that they can be read again.
#[derive(Clone, Copy, Debug, PartialEq, Eq)]
pub enum Style {
    /// A string is its bytes.
    Plain,
    /// A string stands between quotes, with escapes.
    Readable,
}
