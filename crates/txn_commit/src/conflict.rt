/// Why a transaction may not commit: the first of the refs that it read, in after-order, that has a version above the
/// snapshot, by its index among them; and the number of the newest version of that ref.
#[derive(Clone, Copy, Debug, PartialEq, Eq)]
pub struct Conflict {
    pub index: usize,
    pub version: u64,
}
