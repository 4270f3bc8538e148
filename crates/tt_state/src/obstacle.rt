//! Why a class can't be forced to a value.

use tt_clash::Block;

/// Why a class can't be forced to a value.
#[derive(Clone, Copy, Debug, PartialEq, Eq)]
pub enum Obstacle {
    /// The value is blocked.
    Blocked { block: Block },
    /// This class of the value's conflict set, the first one that is locked, holds it.
    Held { class: u32 },
}
