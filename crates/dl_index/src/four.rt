//! Four of a kind, for look-ups side by side.

/// Four of a kind.
#[derive(Clone, Copy)]
pub struct Four<T> {
    pub first: T,
    pub second: T,
    pub third: T,
    pub fourth: T,
}
