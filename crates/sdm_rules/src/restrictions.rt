//! Temporary speed restrictions.

/// A temporary speed restriction. (SUBSET-026-3 3.11.5)
#[derive(Clone, Copy, Debug, PartialEq, Eq)]
pub struct Restriction {
    /// By which it is revoked.
    pub id: u16,
    /// Start in cm.
    pub start: u32,
    /// End in cm.
    pub end: u32,
    /// Speed in km/h.
    pub speed: u16,
    /// Whether its end counts for the rear end of the train.
    pub delayed: bool,
}
