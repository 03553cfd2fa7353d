//! The supervision limits by name.

/// A supervision limit, whichever the target: each stands for a margin over a speed, and for a place before a target.
/// (SUBSET-026-3 3.13.9.3)
#[derive(Clone, Copy, Debug, PartialEq, Eq)]
pub enum LimitKind {
    /// Emergency brake intervention (EBI).
    Ebi,
    /// Service brake intervention (SBI).
    Sbi,
    /// The warning limit (W).
    Warning,
    /// The permitted limit (P).
    Permitted,
    /// The indication limit (I).
    Indication,
}
