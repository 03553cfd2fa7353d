//! The state of supervision, what triggers commands, and the commands that are held.

/// The type of speed and distance monitoring: ceiling speed, target speed or release speed monitoring. (SUBSET-026-3
/// 3.13.10)
#[derive(Clone, Copy, Debug, PartialEq, Eq)]
pub enum State {
    /// Ceiling speed monitoring.
    C,
    /// Target speed monitoring.
    T,
    /// Release speed monitoring.
    R,
}

/// The supervision status: normal, indication, overspeed, warning, intervention. (SUBSET-026-3 3.13.10)
#[derive(Clone, Copy, Debug, PartialEq, Eq)]
pub enum Status {
    /// Normal.
    N,
    /// Indication.
    I,
    /// Overspeed.
    O,
    /// Warning.
    W,
    /// Intervention.
    X,
}

/// Which supervision limits are passed: permitted, warning, service brake and emergency brake intervention.
/// (SUBSET-026-3 3.13.10; tables own)
#[derive(Clone, Copy, Debug, PartialEq, Eq)]
pub struct Triggers {
    /// Above the permitted speed.
    pub over: bool,
    /// Past a warning limit.
    pub warn: bool,
    /// Past a service brake intervention limit (SBI).
    pub serv: bool,
    /// Past an emergency brake intervention limit (EBI), or another emergency.
    pub emer: bool,
}

/// The commands that are held, with the status: traction cut-off, service brake, emergency brake.
/// (SUBSET-026-3 3.13.10)
#[derive(Clone, Copy, Debug, PartialEq, Eq)]
pub struct Held {
    /// Traction cut-off.
    pub tco: bool,
    /// Service brake.
    pub sb: bool,
    /// Emergency brake.
    pub eb: bool,
    /// The supervision status.
    pub status: Status,
}
