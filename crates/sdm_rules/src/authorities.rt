//! Movement authorities.

/// A movement authority: places in cm, speeds in km/h. (SUBSET-026-3 3.8)
#[derive(Clone, Copy, Debug, PartialEq, Eq)]
pub enum Authority {
    /// To an end of authority, with a supervised location and a release speed; 0 means no release speed.
    Stop { eoa: u32, svl: u32, release: u16 },
    /// To a limit of authority, which is passed at its speed.
    Limit { loa: u32, speed: u16 },
}
