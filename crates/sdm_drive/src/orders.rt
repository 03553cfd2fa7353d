//! What a reading orders of the train until the next one.

ghost use Rattle.std.specs.Prelude.{◌≡◌};
ghost use Rattle.sdm_drive.specs.Drive.{is_braked};

/// What holds from a reading to the next. (own)
#[derive(Clone, Copy, Debug, PartialEq, Eq)]
pub struct Orders {
    /// Whether the emergency brake is commanded.
    pub eb: bool,
    /// From when on its brake works, in ds; none where it isn't commanded.
    pub onset: Option<u32>,
    /// Whether the reading was within the SvL: the train is driven only then.
    pub within: bool,
    /// The acceleration of driving, in cm/s².
    pub accel: i16,
}

impl Orders {
    /// Whether the emergency brake is commanded and works at a time.
    pub fn is_braked(self, time: u32) -> bool
        ensures { result ≡ is_braked self time }
    {
        match self.onset {
            Some(onset) => self.eb && onset <= time,
            None => false,
        }
    }
}
