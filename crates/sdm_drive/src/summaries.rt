//! The summary of a drive: counters, which take each row as it comes.

ghost use Rattle.std.specs.Prelude.{◌≡◌, ◌<◌, ◌≤◌, List, [], ◌∷◌, ◌++◌};
ghost use Rattle.sdm_rules.specs.Ranges.{longest_track};
ghost use Rattle.sdm_drive.specs.declared.rows.DriveRow.{DriveRow as DriveRowOf};
ghost use Rattle.sdm_drive.specs.Drive.{drive_text};
ghost use Rattle.sdm_drive.specs.DriveLaws.{most_steps};
ghost use Rattle.sdm_drive.specs.Summaries.{IsRowBefore, counts_of};

use crate::rows::DriveRow;
use sdm_num::Place;
use sdm_report::fields::put_count_line;
use sdm_text::RowBuf;
use std::marker::Model;

/// The counters of a drive's summary. (own)
#[derive(Drop)]
pub struct Summary {
    /// The SvL, in cm.
    svl: u32,
    cycles: u32,
    emergency: u32,
    stops: u32,
    /// The front end after the last row.
    front: Place,
    /// The front end that came nearest to the SvL, at the start or after a row.
    foremost: Place,
}

impl Model for Summary {
    ghost use Rattle.std.specs.Prelude.{pos, ◌-ℤ◌};
    ghost use Rattle.sdm_rules.specs.Cells.{place_of_cell};
    ghost use Rattle.sdm_drive.specs.Summaries.{AreInRange, Counts};

    ghost Value = { Counts };

    ghost view = { λ s. record {
      svl = s.svl;
      cycles = s.cycles;
      emergency = s.emergency;
      stops = s.stops;
      front = s.front;
      least = place_of_cell (pos s.svl) -ℤ s.foremost;
    } };

    ghost invariant = { λ s. AreInRange (record {
      svl = s.svl;
      cycles = s.cycles;
      emergency = s.emergency;
      stops = s.stops;
      front = s.front;
      least = place_of_cell (pos s.svl) -ℤ s.foremost;
    }) };
}

impl Summary {
    /// The summary of no rows, on the way to an SvL in cm.
    pub fn new(svl: u32) -> Summary
        requires { svl ≤ longest_track }
        ensures { result ≡ counts_of svl [] }
    {
        Summary {
            svl,
            cycles: 0,
            emergency: 0,
            stops: 0,
            front: Place::new(0),
            foremost: Place::new(0),
        }
    }

    /// Counts one more row, of at most 100,000.
    #[tactic(auto, using(crate::proofs::Counting::one_more))]
    pub fn add(&mut self, row: &DriveRow)
        requires few { self.old.cycles < most_steps }
        requires row { IsRowBefore self.old.svl row.now }
        ensures { (rows : List DriveRowOf) → self.old ≡ counts_of self.old.svl rows →
            self.new ≡ counts_of self.old.svl (rows ++ row.now ∷ []) }
    {
        self.cycles += 1;
        self.emergency += u32::from(row.row.held.eb);
        self.stops += row.stops;
        self.front = row.front;
        if self.foremost.grains() < row.front.grains() {
            self.foremost = row.front;
        }
    }

    /// Puts the five lines of the summary into an empty buffer. (own)
    pub fn put(&self, into: &mut RowBuf)
        requires { into.old ≡ [] }
        ensures { (rows : List DriveRowOf) → self.now ≡ counts_of self.now.svl rows →
            into.new ≡ drive_text self.now.svl rows }
    {
        let least_mm = Place::of_cm_from_0(self.svl).mm_past(self.foremost);
        put_count_line(b"cycles", self.cycles, into);
        put_count_line(b"emergency", self.emergency, into);
        put_count_line(b"stops", self.stops, into);
        put_count_line(b"front", self.front.mm_above() as u32, into);
        put_count_line(b"least", least_mm as u32, into);
    }
}
