//! The summary of a trial: five counters, which take each row as it comes.

ghost use Rattle.std.specs.Prelude.{◌≡◌, ◌<◌, ◌≤◌, ◌+◌, suc, ◌+ℤ◌, pos, List, [], ◌∷◌, ◌++◌, length};
ghost use Rattle.std.specs.Int.{int_rem_euclid};
ghost use Rattle.sdm_rules.specs.declared.rows.Row.{Row};
ghost use Rattle.sdm_rules.specs.Records.{most_records};
ghost use Rattle.sdm_formats.specs.Trial.{summary_text};
ghost use Rattle.sdm_trial.specs.Summaries.{counts_of};

use sdm_report::fields::put_count_line;
use sdm_rules::Row;
use sdm_text::RowBuf;
use std::marker::Model;

/// The sum of the EBI places is told modulo this. (own)
const EBI_MODULUS: i64 = 1_000_000_000;

/// The counters of a trial's summary.
#[derive(Drop)]
pub struct Summary {
    rows: u32,
    covered: u32,
    emergency: u32,
    service: u32,
    /// The sum of the EBI places in mm, from 0 to the modulus.
    ebi_mm: u32,
}

impl Model for Summary {
    ghost use Rattle.std.specs.Prelude.{◌<◌, ◌≤◌, pos};
    ghost use Rattle.sdm_rules.specs.Records.{most_records};
    ghost use Rattle.sdm_trial.specs.Summaries.{Counts};

    ghost Value = { Counts };

    ghost view = { λ s. record {
      rows = s.rows;
      covered = s.covered;
      emergency = s.emergency;
      service =
          s.service;
      ebi = pos s.ebi_mm;
    } };

    ghost invariant = { λ s. (s.rows ≤ most_records) × (s.covered ≤ s.rows) × (s.emergency ≤ s.rows)
        × (s.service ≤ s.rows) × (s.ebi_mm < 1_000_000_000) };
}

/// A sum of places, from one that is below the modulus.
#[tactic(auto, using(crate::proofs::Counting::sum_reduced))]
fn sum_of(sum_mm: u32, place_mm: i64) -> u32
    requires { sum_mm < 1_000_000_000 }
    ensures value { pos result ≡ int_rem_euclid (pos sum_mm +ℤ place_mm) (pos 1_000_000_000) }
    ensures below { result < 1_000_000_000 }
{
    let sum = i64::from(sum_mm) + place_mm.rem_euclid(EBI_MODULUS);
    (sum % EBI_MODULUS) as u32
}

impl Summary {
    /// The summary of no rows.
    pub fn new() -> Summary
        ensures { result ≡ counts_of [] }
    {
        Summary {
            rows: 0,
            covered: 0,
            emergency: 0,
            service: 0,
            ebi_mm: 0,
        }
    }

    /// Counts one more row, of at most 100,000. (own)
    #[tactic(auto, using(crate::proofs::Counting::one_more))]
    pub fn add(&mut self, row: &Row)
        requires { self.old.rows < most_records }
        ensures counted { self.new.rows ≡ suc self.old.rows }
        ensures counts { (rows : List Row) → self.old ≡ counts_of rows → self.new ≡ counts_of (rows ++ row.now ∷ []) }
    {
        self.rows += 1;
        self.covered += u32::from(row.covered);
        self.emergency += u32::from(row.held.eb);
        self.service += u32::from(row.held.sb);
        self.ebi_mm = sum_of(self.ebi_mm, row.ebi.unwrap_or(0));
    }

    /// Puts the five lines of the summary into an empty buffer. (own)
    pub fn put(&self, into: &mut RowBuf)
        requires { into.old ≡ [] }
        ensures { (rows : List Row) → self.now ≡ counts_of rows → into.new ≡ summary_text rows }
    {
        put_count_line(b"rows", self.rows, into);
        put_count_line(b"covered", self.covered, into);
        put_count_line(b"emergency", self.emergency, into);
        put_count_line(b"service", self.service, into);
        put_count_line(b"ebi", self.ebi_mm, into);
    }
}
