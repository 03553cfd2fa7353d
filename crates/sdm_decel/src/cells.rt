//! Where what lies under the train may change: where the gradient under it does, where an area of a list begins, and
//! where its rear end has left one. Between two such cells the decelerations stay the same.

ghost use Rattle.std.specs.Prelude.{◌≡◌, ℕ, ℤ, pos, ◌++◌, map, All, Contains, IfOk, OnOk, length, ◌+◌, ◌≤◌};
ghost use Rattle.std.specs.List.Sorted.{IsStrictlyIncreasing};
ghost use Rattle.sdm_rules.specs.Ranges.{longest_track, longest_train};
ghost use Rattle.sdm_track.specs.Ranges.{IsArea};
ghost use Rattle.sdm_decel.specs.StretchCells.{AreGradientsUnder, gradient_starts, area_ends, AreStretches};

use sdm_num::NoMemory;
use sdm_rules::Area;
use sdm_track::{Segments, Track};
use std::alloc::Global;

/// Adds where the segments of gradients start.
fn push_gradients(cells: &mut Vec<u32>, segments: &Segments) -> Result<(), NoMemory>
    ensures { OnOk result (cells.new.items ≡ cells.old.items ++ gradient_starts segments.now) }
{
    for i in 0..segments.count() {
        cells.push(segments.start(i).unsigned_abs())?;
    }
    Ok(())
}

/// Adds where the areas of a list come into force and where the rear end of a train of this length in cm has left
/// them.
fn push_areas(cells: &mut Vec<u32>, areas: &[Area], length_cm: u32) -> Result<(), NoMemory>
    requires areas { All (IsArea (pos longest_track)) areas.now }
    requires length { length_cm ≤ longest_train }
    ensures { OnOk result (cells.new.items ≡ cells.old.items ++ area_ends length_cm areas.now) }
{
    for area in areas {
        cells.push(area.start as u32)?;
        cells.push(area.end as u32 + length_cm)?;
    }
    Ok(())
}

/// Puts the cells in order, each once.
fn put_in_order(cells: &mut Vec<u32>)
    ensures rises { IsStrictlyIncreasing cells.new.items }
    ensures keeps { (x : ℕ) → Contains cells.old.items x → Contains cells.new.items x }
    ensures adds_none { (x : ℕ) → Contains cells.new.items x → Contains cells.old.items x }
    ensures few { length cells.new.items ≤ length cells.old.items }
{
    cells.sort_unstable();
    cells.dedup();
}

/// The cells as the starts of a slope map.
fn starts_of(alloc: Global, cells: &[u32]) -> Result<Vec<i32>, NoMemory>
    requires { All (λ c. c ≤ longest_track + longest_train) cells.now }
    ensures { IfOk result (λ v. v.items ≡ map pos cells.now) }
{
    let mut starts = Vec::new(alloc);
    for cell in cells {
        starts.push(*cell as i32)?;
    }
    Ok(starts)
}

/// The first cells of the stretches of track in each of which the same lies under a train of this length in cm.
pub fn stretches(
    alloc: Global,
    track: &Track,
    segments: &Segments,
    length_cm: u32,
) -> Result<Vec<i32>, NoMemory>
    requires length { length_cm ≤ longest_train }
    requires segments { AreGradientsUnder track.now length_cm segments.now }
    ensures { IfOk result (λ starts. AreStretches track.now (pos length_cm) starts.items) }
{
    let mut cells = Vec::new(alloc);
    cells.push(0)?;
    push_gradients(&mut cells, segments)?;
    push_areas(&mut cells, track.areas(), length_cm)?;
    push_areas(&mut cells, track.no_special_areas(), length_cm)?;
    put_in_order(&mut cells);
    starts_of(alloc, &cells)
}
