ghost use Rattle.std.specs.Prelude.{◌≡◌, ◌+◌, ◌*◌, ◌<◌, IfOk, length, slice_index};
ghost use Rattle.flow_model.specs.State.{state_at};
ghost use Rattle.region_cut.specs.Cuttings.{region_at};
ghost use Rattle.region_step.specs.Grid.{grid_row};
ghost use Rattle.region_step.specs.Recording.{recorded};
ghost use Rattle.region_step.specs.Noting.{notes_of};
ghost use Rattle.region_step.specs.Regions.{AreAtLast};
ghost use Rattle.region_step.specs.Standing.{Stands};
ghost use Rattle.region_step.specs.Starting.{IsTrueStart};
ghost use Rattle.delay_report.specs.FromStart.{IsRecordedFromZero, grid_note, last_rows};
ghost use Rattle.delay_report.specs.Notes.{all_notes, recorded_step};
ghost use Rattle.delay_report.specs.Places.{IsCellPlace, note_at};
ghost use Rattle.delay_report.specs.Report.{recorded_count};

use crate::cell_places::cell_places;
use flow_model::Row;
use no_memory::NoMemory;
use region_step::{Note, Region, Regions};
use std::alloc::Global;
use std::marker::Model;

/// Regions at the last step, seen cell by cell.
#[derive(Drop)]
pub(crate) struct ByCell<'r> {
    pub(crate) regions: &'r Regions<'r>,
    // The place of each cell among the cells of its region.
    places: Vec<u32>,
}

impl<'r> Model for ByCell<'r> {
    ghost use Rattle.std.specs.Prelude.{length};
    ghost use Rattle.region_step.specs.Regions.{AreAtLast, RegionsValue};
    ghost use Rattle.delay_report.specs.Places.{AreCellPlaces};

    ghost Value = { RegionsValue };

    ghost view = { λ by_cell. by_cell.regions.now };

    ghost invariant = { λ by_cell. AreAtLast by_cell.regions.now
        × AreCellPlaces by_cell.regions.now.setup.chart (length by_cell.regions.now.setup.chart.cut) by_cell.places.items };
}

impl<'r> ByCell<'r> {
    /// The regions, with the place of each of the network's cells found once for all.
    pub(crate) fn of(alloc: Global, regions: &'r Regions<'r>) -> Result<ByCell<'r>, NoMemory>
        requires { AreAtLast regions.now }
        ensures { IfOk result (λ by_cell. by_cell ≡ regions.now) }
    {
        let places = cell_places(alloc, regions.setup().layout())?;
        Ok(ByCell { regions, places })
    }

    /// The row of cell `i`.
    pub(crate) fn row(&self, i: u32) -> Row
        requires { i < length self.now.setup.chart.cut }
        ensures { result ≡ grid_row self.now.setup.net self.now.setup.chart.cut self.now.setup.start self.now.setup.net.steps i }
    {
        let (region, place) = self.find(i);
        region.row(place)
    }

    /// What was noted of cell `i` at the `k`-th recorded step.
    pub(crate) fn note(&self, k: usize, i: u32) -> Note
        requires there { i < length self.now.setup.chart.cut }
        requires from_zero { IsRecordedFromZero self.now.setup }
        requires noted { k < recorded_count self.now.setup.net.steps self.now.setup.every }
        ensures { result ≡ grid_note self.now.setup.net self.now.setup.chart.cut self.now.setup.start
            (slice_index (recorded self.now.setup.net.steps self.now.setup.every 0 self.now.setup.net.steps) k) i }
    {
        let (region, place) = self.find(i);
        let layout = self.regions.setup().layout();
        let cells = layout.cells(layout.region_of(i));
        note_in(region.trail(), cells.len(), k, place)
    }

    // The region of cell `i`, and the cell's place there.
    fn find(&self, i: u32) -> (&Region, u32)
        requires { i < length self.now.setup.chart.cut }
        ensures region { Stands self.now.setup (region_at self.now.setup.chart.cut i) self.now.setup.net.steps result.0.now }
        ensures place { IsCellPlace self.now.setup.chart i result.1 }
    {
        let q = self.regions.setup().layout().region_of(i);
        (&self.regions.list()[q as usize], self.places[i as usize])
    }

    /// The rows of all cells.
    pub(crate) fn rows(&self, alloc: Global) -> Result<Vec<Row>, NoMemory>
        ensures one_each { IfOk result (λ rows. length rows.items ≡ length self.now.setup.net.cells) }
        ensures rows { IfOk result (λ rows. rows.items ≡ last_rows self.now.setup.net self.now.setup.chart.cut self.now.setup.start) }
        ensures recurrences { IfOk result (λ rows. IsTrueStart self.now.setup.net self.now.setup.chart.cut self.now.setup.start →
            rows.items ≡ state_at self.now.setup.net self.now.setup.net.steps) }
    {
        let setup = self.regions.setup();
        let _start = setup.start();
        let net = setup.layout().net();
        let mut rows = Vec::with_capacity(alloc, net.cells.len())?;
        for i in 0..net.cells.len() as u32 {
            rows.push(self.row(i))?;
        }
        Ok(rows)
    }

    /// What was noted of all cells at the `k`-th recorded step.
    pub(crate) fn notes(&self, alloc: Global, k: usize) -> Result<Vec<Note>, NoMemory>
        requires from_zero { IsRecordedFromZero self.now.setup }
        requires noted { k < recorded_count self.now.setup.net.steps self.now.setup.every }
        ensures one_each { IfOk result (λ notes. length notes.items ≡ length self.now.setup.net.cells) }
        ensures notes { IfOk result (λ notes. notes.items ≡ all_notes self.now.setup.net self.now.setup.chart.cut self.now.setup.start
            (recorded_step self.now.setup.net.steps self.now.setup.every k)) }
        ensures recurrences { IfOk result (λ notes. IsTrueStart self.now.setup.net self.now.setup.chart.cut self.now.setup.start →
            notes.items ≡ notes_of (state_at self.now.setup.net (recorded_step self.now.setup.net.steps self.now.setup.every k))) }
    {
        let setup = self.regions.setup();
        let _start = setup.start();
        let net = setup.layout().net();
        let mut notes = Vec::with_capacity(alloc, net.cells.len())?;
        for i in 0..net.cells.len() as u32 {
            notes.push(self.note(k, i))?;
        }
        Ok(notes)
    }
}

// The note of the cell at a place, of the `k`-th recorded step, in the trail of a region of so many cells.
fn note_in(trail: &[Note], cells: usize, k: usize, place: u32) -> Note
    requires { k * cells + place < length trail.now }
    ensures { result ≡ note_at trail.now (k * cells + place) }
{
    trail[k * cells + place as usize]
}
