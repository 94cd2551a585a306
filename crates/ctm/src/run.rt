use delay_report::{recorded_steps, report, run_delay, run_notes, run_rows};
use flow_model::Row;
use network_run::{last_regions, regions_from};
use no_memory::NoMemory;
use region_cut::Layout;
use region_slots::NoObserver;
use region_step::{Note, Regions, Setup, Start};
use std::alloc::Global;
use std::marker::Model;
use std::thread::Threads;

/// A network that has been taken to its last step.
#[derive(Drop)]
pub struct Run<'n> {
    regions: Regions<'n>,
}

// It is what it was opened with, which says all that it has come to.
impl<'n> Model for Run<'n> {
    ghost use Rattle.region_step.specs.Regions.{AreAtLast};
    ghost use Rattle.region_step.specs.Setup.{SetupValue};
    ghost use Rattle.delay_report.specs.FromStart.{IsRecordedFromZero};

    ghost Value = { SetupValue };

    ghost view = { λ run. run.regions.setup };

    ghost invariant = { λ run. AreAtLast run.regions × IsRecordedFromZero run.regions.setup };
}

impl<'n> Run<'n> {
    ghost use Rattle.std.specs.Prelude.{◌≡◌, ◌<◌, ◌≤◌, IfOk, length};
    ghost use Rattle.flow_model.specs.State.{delay_of, state_at};
    ghost use Rattle.region_step.specs.Noting.{notes_of};
    ghost use Rattle.region_step.specs.Regions.{AreAtLast};
    ghost use Rattle.region_step.specs.Setup.{setup_of, zero_setup};
    ghost use Rattle.saved_run.specs.Loading.{CanStart};
    ghost use Rattle.delay_report.specs.FromStart.{IsRecordedFromZero, last_rows, report_from};
    ghost use Rattle.delay_report.specs.Notes.{all_notes, recorded_step};
    ghost use Rattle.delay_report.specs.Report.{recorded_count, report_of};
    ghost use Rattle.ctm.specs.Run.{IsTrueRun};

    /// The run from step 0, by so many workers, each in a thread of its own where one can be made. What each cell holds is
    /// noted at each step that `every` divides and at the last one, never where `every` is 0.
    pub fn of<R: Threads + Sync>(
        rt: &R,
        alloc: Global,
        layout: Layout<'n>,
        every: u64,
        workers: u32,
    ) -> Result<Run<'n>, NoMemory>
        requires workers { (1 ≤ workers) × (workers ≤ 16) }
        ensures run { IfOk result (λ run. run ≡ zero_setup layout.entry every) }
        ensures true_run { IfOk result IsTrueRun }
    {
        let regions = last_regions(rt, alloc, layout, every, workers, &NoObserver)?;
        Ok(Run::at_last(regions))
    }

    /// The run from where a saved one goes on. Nothing is noted of it.
    pub fn resumed<R: Threads + Sync>(
        rt: &R,
        alloc: Global,
        layout: Layout<'n>,
        start: Start,
        workers: u32,
    ) -> Result<Run<'n>, NoMemory>
        requires can_start { CanStart layout.net layout.chart.cut start }
        requires workers { (1 ≤ workers) × (workers ≤ 16) }
        ensures run { IfOk result (λ run. run ≡ setup_of layout.entry start 0) }
    {
        let net = layout.net();
        let setup = Setup::new(layout, start, 0);
        let regions = regions_from(rt, alloc, setup, net.steps, workers, &NoObserver)?;
        Ok(Run::at_last(regions))
    }

    /// The run of regions that have come to the last step, such as those that an observer of one's own has watched.
    pub fn at_last(regions: Regions<'n>) -> Run<'n>
        requires last { AreAtLast regions }
        requires from_zero { IsRecordedFromZero regions.setup }
        ensures { result ≡ regions.entry.setup }
    {
        Run { regions }
    }

    /// The row of each cell at the last step, in the order of the file.
    pub fn rows(&self, alloc: Global) -> Result<Vec<Row>, NoMemory>
        ensures one_each { IfOk result (λ rows. length rows.items ≡ length self.now.net.cells) }
        ensures rows { IfOk result (λ rows. rows.items ≡ last_rows self.now.net self.now.chart.cut self.now.start) }
        ensures recurrences { IfOk result (λ rows. IsTrueRun self.now → rows.items ≡ state_at self.now.net self.now.net.steps) }
    {
        run_rows(alloc, &self.regions)
    }

    /// The delay of all cells, in parts times steps.
    pub fn delay(&self, alloc: Global) -> Result<u128, NoMemory>
        ensures delay { IfOk result (λ sum. sum ≡ delay_of (last_rows self.now.net self.now.chart.cut self.now.start)) }
        ensures recurrences { IfOk result (λ sum. IsTrueRun self.now → sum ≡ delay_of (state_at self.now.net self.now.net.steps)) }
    {
        run_delay(alloc, &self.regions)
    }

    /// The report (docs/FORMAT.md).
    pub fn report(&self, alloc: Global) -> Result<Vec<u8>, NoMemory>
        ensures unrecorded { IfOk result (λ text. self.now.every ≡ 0 → text.items ≡ report_from self.now.net self.now.chart.cut self.now.start) }
        ensures recurrences { IfOk result (λ text. IsTrueRun self.now → text.items ≡ report_of self.now.net self.now.every) }
    {
        report(alloc, &self.regions)
    }

    /// How many steps were noted: 0, `every`, twice `every` and so on, and the last one.
    pub fn noted_steps(&self) -> u64
        ensures { result ≡ recorded_count self.now.net.steps self.now.every }
    {
        let setup = self.regions.setup();
        recorded_steps(setup.layout().net(), setup.every())
    }

    /// What was noted of each cell at the `k`-th of them, from 0 on, in the order of the file.
    pub fn notes(&self, alloc: Global, k: u64) -> Result<Vec<Note>, NoMemory>
        requires noted { k < recorded_count self.now.net.steps self.now.every }
        ensures one_each { IfOk result (λ notes. length notes.items ≡ length self.now.net.cells) }
        ensures notes { IfOk result (λ notes. notes.items ≡ all_notes self.now.net self.now.chart.cut self.now.start (recorded_step self.now.net.steps self.now.every k)) }
        ensures recurrences { IfOk result (λ notes. IsTrueRun self.now → notes.items ≡ notes_of (state_at self.now.net (recorded_step self.now.net.steps self.now.every k))) }
    {
        run_notes(alloc, &self.regions, k)
    }
}
