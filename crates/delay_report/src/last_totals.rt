ghost use Rattle.std.specs.Prelude.{◌≡◌, ◌++◌, OnOk};
ghost use Rattle.flow_model.specs.State.{state_at};
ghost use Rattle.region_step.specs.Regions.{AreAtLast};
ghost use Rattle.region_step.specs.Starting.{IsTrueStart};
ghost use Rattle.delay_report.specs.FromStart.{last_rows};
ghost use Rattle.delay_report.specs.Report.{total_line};

use crate::run_end::run_rows;
use crate::total_line::put_total_line;
use no_memory::NoMemory;
use region_step::Regions;
use std::alloc::Global;

/// Appends the report's line of totals alone (docs/FORMAT.md, "The report"), of regions at the last step.
pub fn put_last_totals(alloc: Global, regions: &Regions, text: &mut Vec<u8>) -> Result<(), NoMemory>
    requires last { AreAtLast regions.now }
    ensures totals { OnOk result (text.new.items ≡ text.old.items ++
        total_line regions.now.setup.net (last_rows regions.now.setup.net regions.now.setup.chart.cut regions.now.setup.start)) }

    // Of regions of a true start it is that of the plain recurrences, whatever the cutting.
    ensures recurrences { OnOk result (IsTrueStart regions.now.setup.net regions.now.setup.chart.cut regions.now.setup.start →
        text.new.items ≡ text.old.items ++ total_line regions.now.setup.net (state_at regions.now.setup.net regions.now.setup.net.steps)) }
{
    let rows = run_rows(alloc, regions)?;
    put_total_line(text, regions.setup().layout().net(), &rows)?;
    Ok(())
}
