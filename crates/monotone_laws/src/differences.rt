ghost use Rattle.std.specs.Prelude.{◌≡◌, ◌+◌, ◌<◌, ◌≤◌, length};
ghost use Rattle.flow_model.specs.State.{delay_of};
ghost use Rattle.flow_ledger.specs.Flight.{gone_of};
ghost use Rattle.flow_ledger.specs.Books.{come_of};
ghost use Rattle.monotone_laws.specs.Demands.{MoreByEachStep, MoreInEachStep, SameDemands};
ghost use Rattle.monotone_laws.specs.Eased.{AreAlike, IsEased};
ghost use Rattle.monotone_laws.specs.Links.{HasLinksAlone};
ghost use Rattle.monotone_laws.specs.Moments.{StandAtOneStep};

use flow_ledger::total_delay;
use flow_model::Row;
use network_file::Net;

/// How much more has gone out of a cell in the second network than in the first, in parts, by their rows at one step.
pub fn more_gone(one: &Net, two: &Net, first: &[Row], second: &[Row], cell: u32) -> u64
    requires links { HasLinksAlone one.now }
    requires eased { IsEased one.now two.now }
    requires demands { MoreByEachStep one.now two.now }
    requires rows { StandAtOneStep one.now two.now first.now second.now }
    requires has_cell { cell < length one.now.cells }
    ensures more { gone_of first.now cell + result ≡ gone_of second.now cell }

    // Nor has less come into it.
    ensures come { come_of first.now cell ≤ come_of second.now cell }
{
    let (_one, _two) = (one.steps, two.steps);
    second[cell as usize].gone - first[cell as usize].gone
}

/// How much delay the second network saves against the first, in parts times steps, by their rows at one step.
pub fn delay_saved(one: &Net, two: &Net, first: &[Row], second: &[Row]) -> u128
    requires links { HasLinksAlone one.now }
    requires eased { IsEased one.now two.now }
    requires demands { SameDemands one.now two.now }
    requires rows { StandAtOneStep one.now two.now first.now second.now }
    ensures saved { delay_of second.now + result ≡ delay_of first.now }
{
    let (_one, _two) = (one.steps, two.steps);
    total_delay(first) - total_delay(second)
}

/// How much delay the demands of the second network add, in parts times steps, by their rows at one step.
pub fn delay_added(one: &Net, two: &Net, first: &[Row], second: &[Row]) -> u128
    requires links { HasLinksAlone one.now }
    requires alike { AreAlike one.now two.now }
    requires demands { MoreInEachStep one.now two.now }
    requires rows { StandAtOneStep one.now two.now first.now second.now }
    ensures added { delay_of first.now + result ≡ delay_of second.now }
{
    let (_one, _two) = (one.steps, two.steps);
    total_delay(second) - total_delay(first)
}
