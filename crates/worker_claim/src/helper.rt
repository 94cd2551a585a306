use crate::driven::Driven;
use crate::member::Member;
use crate::one_sweep::turns;
use crate::part::sweep_within;
use crate::pausing::pause_where;
use number_deques::Nest;
use region_slots::{Field, Observer, Pauses};

/// So often in a row a helper's turns are in vain before it sweeps.
const PATIENCE: u32 = 16;

/// A member of a crew that hands numbers of regions on: the member, whose `driven` tells what came of its last turns, and
/// its nest.
#[derive(Drop)]
pub struct Helper {
    /// The member: its pass, and what came of its last turns.
    pub member: Member,
    /// Its deque, and its handles on the deques of the others.
    pub nest: Nest,
}

impl Helper {
    ghost use Rattle.std.specs.Prelude.{◌≡◌, ◌<◌, ◌≤◌, IsTrue};
    ghost use Rattle.region_cut.specs.Cuttings.{region_count};
    ghost use Rattle.worker_claim.specs.Helping.{IsHelped, IsHelperOf, IsKept};
    ghost use Rattle.region_slots.specs.Moments.{AreTold, cut_run};
    ghost use Rattle.worker_claim.specs.Turns.{HasWorked, turns_of};

    /// Makes as many turns as so many sweeps have, or fewer where all turns of a whole sweep find their region at the goal
    /// or past it: on regions whose numbers come from the deques, and in sweeps where none comes.
    pub(crate) fn help<W: Observer>(&mut self, field: &Field, goal: u64, sweeps: u32, observer: &W)
        requires helper { IsHelperOf field.now self.old }
        requires in_time { goal ≤ field.now.terms.setup.now.net.steps }
        ensures helped { IsHelped field.now goal sweeps self.old self.new }
        ensures told { AreTold (W.told_held observer.now (cut_run field.now.terms.setup.now)) (W.told_freed observer.now (cut_run field.now.terms.setup.now)) self.old.member.pass.knows.log self.new.member.pass.knows.log }
    {
        let budget = u64::from(sweeps) * u64::from(field.regions());
        let mut pauses = Pauses::none();
        self.member.driven = self.make_turns(field, goal, budget, observer, &mut pauses);
    }

    // Makes so many turns, or fewer where all of a whole sweep find their region at the goal or past it, and lets others go
    // on at most once for each.
    fn make_turns<W: Observer>(
        &mut self,
        field: &Field,
        goal: u64,
        budget: u64,
        observer: &W,
        pauses: &mut Pauses,
    ) -> Driven
        requires helper { IsHelperOf field.now self.old }
        requires in_time { goal ≤ field.now.terms.setup.now.net.steps }
        requires none { pauses.old ≡ 0 }
        ensures kept { IsKept field.now self.old self.new }
        ensures worked { HasWorked field.now.terms self.old.member.pass.knows self.new.member.pass.knows goal budget result }
        ensures told { AreTold (W.told_held observer.now (cut_run field.now.terms.setup.now)) (W.told_freed observer.now (cut_run field.now.terms.setup.now)) self.old.member.pass.knows.log self.new.member.pass.knows.log }
        ensures stops { turns_of result < budget → IsTrue result.all }
        ensures paused { pauses.new ≤ turns_of result }
    {
        let mut driven = Driven::none();
        let mut vain: u32 = 0;
        while driven.turns() < budget && !driven.all {
            let left = budget - driven.turns();
            let made = self.work(field, goal, left, vain, observer);
            // Twice in vain.
            pause_where(pauses, vain > 0 && made.moved == 0 && !made.all);
            let waits = made.moved == 0 && made.held + made.behind > 0;
            vain = if waits { vain.saturating_add(1) } else { 0 };
            driven = driven.then(made);
        }
        driven
    }

    // Turns on the regions of a number that comes from the deques, or a sweep where none comes, as far as the turns left go.
    // In vain once, it steals first. Where its nest keeps a number that there was no memory for it sweeps then, since it may
    // wait for that number's regions; and in vain often it sweeps too, since it may wait for those of a number that another
    // has popped and doesn't come to.
    fn work<W: Observer>(
        &mut self,
        field: &Field,
        goal: u64,
        left: u64,
        vain: u32,
        observer: &W,
    ) -> Driven
        requires helper { IsHelperOf field.now self.old }
        requires in_time { goal ≤ field.now.terms.setup.now.net.steps }
        requires some { 1 ≤ left }
        ensures kept { IsKept field.now self.old self.new }
        ensures worked { HasWorked field.now.terms self.old.member.pass.knows self.new.member.pass.knows goal left result }
        ensures told { AreTold (W.told_held observer.now (cut_run field.now.terms.setup.now)) (W.told_freed observer.now (cut_run field.now.terms.setup.now)) self.old.member.pass.knows.log self.new.member.pass.knows.log }
        ensures some { 1 ≤ turns_of result }
    {
        let waits = vain > 0;
        if vain >= PATIENCE || waits && self.nest.has_refused() {
            return self.sweep(field, goal, left, observer);
        }
        match self.nest.next(waits) {
            Some(region) => self.turns(field, region, goal, left, observer),
            None => self.sweep(field, goal, left, observer),
        }
    }

    // Turns on the regions that a number from the deques stands for, as far as the turns left go. The number goes back unless
    // all of them stand at the goal.
    fn turns<W: Observer>(
        &mut self,
        field: &Field,
        region: u32,
        goal: u64,
        left: u64,
        observer: &W,
    ) -> Driven
        requires helper { IsHelperOf field.now self.old }
        requires there { region < region_count field.now.terms.setup.now.chart.cut }
        requires in_time { goal ≤ field.now.terms.setup.now.net.steps }
        requires some { 1 ≤ left }
        ensures kept { IsKept field.now self.old self.new }
        ensures worked { HasWorked field.now.terms self.old.member.pass.knows self.new.member.pass.knows goal left result }
        ensures told { AreTold (W.told_held observer.now (cut_run field.now.terms.setup.now)) (W.told_freed observer.now (cut_run field.now.terms.setup.now)) self.old.member.pass.knows.log self.new.member.pass.knows.log }
        ensures some { 1 ≤ turns_of result }
    {
        let many = self.nest.chunk_size().min(field.regions() - region);
        let to = region + u64::from(many).min(left) as u32;
        let made = turns(field, &mut self.member.pass, goal, region, to, observer);
        if made.ended < u64::from(many) {
            self.nest.push(region);
        }
        made
    }

    // A sweep, or as many turns of one as are left. The numbers that there was no memory for are pushed again.
    fn sweep<W: Observer>(&mut self, field: &Field, goal: u64, left: u64, observer: &W) -> Driven
        requires helper { IsHelperOf field.now self.old }
        requires in_time { goal ≤ field.now.terms.setup.now.net.steps }
        requires some { 1 ≤ left }
        ensures kept { IsKept field.now self.old self.new }
        ensures worked { HasWorked field.now.terms self.old.member.pass.knows self.new.member.pass.knows goal left result }
        ensures told { AreTold (W.told_held observer.now (cut_run field.now.terms.setup.now)) (W.told_freed observer.now (cut_run field.now.terms.setup.now)) self.old.member.pass.knows.log self.new.member.pass.knows.log }
        ensures some { 1 ≤ turns_of result }
    {
        self.nest.push_refused();
        let first = self.member.first;
        sweep_within(field, &mut self.member.pass, goal, first, left, observer)
    }
}
