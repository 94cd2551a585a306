use flow_ledger::Books;
use flow_model::Row;
use network_run::room_near;
use no_memory::NoMemory;
use region_cut::Layout;
use region_slots::NoObserver;
use region_step::Setup;
use saved_run::save;
use snapshot::ShotRoom;
use std::alloc::Global;
use std::marker::Model;
use std::thread::Threads;

/// A moment of a run from step 0: each region at a step of its own, neighbours at most one step apart.
#[derive(Drop)]
pub struct Moment<'n> {
    setup: Setup<'n>,
    room: ShotRoom,
}

impl<'n> Model for Moment<'n> {
    ghost use Rattle.region_step.specs.Start.{zero_start};
    ghost use Rattle.snapshot.specs.Rooms.{IsRoomFor};
    ghost use Rattle.snapshot.specs.Snapshots.{IsSnapshot};
    ghost use Rattle.ctm.specs.Moment.{MomentValue};

    ghost Value = { MomentValue };

    ghost view = { λ moment. record { net = moment.setup.net; chart = moment.setup.chart; room = moment.room } };

    ghost invariant = { λ moment. IsRoomFor moment.setup.chart moment.room
        × IsSnapshot moment.setup.net moment.setup.chart.cut (zero_start moment.setup.net moment.setup.chart.cut) moment.room };
}

impl<'n> Moment<'n> {
    ghost use Rattle.std.specs.Prelude.{◌≡◌, ◌≤◌, ℕ, List, Ok, IfOk, length, min};
    ghost use Rattle.network_file.specs.Network.{Network};
    ghost use Rattle.network_file.specs.Reading.{network_of};
    ghost use Rattle.network_file.specs.declared.limits.TheConstants.{MOST_BYTES};
    ghost use Rattle.flow_ledger.specs.Balances.{books_of};
    ghost use Rattle.snapshot.specs.Shots.{AreStepsBetween, IsBalanced, rows_at};
    ghost use Rattle.network_run.specs.Near.{near_end};
    ghost use Rattle.ctm.specs.Moment.{GoesOnTrue, IsFutureOf};

    /// The moment near the step `until`, or near the last step where that comes first, to which so many workers take all
    /// regions: each stands there or at most four steps past it.
    pub fn near<R: Threads + Sync>(
        rt: &R,
        alloc: Global,
        layout: Layout<'n>,
        until: u64,
        workers: u32,
    ) -> Result<Moment<'n>, NoMemory>
        requires workers { (1 ≤ workers) × (workers ≤ 16) }
        ensures network { IfOk result (λ moment. moment.net ≡ layout.entry.net) }
        ensures chart { IfOk result (λ moment. moment.chart ≡ layout.entry.chart) }
        ensures near { IfOk result (λ moment. AreStepsBetween moment.net moment.chart.cut (min until moment.net.steps) (near_end moment.net until) moment.room.steps) }
    {
        let setup = Setup::zero(alloc, layout, 0)?;
        let room = room_near(rt, alloc, &setup, until, workers, &NoObserver)?;
        Ok(Moment { setup, room })
    }

    /// The step of each region.
    pub fn steps(&self) -> &[u64]
        ensures { result.now ≡ self.now.room.steps }
    {
        self.room.steps()
    }

    /// The row of each cell at the step of its region, in the order of the file.
    pub fn rows(&self) -> &[Row]
        ensures rows { result.now ≡ self.now.room.rows }
        ensures recurrences { result.now ≡ rows_at self.now.net self.now.chart.cut self.now.room.steps }
    {
        let net = self.setup.layout().net();
        let _steps = net.steps;
        self.room.rows()
    }

    /// Its books: what is inside, what is under way between regions, what was there at first, what has entered and left.
    pub fn books(&self) -> Books
        ensures books { result ≡ books_of self.now.net self.now.room.rows }
        ensures balanced { IsBalanced result }
    {
        let net = self.setup.layout().net();
        let _steps = net.steps;
        self.room.books(net)
    }

    /// Its saved text (docs/FORMAT.md), which `load` reads, with the bytes of a network file: its own, or one that has the
    /// same cells and connectors and differs from it from a later step on alone.
    pub fn save(&self, alloc: Global, file: &[u8]) -> Result<Vec<u8>, NoMemory>
        requires few_bytes { length file.now ≤ MOST_BYTES }
        ensures own { IfOk result (λ text. network_of file.now ≡ Ok self.now.net → GoesOnTrue text.items self.now.net self.now.chart.cut) }
        ensures future { IfOk result (λ text. (own : List ℕ) (other : Network) (u : ℕ) →
            network_of file.now ≡ Ok other → IsFutureOf self.now own other u → GoesOnTrue text.items other self.now.chart.cut) }
    {
        let layout = self.setup.layout();
        let net = layout.net();
        let _steps = net.steps;
        let _regions = layout.regions();
        save(alloc, layout, &self.room, file)
    }
}
