ghost use Rattle.std.specs.Prelude.{◌≡◌, ◌+◌, ◌<◌, ◌≤◌, ◌^◌, ℕ, false, All, IfOk, IsTrue, length, map, slice_index};
ghost use Rattle.std.specs.List.Sorted.{IsStrictlyIncreasing};
ghost use Rattle.chain_order.specs.Order.{IsOrder};
ghost use Rattle.flow_model.specs.Bounds.{IsRowInBounds};
ghost use Rattle.flow_model.specs.State.{occupancy, row_at};
ghost use Rattle.flow_model.specs.Stepping.{rows_after};
ghost use Rattle.cell_sweep.specs.CellStates.{cell_state_at};
ghost use Rattle.region_body.specs.CellRefs.{IsWithin, ref_at};
ghost use Rattle.region_body.specs.Gates.{AreGatesKept};
ghost use Rattle.region_body.specs.Pausing.{AreIdle};
ghost use Rattle.region_body.specs.Placed.{AreCells, ArePlaced, CanAdvance, WaitThrough};
ghost use Rattle.region_body.specs.Rows.{constants_at, rows_of};
ghost use Rattle.cell_sweep.specs.Waiting.{waited};

use crate::carry::carry_all;
use crate::cell_constants::CellConstants;
use crate::cells::Cells;
use crate::connections::join_cells;
use crate::demands::{bring_demands, nothing_demanded};
use crate::followed_connector::{FollowedConnector, follow_connectors};
use crate::followed_link::{FollowedLink, refresh};
use crate::followed_speed::{FollowedSpeed, follow_speeds};
use crate::gate::GatePlace;
use crate::opening::{constants_of, earlier_of, gates_of, nothing_put, states_of};
use crate::pause::{Pause, hold_the_same, note_seen};
use crate::speeds::speeds_of;
use cell_sweep::{CellState, SpeedZone, note_held, sweep_all, wait_all, waited};
use connector_flow::Ratio;
use flow_model::Row;
use network_file::Net;
use no_memory::NoMemory;
use std::alloc::Global;
use std::fmt;
use std::marker::Model;
use step_plan::MOST_STEPS;

/// The rows of some cells of a network at a step, kept as states in their order.
#[derive(Drop)]
pub struct PlacedRows {
    states: Vec<CellState>,
    constants: Vec<CellConstants>,
    before: Vec<u64>,
    // The speed at each place and then in each cell of the halo, none where no cell has speed records; where own cells lie
    // that have some; and how speeds change, none before a step.
    speeds: Vec<Ratio>,
    zones: Vec<SpeedZone>,
    speed_timelines: Vec<FollowedSpeed>,
    speeds_until: u64,
    links: Vec<FollowedLink>,
    connectors: Vec<FollowedConnector>,
    // No connector changes before this step.
    connectors_until: u64,
    gates: Vec<GatePlace>,
    pause: Pause,
    // What was put for the cells of the halo as the pause was found.
    seen: Vec<Option<u64>>,
}

impl Model for PlacedRows {
    ghost use Rattle.std.specs.Prelude.{map};
    ghost use Rattle.region_body.specs.Placed.{PlacedCells};
    ghost use Rattle.region_body.specs.Rows.{AreSettled};
    ghost use Rattle.cell_sweep.specs.Waiting.{waited};

    ghost Value = { PlacedCells };

    ghost view = { λ rows. record {
      states = map (waited rows.pause.owed) rows.states.items;
      constants = rows.constants.items;
      before = rows.before.items;
      speeds = rows.speeds.items;
      zones = rows.zones.items;
      speed_timelines = rows.speed_timelines.items;
      speeds_until = rows.speeds_until;
      links = rows.links.items;
      connectors = rows.connectors.items;
      connectors_until = rows.connectors_until;
      gates = rows.gates.items;
      pause = rows.pause;
      seen = rows.seen.items;
    } };

    ghost invariant = { λ rows. AreSettled rows.constants.items (map (waited rows.pause.owed) rows.states.items) rows.before.items };
}

// States and timelines are not shown.
impl fmt::Debug for PlacedRows {
    fn fmt<W: fmt::Write>(&self, f: &mut fmt::Formatter<W>) -> fmt::Result {
        f.debug_struct("PlacedRows").finish_non_exhaustive()
    }
}

impl PlacedRows {
    /// These cells, placed in their order, with their rows at step `t` and what they held earlier, joined by these
    /// connectors. Of all rows and earlier occupancies those of these cells are used. All memory that a step needs is taken
    /// here.
    pub fn new(
        alloc: Global,
        net: &Net,
        t: u64,
        region: &Cells,
        rows: &[Row],
        earlier: &[u64],
    ) -> Result<PlacedRows, NoMemory>
        requires in_time { t ≤ net.now.steps }
        requires increasing { IsStrictlyIncreasing region.now.cells.now }
        requires order { IsOrder region.now.cells.now region.now.order.now }
        requires cells { AreCells net.now region.now.order.now.placed region.now.halo.now region.now.connectors.now }
        requires rows { All (λ i. i < length rows.now) region.now.order.now.placed }
        requires earlier { All (λ i. i < length earlier.now) region.now.order.now.placed }
        requires bounds { All (λ i. IsRowInBounds net.now t i (row_at rows.now i)) region.now.order.now.placed }
        ensures placed { IfOk result (λ placed. ArePlaced net.now region.now.order.now.placed region.now.halo.now region.now.connectors.now t placed) }
        ensures rows { IfOk result (λ placed. rows_of placed.constants placed.states ≡ map (row_at rows.now) region.now.order.now.placed) }
        ensures before { IfOk result (λ placed. placed.before ≡ map (slice_index earlier.now) region.now.order.now.placed) }
    {
        let _steps = net.steps;
        let cells = region.order.placed();
        let constants = constants_of(alloc, net, cells)?;
        let mut states = states_of(alloc, net, t, cells, rows)?;
        let before = earlier_of(alloc, earlier, cells)?;
        let gates = gates_of(alloc, net, cells)?;
        let connections = join_cells(alloc, net, t, region, &mut states)?;
        let speeds = speeds_of(alloc, net, cells, region.halo)?;
        let seen = nothing_put(alloc, region.halo.len())?;
        Ok(PlacedRows {
            states,
            constants,
            before,
            speeds: speeds.now,
            zones: speeds.zones,
            speed_timelines: speeds.timelines,
            speeds_until: 0,
            links: connections.links,
            connectors: connections.connectors,
            connectors_until: 0,
            gates,
            pause: Pause::NONE,
            seen,
        })
    }

    /// How many cells there are.
    pub fn count(&self) -> usize
        ensures { result ≡ length self.now.constants }
    {
        self.constants.len()
    }

    /// The row of the cell at place `i`.
    pub fn row(&self, i: u32) -> Row
        requires { i < length self.now.constants }
        ensures { result ≡ row_at (rows_of self.now.constants self.now.states) i }
    {
        let state = waited(&self.states[i as usize], self.pause.owed);
        self.constants[i as usize].row(&state)
    }

    /// What the cell at place `i` holds.
    pub fn held(&self, i: u32) -> u64
        requires { i < length self.now.constants }
        ensures { result ≡ occupancy (rows_of self.now.constants self.now.states) i }
    {
        self.states[i as usize].n
    }

    /// All that has gone out of it since step 0.
    pub fn gone(&self, i: u32) -> u64
        requires { i < length self.now.constants }
        ensures { result ≡ (row_at (rows_of self.now.constants self.now.states) i).gone }
    {
        self.states[i as usize].gone
    }

    /// What it held a step before.
    pub fn before(&self, i: u32) -> u64
        requires { i < length self.now.before }
        ensures { result ≡ slice_index self.now.before i }
    {
        self.before[i as usize]
    }

    /// Takes the cells, given as they are placed, through step `t`, by what was put for each cell of their halo. Where
    /// nothing moves among them, and that is known, their states are not looked at.
    pub fn step(&mut self, net: &Net, t: u64, cells: &[u32], put: &[Option<u64>])
        requires in_time { t < net.now.steps }
        requires can { CanAdvance net.now cells.now t self.old put.now }
        ensures rows { (can : CanAdvance net.now cells.now t self.old put.now) → rows_of self.new.constants self.new.states ≡
            rows_after net.now t can.n cells.now (rows_of self.old.constants self.old.states) }
        ensures placed { (can : CanAdvance net.now cells.now t self.old put.now) →
            ArePlaced net.now cells.now can.halo can.connectors (t + 1) self.new }
        ensures before { (p : ℕ) → p < length cells.now → slice_index self.new.before p ≡ (cell_state_at self.old.states p).n }
    {
        let _steps = net.steps;
        if self.waits_through(t, put) {
            self.wait();
        } else {
            self.wake();
            self.take_step(net, t, cells, put);
            self.look(put);
        }
    }

    // Whether nothing moves among the cells in step `t`, as far as it is known.
    fn waits_through(&mut self, t: u64, put: &[Option<u64>]) -> bool
        requires in_time { t ≤ MOST_STEPS }
        requires step { All (λ gate. gate.timeline.step ≤ t) self.old.gates }
        requires seen { length self.old.seen ≡ length put.now }
        ensures only_gates { self.new ≡ record self.old { gates = self.new.gates } }
        ensures gates { AreGatesKept t self.old.gates self.new.gates }
        ensures waits { IsTrue result → WaitThrough t self.old put.now }
    {
        t < self.pause.until
            && hold_the_same(&self.seen, put)
            && nothing_demanded(t, &mut self.gates)
    }

    // They wait a step. That is noted in the first one, and counted in the sums of their states when they wake.
    fn wait(&mut self)
        requires few { self.old.pause.owed ≤ MOST_STEPS }
        requires kept { 1 ≤ self.old.pause.owed → (p : ℕ) → p < length self.old.states → slice_index self.old.before p ≡ (cell_state_at self.old.states p).n }
        requires sums { (p : ℕ) → p < length self.old.constants → (constants_at self.old.constants p).is_exit ≡ false →
            (cell_state_at self.old.states p).held + (cell_state_at self.old.states p).n < 2 ^ 64 }
        ensures waits { self.new ≡ record self.old {
          states = map (waited 1) self.old.states;
          before = self.new.before;
          pause = record self.old.pause { owed = self.old.pause.owed + 1 };
        } }
        ensures long { length self.new.before ≡ length self.old.before }
        ensures before { (p : ℕ) → p < length self.old.states → slice_index self.new.before p ≡ (cell_state_at self.old.states p).n }
    {
        self.note_first();
        self.pause.owed += 1;
    }

    // Notes what they hold, where they don't wait yet.
    fn note_first(&mut self)
        requires kept { 1 ≤ self.old.pause.owed → (p : ℕ) → p < length self.old.states → slice_index self.old.before p ≡ (cell_state_at self.old.states p).n }
        ensures only_before { self.new ≡ record self.old { before = self.new.before } }
        ensures long { length self.new.before ≡ length self.old.before }
        ensures before { (p : ℕ) → p < length self.old.states → slice_index self.new.before p ≡ (cell_state_at self.old.states p).n }
    {
        if self.pause.owed == 0 {
            note_held(&self.states, &mut self.before);
        }
    }

    // Ends their pause.
    fn wake(&mut self)
        ensures { self.new ≡ record self.old { pause = record self.old.pause { owed = 0; until = 0 } } }
    {
        self.count_owed();
        self.pause.until = 0;
    }

    // Counts the steps that they have waited in the sums of their states.
    fn count_owed(&mut self)
        ensures { self.new ≡ record self.old { pause = record self.old.pause { owed = 0 } } }
    {
        if self.pause.owed > 0 {
            wait_all(&mut self.states, self.pause.owed);
            self.pause.owed = 0;
        }
    }

    // Takes them through step `t` by their states.
    fn take_step(&mut self, net: &Net, t: u64, cells: &[u32], put: &[Option<u64>])
        requires in_time { t < net.now.steps }
        requires can { CanAdvance net.now cells.now t self.old put.now }
        requires none_owed { self.old.pause.owed ≡ 0 }
        requires awake { self.old.pause.until ≡ 0 }
        ensures rows { (can : CanAdvance net.now cells.now t self.old put.now) → rows_of self.new.constants self.new.states ≡
            rows_after net.now t can.n cells.now (rows_of self.old.constants self.old.states) }
        ensures placed { (can : CanAdvance net.now cells.now t self.old put.now) →
            ArePlaced net.now cells.now can.halo can.connectors (t + 1) self.new }
        ensures before { (p : ℕ) → p < length cells.now → slice_index self.new.before p ≡ (cell_state_at self.old.states p).n }
        ensures awake { self.new.pause ≡ self.old.pause }
        ensures seen { self.new.seen ≡ self.old.seen }
    {
        let _steps = net.steps;
        refresh(&mut self.links, &mut self.states, t);
        self.speeds_until = follow_speeds(
            t,
            &mut self.speed_timelines,
            &mut self.speeds,
            self.speeds_until,
        );
        self.connectors_until = follow_connectors(t, &mut self.connectors, self.connectors_until);
        sweep_all(
            &mut self.states,
            &self.speeds,
            &self.zones,
            &mut self.before,
        );
        carry_all(
            t,
            &self.connectors,
            &self.speeds,
            &self.before,
            put,
            &mut self.states,
        );
        bring_demands(t, &mut self.gates, &mut self.states);
    }

    // Looks for how long nothing moves among them, as long as what is put for their halo stays.
    fn look(&mut self, put: &[Option<u64>])
        requires none_owed { self.old.pause.owed ≡ 0 }
        requires seen { length self.old.seen ≡ length put.now }
        requires there { All (λ link. link.place < length self.old.states) self.old.links }
        requires cells { All (λ connector. (m : ℕ) → m < 3 → IsWithin (length self.old.states) put.now (ref_at connector.cells m)) self.old.connectors }
        ensures only_pause { self.new ≡ record self.old { pause = self.new.pause; seen = self.new.seen } }
        ensures one_each { length self.new.seen ≡ length put.now }
        ensures none_owed { self.new.pause.owed ≡ 0 }
        ensures idle { (s : ℕ) → s < self.new.pause.until →
            AreIdle self.old.states self.old.speeds self.old.speeds_until self.old.links self.old.connectors self.new.seen self.new.pause.until }
    {
        self.pause = Pause::of(
            self.pause.mover,
            &self.states,
            &self.speeds,
            self.speeds_until,
            &self.links,
            &self.connectors,
            put,
        );
        note_seen(self.pause.until > 0, &mut self.seen, put);
    }
}
