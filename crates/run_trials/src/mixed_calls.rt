ghost use Rattle.std.specs.Prelude.{◌≡◌, ◌≤◌, All, length};
ghost use Rattle.snapshot.specs.Rooms.{IsRoomFor};
ghost use Rattle.region_slots.specs.FieldView.{IsPassOf};

use flow_ledger::Books;
use region_cut::Layout;
use region_slots::{Field, Freed, Observer, Pass, Shot, Taken, Watched, Watching};
use snapshot::ShotRoom;
use std::alloc::Global;
use std::sync::atomic::{AtomicU64, Ordering};
use std::thread::{Threads, for_each_mut, yield_now};
use step_words::is_lawful;
use sweeping_crew::drive;

// The last step of the chain.
const LAST: u64 = 200;

// How many shots are taken of it.
pub(crate) const SHOTS: u64 = 100;

// How many shots have shown a field, how many of these weren't sound, and how many were taken on the way.
#[derive(Drop)]
pub(crate) struct Found {
    taken: AtomicU64,
    unsound: AtomicU64,
    midway: AtomicU64,
}

impl Found {
    pub(crate) fn none() -> Found {
        Found {
            taken: AtomicU64::new(0),
            unsound: AtomicU64::new(0),
            midway: AtomicU64::new(0),
        }
    }

    fn note(&self, sound: bool, midway: bool) {
        self.taken.fetch_add(1, Ordering::SeqCst);
        if !sound {
            self.unsound.fetch_add(1, Ordering::SeqCst);
        }
        if midway {
            self.midway.fetch_add(1, Ordering::SeqCst);
        }
    }

    // How many shots were taken.
    pub(crate) fn taken(&self) -> u64 {
        self.taken.load(Ordering::SeqCst)
    }

    // How many of them weren't sound.
    pub(crate) fn unsound(&self) -> u64 {
        self.unsound.load(Ordering::SeqCst)
    }

    // How many of them were taken on the way.
    pub(crate) fn midway(&self) -> u64 {
        self.midway.load(Ordering::SeqCst)
    }
}

// Whoever has brought a region half the way waits for a while until a shot was taken on the way. No region gets past a
// neighbour that isn't there yet, so that none is at the end before.
impl Observer for Found {
    ghost use Rattle.std.specs.Prelude.{⊤};

    ghost told_held = { λ observer run region step. ⊤ };

    ghost told_freed = { λ observer run region step. ⊤ };

    ghost told_watching = { λ observer run seen. ⊤ };

    ghost told_watched = { λ observer run seen shot. ⊤ };

    fn held(&self, taken: Taken) {}

    fn freed(&self, freed: Freed) {
        if freed.step() == LAST / 2 {
            for _ in 0..1_000_000_000 {
                if self.midway() > 0 {
                    return;
                }
            }
        }
    }

    fn watching(&self, watching: Watching) {}

    fn watched(&self, watched: Watched) {}
}

// Has four passes call the field at once: two take turns, one looks, and one shoots.
pub(crate) fn call_at_once<R: Threads + Sync>(
    rt: &R,
    alloc: Global,
    layout: &Layout,
    field: &Field,
    pass: &mut Pass,
    found: &Found,
    goal: u64,
)
    requires network { (field.now.terms.setup.now.net ≡ layout.now.net) × (field.now.terms.setup.now.chart ≡ layout.now.chart) }
    requires belongs { IsPassOf field.now pass.old }
    requires seats { 5 ≤ pass.old.knows.share }
    requires in_time { goal ≤ field.now.terms.setup.now.net.steps }
    ensures belongs { IsPassOf field.now pass.new }
{
    let first = field.share(pass);
    let second = field.share(pass);
    let third = field.share(pass);
    let fourth = field.share(pass);
    let mut passes = [first, second, third, fourth];
    each_calls(rt, alloc, layout, field, &mut passes, found, goal);
}

// Has these passes call the field at once.
fn each_calls<R: Threads + Sync>(
    rt: &R,
    alloc: Global,
    layout: &Layout,
    field: &Field,
    passes: &mut [Pass],
    found: &Found,
    goal: u64,
)
    requires network { (field.now.terms.setup.now.net ≡ layout.now.net) × (field.now.terms.setup.now.chart ≡ layout.now.chart) }
    requires belong { All (IsPassOf field.now) passes.old }
    requires in_time { goal ≤ field.now.terms.setup.now.net.steps }
{
    let work = move |k: usize, pass: &mut Pass|
        requires { IsPassOf field.now pass.old × (goal ≤ field.now.terms.setup.now.net.steps)
            × (field.now.terms.setup.now.net ≡ layout.now.net) × (field.now.terms.setup.now.chart ≡ layout.now.chart) }
    {
        match k {
            0 | 1 => take_turns(field, pass, found, goal, k == 0),
            2 => look_round(field, pass),
            _ => shoot(alloc, layout, field, pass, found),
        }
    };
    for_each_mut(rt, passes, 4, &work);
}

// Drives to the goal, from far from where the other begins.
fn take_turns(field: &Field, pass: &mut Pass, found: &Found, goal: u64, is_first: bool)
    requires belongs { IsPassOf field.now pass.old }
    requires in_time { goal ≤ field.now.terms.setup.now.net.steps }
    ensures belongs { IsPassOf field.now pass.new }
{
    let half = field.regions() / 2;
    let first = if is_first { 0 } else { half };
    drive(field, pass, goal, 1_000_000, first, found);
}

// Looks at all regions, again and again.
fn look_round(field: &Field, pass: &mut Pass)
    requires belongs { IsPassOf field.now pass.old }
    ensures belongs { IsPassOf field.now pass.new }
{
    for k in 0..2_000u32 {
        field.look(pass, k % field.regions());
    }
}

// Takes shots with three tries each, until so many have shown the field, one of them on the way.
fn shoot(alloc: Global, layout: &Layout, field: &Field, pass: &mut Pass, found: &Found)
    requires network { (field.now.terms.setup.now.net ≡ layout.now.net) × (field.now.terms.setup.now.chart ≡ layout.now.chart) }
    requires belongs { IsPassOf field.now pass.old }
    ensures belongs { IsPassOf field.now pass.new }
{
    let net = layout.net();
    let Ok(mut room) = ShotRoom::new(alloc, layout) else {
        return;
    };
    for _ in 0..1_000_000 {
        if found.taken() >= SHOTS && found.midway() > 0 {
            return;
        }
        if field.shot(pass, &mut room, 3) == Shot::Taken {
            let sound = is_lawful(room.steps(), layout) && balances(room.books(net));
            found.note(sound, is_midway(room.steps()));
        }
        yield_now();
    }
}

// Whether the first region stands between the first step and the last.
fn is_midway(steps: &[u64]) -> bool {
    match steps.first() {
        Some(step) => step % LAST != 0,
        None => false,
    }
}

fn balances(books: Books) -> bool {
    let here = books.inside.wrapping_add(books.flight);
    let come = books.initial.wrapping_add(books.entered);
    here == come.wrapping_sub(books.left)
}
