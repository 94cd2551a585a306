ghost use Rattle.std.specs.Prelude.{◌≡◌, ◌*◌, ◌/◌, ◌<◌, ◌≤◌};

use no_memory::NoMemory;
use number_deques::{Nest, nests};
use region_slots::{Field, Pass};
use std::alloc::Global;
use std::marker::Model;
use worker_claim::{Helper, Member};

/// The workers of a run. From `enlist` to `dismiss` each is a member of the field, with a pass of its own; their nests they
/// keep.
#[derive(Drop)]
pub(crate) struct Crew {
    pub(crate) workers: u32,
    pub(crate) regions: u32,
    // The nests of the workers that aren't members.
    pub(crate) nests: Vec<Nest>,
    pub(crate) helpers: Vec<Helper>,
}

impl Model for Crew {
    ghost use Rattle.std.specs.Prelude.{◌≡◌, ◌+◌, ◌≤◌, length, map, vec_capacity};
    ghost use Rattle.network_run.specs.Crews.{AreHelpersFor, AreNestsFor, CrewValue};

    ghost Value = { CrewValue };

    ghost view = { λ crew. record { workers = crew.workers; regions = crew.regions; members = map (λ helper. helper.member) crew.helpers.items } };

    ghost invariant = { λ crew. (length crew.nests.items + length crew.helpers.items ≡ crew.workers)
        × (crew.workers ≤ vec_capacity crew.nests) × (crew.workers ≤ vec_capacity crew.helpers)
        × AreNestsFor crew.workers crew.regions crew.nests.items × AreHelpersFor crew.workers crew.regions crew.helpers.items };
}

impl Crew {
    ghost use Rattle.std.specs.Prelude.{◌≡◌, ◌≢◌, ◌+◌, ◌<◌, ◌≤◌, ℕ, [], All, IfOk, IsTrue, false, length, slice_index};
    ghost use Rattle.region_cut.specs.Cuttings.{region_count};
    ghost use Rattle.region_slots.specs.FieldView.{IsPassOf};
    ghost use Rattle.network_run.specs.Crews.{HasJoined, HasLeft, IsReached, idle};
    ghost use Rattle.network_run.specs.Enlisted.{AreEnlisted};
    ghost use Rattle.network_run.specs.Run.{AreFrom};

    /// A crew of so many workers for so many regions.
    pub(crate) fn new(alloc: Global, workers: u32, regions: u32) -> Result<Crew, NoMemory>
        requires workers { (1 ≤ workers) × (workers ≤ 16) }
        requires regions { 1 ≤ regions }
        ensures { IfOk result (λ crew. crew ≡ idle workers regions) }
    {
        let nests = nests(alloc, workers, regions)?;
        let helpers = Vec::with_capacity(alloc, workers as usize)?;
        Ok(Crew {
            workers,
            regions,
            nests,
            helpers,
        })
    }

    /// Shares a pass off for each worker, and fills its nest.
    pub(crate) fn enlist(&mut self, field: &Field, pass: &mut Pass)
        requires regions { self.old.regions ≡ region_count field.now.terms.setup.now.chart.cut }
        requires nobody { self.old.members ≡ [] }
        requires belongs { IsPassOf field.now pass.old }
        requires seats { pass.old.knows.share ≡ self.old.workers + 1 }
        ensures same { (self.new.workers ≡ self.old.workers) × (self.new.regions ≡ self.old.regions) }
        ensures many { length self.new.members ≡ self.old.workers }
        ensures belongs { IsPassOf field.now pass.new }
        ensures seat { pass.new.knows.share ≡ 1 }
        ensures knows { (pass.new.knows.seen ≡ pass.old.knows.seen) × (pass.new.knows.reach ≡ pass.old.knows.reach) × (pass.new.knows.log ≡ pass.old.knows.log) }
        ensures nothing { All (λ member. member.pass.knows.log ≡ []) self.new.members }
        ensures enlisted { (most : ℕ) → pass.old.knows.reach ≤ most → AreEnlisted field.now most self.new.members }
    {
        for number in 0..self.workers {
            self.enlist_one(field, pass, number);
        }
    }

    // The same for one of them.
    fn enlist_one(&mut self, field: &Field, pass: &mut Pass, number: u32)
        requires regions { self.old.regions ≡ region_count field.now.terms.setup.now.chart.cut }
        requires one_of { length self.old.members < self.old.workers }
        requires number { number < self.old.workers }
        requires belongs { IsPassOf field.now pass.old }
        requires shares { 2 ≤ pass.old.knows.share }
        ensures joined { HasJoined field.now pass.old pass.new self.old self.new }
    {
        let regions = field.regions();
        let first = first_region(number, regions, self.workers);
        if let Some(mut nest) = self.nests.pop() {
            nest.fill(number, self.workers, regions);
            let member = Member::new(field.share(pass), first);
            self.helpers.push_reserved(Helper { member, nest });
        }
    }

    /// Unites a pass with those of all members.
    pub(crate) fn dismiss(&mut self, field: &Field, pass: &mut Pass)
        requires enlisted { (most : ℕ) × AreEnlisted field.now most self.old.members }
        requires belongs { IsPassOf field.now pass.old }
        ensures same { (self.new.workers ≡ self.old.workers) × (self.new.regions ≡ self.old.regions) }
        ensures nobody { self.new.members ≡ [] }
        ensures belongs { IsPassOf field.now pass.new }
        ensures seats { pass.new.knows.share ≡ pass.old.knows.share + length self.old.members }
        ensures later { (r : ℕ) → slice_index pass.old.knows.seen r ≤ slice_index pass.new.knows.seen r }
        ensures log { AreFrom pass.old.knows.log self.old.members pass.new.knows.log }
        ensures reach { (most : ℕ) → pass.old.knows.reach ≤ most → AreEnlisted field.now most self.old.members → pass.new.knows.reach ≤ most }

        // What the field tells the last that is united.
        ensures reached { pass.new.knows.share ≢ pass.old.knows.share → pass.new.knows.share ≡ field.now.terms.seats → IsReached field.now.terms pass.new.knows }
    {
        while self.dismiss_one(field, pass) {}
    }

    // The same with the last of them, where there is one.
    fn dismiss_one(&mut self, field: &Field, pass: &mut Pass) -> bool
        requires enlisted { (most : ℕ) × AreEnlisted field.now most self.old.members }
        requires belongs { IsPassOf field.now pass.old }
        ensures none { result ≡ false → (self.old.members ≡ []) × (self.new ≡ self.old) × (pass.new ≡ pass.old) }
        ensures left { IsTrue result → HasLeft field.now pass.old pass.new self.old self.new }
    {
        let Some(helper) = self.helpers.pop() else {
            return false;
        };
        let Helper { member, nest } = helper;
        let Member {
            pass: other,
            first: _,
            driven: _,
        } = member;
        field.unite(pass, other);
        self.nests.push_reserved(nest);
        true
    }
}

/// The region at which the sweeps of member `number` of so many begin, far from each other.
pub(crate) fn first_region(number: u32, regions: u32, workers: u32) -> u32
    requires one_of { number < workers }
    requires some { 1 ≤ regions }
    ensures is { result ≡ number * regions / workers }
    ensures there { result < regions }
{
    (u64::from(number) * u64::from(regions) / u64::from(workers)) as u32
}
