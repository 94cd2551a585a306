use crate::field::{Field, Pass};
use crate::shot::Shot;
use std::marker::Model;

/// The token that lets an observer be told of a watcher who is about to take a snapshot. Only a field's watch makes one. It
/// borrows the watcher's pass, which the snapshot needs too, so the observer is told before the snapshot.
#[derive(Drop)]
pub struct Watching<'f, 'a> {
    field: &'f Field<'a>,
    pass: &'f Pass,
}

impl<'f, 'a> Model for Watching<'f, 'a> {
    ghost use Rattle.region_slots.specs.Moments.{SightValue, cut_run};

    ghost Value = { SightValue };

    ghost view = { λ watching. record { run = cut_run watching.field.now.terms.setup.now; seen = watching.pass.now.knows.seen } };
}

impl<'f, 'a> Watching<'f, 'a> {
    ghost use Rattle.std.specs.Prelude.{◌≡◌};
    ghost use Rattle.region_slots.specs.FieldView.{IsPassOf};
    ghost use Rattle.region_slots.specs.Moments.{cut_run};

    // The pass is that of the watcher.
    pub(crate) fn before(field: &'f Field<'a>, pass: &'f Pass) -> Watching<'f, 'a>
        requires belongs { IsPassOf field.now pass.now }
        ensures sight { result ≡ record { run = cut_run field.now.terms.setup.now; seen = pass.now.knows.seen } }
    {
        Watching { field, pass }
    }
}

/// What lets an observer be told of a watcher who is done with its snapshot: it has taken it, and has seen the regions at the
/// steps that it shows, or it has found one of them taken at each of the tries.
#[derive(Drop)]
pub struct Watched<'f, 'a> {
    field: &'f Field<'a>,
    pass: &'f Pass,
    shot: Shot,
}

impl<'f, 'a> Model for Watched<'f, 'a> {
    ghost use Rattle.region_slots.specs.Moments.{ShownValue, cut_run};

    ghost Value = { ShownValue };

    ghost view = { λ watched. record { run = cut_run watched.field.now.terms.setup.now; seen = watched.pass.now.knows.seen; shot = watched.shot } };
}

impl<'f, 'a> Watched<'f, 'a> {
    ghost use Rattle.std.specs.Prelude.{◌≡◌};
    ghost use Rattle.region_slots.specs.FieldView.{IsPassOf};
    ghost use Rattle.region_slots.specs.Moments.{cut_run};
    ghost use Rattle.region_slots.specs.declared.shot.Shot.TheVariants.{Taken};

    // The pass is that of the watcher. Where the snapshot is taken it has held all regions together at the steps that it has
    // seen.
    pub(crate) fn after(field: &'f Field<'a>, pass: &'f Pass, shot: Shot) -> Watched<'f, 'a>
        requires belongs { IsPassOf field.now pass.now }
        requires together { shot ≡ Taken → pass.now.knows.moment ≡ pass.now.knows.seen }
        ensures sight { result ≡ record { run = cut_run field.now.terms.setup.now; seen = pass.now.knows.seen; shot = shot } }
    {
        Watched { field, pass, shot }
    }

    /// Whether the snapshot was taken, or which region was found taken at each of the tries.
    pub fn shot(&self) -> Shot
        ensures { result ≡ self.now.shot }
    {
        self.shot
    }
}
