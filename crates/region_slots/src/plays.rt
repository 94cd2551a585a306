ghost use Rattle.border_rows.specs.Kinds.{kept, shared_off, spent, united};
ghost use Rattle.region_slots.specs.Plays.{Bounded, Claimed, Compared, Freed, Gathered, Learned, Looked, Published, Read, Written};

use atomic_table::{Join, Play, Split};
use border_rows::View;
use region_step::Region;

/// A try of a region's claim word.
pub(crate) struct Claim;

impl Play<Region, View<'static>> for Claim {
    ghost then = { λ step old found new. Claimed step old found new };
}

/// A look at a region's step word.
pub(crate) struct Look;

impl Play<Region, View<'static>> for Look {
    ghost then = { λ step old found new. Looked step old found new };
}

/// A look at the step word of the region just taken.
pub(crate) struct Learn;

impl Play<Region, View<'static>> for Learn {
    ghost then = { λ step old found new. Learned step old found new };
}

/// A look at a neighbour's step word.
pub(crate) struct Compare;

impl Play<Region, View<'static>> for Compare {
    ghost then = { λ step old found new. Compared step old found new };
}

/// A look at a border word of a cleared neighbour.
pub(crate) struct ReadBorder;

impl Play<Region, View<'static>> for ReadBorder {
    ghost then = { λ step old found new. Read step old found new };
}

/// A store of a border word.
pub(crate) struct Write;

impl Play<Region, View<'static>> for Write {
    ghost then = { λ step old found new. Written step old found new };
}

/// A store of a step word.
pub(crate) struct Publish;

impl Play<Region, View<'static>> for Publish {
    ghost then = { λ step old found new. Published step old found new };
}

/// A store that gives a region back.
pub(crate) struct Free;

impl Play<Region, View<'static>> for Free {
    ghost then = { λ step old found new. Freed step old found new };
}

/// A look that tells what the whole share has seen.
pub(crate) struct Bound;

impl Play<Region, View<'static>> for Bound {
    ghost then = { λ step old found new. Bounded step old found new };
}

/// A look that tells that the regions which the seat holds stand together.
pub(crate) struct Gather;

impl Play<Region, View<'static>> for Gather {
    ghost then = { λ step old found new. Gathered step old found new };
}

/// A seat of share 1 is shared off.
pub(crate) struct ShareOff;

impl Split<View<'static>> for ShareOff {
    ghost left = { λ view. kept view };

    ghost right = { λ view. shared_off view };
}

/// Two seats become one.
pub(crate) struct Unite;

impl Join<View<'static>> for Unite {
    ghost both = { λ view other. united view other };

    ghost spent = { spent };
}
