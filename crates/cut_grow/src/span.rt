ghost use Rattle.std.specs.Prelude.{◌≡◌, ◌<◌, ◌≤◌, All, IfOk, length};
ghost use Rattle.std.specs.List.{AllZip};
ghost use Rattle.network_file.specs.Connectors.{cells_of};
ghost use Rattle.cut_grow.specs.Sides.{AreThere};
ghost use Rattle.cut_grow.specs.Spans.{IsSpan};

use network_file::Connector;
use no_memory::NoMemory;
use region_cut::three_cells;
use std::alloc::Global;

/// The first and the last place of a connector's cells in an order.
#[derive(Clone, Copy)]
pub(crate) struct Span {
    pub(crate) first: u32,
    pub(crate) last: u32,
}

/// The span of each connector, by the place of each cell.
pub(crate) fn spans(
    alloc: Global,
    connectors: &[Connector],
    places: &[u32],
) -> Result<Vec<Span>, NoMemory>
    requires { AreThere (length places.now) connectors.now }
    ensures { IfOk result (λ spans. AllZip (IsSpan places.now) connectors.now spans.items) }
{
    let mut spans = Vec::new(alloc);
    for connector in connectors {
        spans.push(span_of(places, *connector))?;
    }
    Ok(spans)
}

fn span_of(places: &[u32], connector: Connector) -> Span
    requires { All (λ i. i < length places.now) (cells_of connector) }
    ensures { IsSpan places.now connector result }
{
    let [a, b, c] = three_cells(connector);
    let a = places[a as usize];
    let b = places[b as usize];
    let c = places[c as usize];
    Span {
        first: a.min(b).min(c),
        last: a.max(b).max(c),
    }
}
