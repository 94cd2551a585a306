ghost use Rattle.std.specs.Prelude.{◌≡◌, length};
ghost use Rattle.flow_ledger.specs.Balances.{books_of};
ghost use Rattle.flow_ledger.specs.BooksLaw.{BooksAtOneStep, BooksLaw};

use crate::cell_sums::CellSums;
use crate::network_books::Books;
use crate::sums::{flights, initial};
use flow_model::Row;
use network_file::Net;

/// The books of a network by the rows of its cells.
#[tactic(auto, unfolding(crate::specs::Balances::books_of))]
pub fn books(net: &Net, rows: &[Row]) -> Books
    requires one_each { length rows.now ≡ length net.now.cells }
    ensures books { result ≡ books_of net.now rows.now }

    // By rows of the recurrences at uneven steps they balance: what is inside and what is under way are what was there at
    // first and what entered, less what left. At one step nothing is under way.
    ensures law { BooksLaw net.now rows.now result }
    ensures at_one_step { BooksAtOneStep net.now rows.now result }
{
    let _steps = net.steps;
    let cells = CellSums::of(net, rows);
    Books {
        inside: cells.inside as i128,
        flight: flights(net, rows),
        initial: initial(net) as i128,
        entered: cells.entered as i128,
        left: cells.left as i128,
    }
}
