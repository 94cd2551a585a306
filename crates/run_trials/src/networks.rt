ghost use Rattle.std.specs.Prelude.{◌≡◌, IfOk, length};

use flow_model::{Row, first_rows, plain_step};
use network_file::{MOST_BYTES, Net};
use no_memory::NoMemory;
use std::alloc::Global;
use std::process::Abort;
use std::test::Fail;

// A gate, a road and an exit.
pub(crate) const CORRIDOR: &str =
    "ctm,1; steps,3; gate,in,2,0; road,a,6,2,1,2,0; exit,out,2; link,in,a; link,a,out; \
demand,in,0,1,4";

// The network of a text, in which `; ` stands for a line end.
pub(crate) fn network<R: Abort>(rt: &R, alloc: Global, text: &str) -> Result<Net, Fail> {
    let file = text.replace(alloc, "; ", "\n")?;
    assert!(rt; file.len() <= MOST_BYTES);
    Ok(Net::read(alloc, file.as_bytes())?)
}

// A row for each cell.
fn blank_rows(alloc: Global, net: &Net) -> Result<Vec<Row>, NoMemory>
    ensures { IfOk result (λ rows. length rows.items ≡ length net.now.cells) }
{
    Ok(vec![in alloc; Row {
        n: 0,
        come: 0,
        gone: 0,
        wait: 0
    }; net.cells.len()]?)
}

// The rows at the last step, one step of the whole network after the other.
pub(crate) fn whole_steps(alloc: Global, net: &Net) -> Result<Vec<Row>, NoMemory> {
    let mut now = blank_rows(alloc, net)?;
    first_rows(net, &mut now);
    for t in 0..net.steps {
        let mut next = blank_rows(alloc, net)?;
        plain_step(net, t, &now, &mut next);
        now = next;
    }
    Ok(now)
}
