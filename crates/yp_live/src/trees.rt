//! What receivers hold, in numbers.
ghost use Rattle.std.specs.Prelude.{◌≡◌, length, sum_by, IfOk};

use crate::summary::sum;
use std::alloc::Global;
use std::sync::ledger::Ledger;
use yp_base::memory::NoMemory;
use yp_base::steps::Steps;
use yp_receiver::holdings::Holdings;

/// How many rows it holds.
pub fn count_rows<L: Ledger>(
    alloc: Global,
    trees: &Holdings,
    steps: &mut Steps<L>,
) -> Result<usize, NoMemory>
    ensures { IfOk result (λ count. count ≡ sum_by (λ tree. length tree.1) trees.now) }
{
    let mut count = 0;
    let mut left = trees.kept().iter();
    while let Some((_, holding)) = left.next() {
        let rows = holding.rows(alloc, steps)?;
        count = sum(count, rows.len())?;
    }
    Ok(count)
}
