ghost use Rattle.records.specs.Each.{EachRead};

use crate::fault::RecordFault;
use std::alloc::Global;

/// Reads the items of a list, up to the first that is at fault.
pub fn read_each<X: Copy, Y: Drop, F: Fn(X) -> Result<Y, RecordFault>>(
    heap: Global,
    items: &[X],
    read: F,
) -> Result<Vec<Y>, RecordFault>
    requires { F.IsAlwaysCallable read }
    ensures { EachRead (F.post read) items.now result }
{
    let mut values = Vec::new(heap);
    // No `try_collect`: it does not tell of an item that fails, and the contract says that it is the first.
    for item in items {
        values.push(read(*item)?)?;
    }
    Ok(values)
}
