ghost use Rattle.std.specs.Prelude.{◌≡◌, [], IfOk, Err};
ghost use Rattle.mpl_reader.specs.declared.stop.Stop.TheVariants as stop;

use crate::stop::Stop;
use sqlite_items::Items;
use std::alloc::Global;

/// An empty list with room for one item. Most lists of a source have one, and items are large.
pub fn short_list<T: Drop>(alloc: Global) -> Result<Items<T>, Stop>
    ensures empty { IfOk result (λ list. list ≡ []) }
    ensures memory { result ≡ Err stop.Stuck → ⊥ }
{
    let items = Vec::with_capacity(alloc, 1)?;
    Ok(Items::from_vec(items))
}
