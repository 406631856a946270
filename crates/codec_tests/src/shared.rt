//! What several tests need.
ghost use Rattle.std.specs.Prelude.{◌≡◌, length, false, IfSome};

use std::alloc::Global;
use std::sync::Arc;
use zp_decoder::ZpDecoder;
use zp_table::Table;

/// A decoder with the table of one row.
pub fn flat_decoder(alloc: Global) -> Option<ZpDecoder>
    ensures table { IfSome result (λ zp. length zp.table ≡ 1) }
    ensures open_end { IfSome result (λ zp. zp.ended ≡ false) }
{
    let table = Table::flat(alloc).ok()?;
    let table = Arc::new(alloc, table).ok()?;
    Some(ZpDecoder::new(table))
}
