// What all frames of a plan weigh together.
ghost use Rattle.std.specs.Prelude.{◌≡◌};
ghost use Rattle.packing.specs.Holds.{held};
ghost use Rattle.packing.specs.Packings.{packing_weight};

use domains::domain::Domain;
use packing::tables::Tables;
use timing::everywhere::Frames;
use weights::weigh::rows_weight;

pub(crate) fn plan_weight<B: Domain>(bank: &B, tables: &Tables) -> u64
    ensures { result ≡ packing_weight (B.cost bank.now) (held tables.now) }
{
    let frames = Frames {
        bank,
        rows: tables.frame_rows(),
    };
    rows_weight(&frames)
}
