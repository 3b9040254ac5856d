// A name twice among some, told by their places in the order of the packing.
ghost use Rattle.std.specs.Prelude.{◌≡◌};
ghost use Rattle.laws.specs.Earliest.{first_repeat};
ghost use Rattle.fields.specs.Survey.{name_at, is_found};
ghost use Rattle.fields.specs.Asks.{RepeatAsks};

use crate::places::Names;
use laws::labels::{ascend, first_direct, has_beside, sort_places};

// So few names are compared each with each: to sort them would take longer.
const FEW: usize = 8;

// Has a place the name of one before it? Many are sorted, so that the time grows as n log n; the places may be left in another order.
pub(crate) fn repeat_among(packed: &[u8], places: &mut [u32], scratch: &mut [u32]) -> bool
    requires { RepeatAsks places.old scratch.old }
    ensures { result ≡ is_found (first_repeat (name_at packed.now) places.old) }
{
    let names = Names { packed };
    if places.len() <= FEW {
        return first_direct(&names, places).is_some();
    }
    if ascend(&names, places) {
        return false;
    }
    sort_places(&names, places, scratch);
    has_beside(&names, places)
}
