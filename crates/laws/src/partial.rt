// What no program asks for.
ghost use Rattle.std.specs.declared.cmp.Ordering.TheVariants.{Greater};

use crate::sort::Order;
use std::cmp::Ordering;
use std::test::Fail;

// Each word comes behind each: an order that isn't total.
#[derive(Clone, Copy)]
struct Behind;

impl Order for Behind {
    const ASKS_FIRST: bool = false;

    ghost order = { λ by x y. Greater };

    fn compare(&self, _x: u32, _y: u32) -> Ordering {
        Ordering::Greater
    }
}

fn is_behind<O: Order>(by: &O, x: u32, y: u32) -> bool {
    by.compare(x, y).is_gt()
}

#[test]
fn an_order_need_not_be_total() -> Result<(), Fail> {
    (is_behind(&Behind, 1, 2) && is_behind(&Behind, 2, 1))
        .then_some(())
        .ok_or("each is behind the other")?;
    Ok(())
}
