// Fields of a packing by their places: where the next one stands, and names and their order.
ghost use Rattle.std.specs.Prelude.{◌≡◌, ◌+◌, ◌≤◌, ◌<◌};
ghost use Rattle.laws.specs.Order.{order_of};
ghost use Rattle.fields.specs.Survey.{next_at, name_at};
ghost use Rattle.fields.specs.Asks.{Word};

use crate::HEAD;
use json_reader::bytes::{OVER, peek};
use json_reader::names::{order_at, slice};
use laws::labels::Labels;
use std::cmp::Ordering;

// The place behind the field at a place.
pub(crate) fn next_at(packed: &[u8], at: usize) -> usize
    requires { at < 8589934592 }
    ensures value { result ≡ next_at packed.now at }
    ensures near { result ≤ at + 65795 }
{
    let high = peek(packed, at + 1) as usize;
    let low = peek(packed, at + 2) as usize;
    at + HEAD + (high * 256 + low)
}

// The name whose field stands at a place.
fn name_at(packed: &[u8], at: usize) -> &[u8]
    requires { Word at }
    ensures { result.now ≡ name_at packed.now at }
{
    let end = next_at(packed, at);
    slice(packed, at + HEAD, end)
}

// The order of two runs of bytes.
fn order_bytes(a: &[u8], b: &[u8]) -> Ordering
    ensures { result ≡ order_of a.now b.now }
{
    let mut i: usize = 0;
    loop {
        let p = peek(a, i);
        let q = peek(b, i);
        if p != q {
            return order_at(p, q);
        }
        if p == OVER {
            return Ordering::Equal;
        }
        i += 1;
    }
}

// Names at the places of their fields.
#[derive(Clone, Copy)]
pub(crate) struct Names<'a> {
    pub packed: &'a [u8],
}

impl<'a> Labels for Names<'a> {
    ghost label = { λ names. name_at names.packed.now };

    fn order(&self, p: u32, q: u32) -> Ordering {
        let a = name_at(self.packed, p as usize);
        let b = name_at(self.packed, q as usize);
        order_bytes(a, b)
    }
}
