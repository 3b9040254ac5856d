// The survey of a packing: its fields in their order, those of a container right behind its head.
ghost use Rattle.std.specs.Prelude.{◌≡◌, ◌+◌, ◌*◌, ◌≤◌, ◌<◌, length};
ghost use Rattle.laws.specs.Earliest.{first_repeat};
ghost use Rattle.fields.specs.Survey.{next_at, name_at, is_found, member_places, repeats_at, onward_at, values_at, survey_from, survey_of, longest};
ghost use Rattle.fields.specs.Asks.{Roomy, MembersAsk, Listed, RepeatsAsk};

use crate::places::next_at;
use crate::repeated::repeat_among;
use crate::{HEAD, LONGEST};
use json_reader::bytes::peek;

// Tags that the walk tells apart: an array, an object and a member's name.
const ARRAY: u16 = 6;

const OBJECT: u16 = 7;

const NAME: u16 = 8;

// A member has at least six bytes: so many names are in a packing of up to 384 bytes, of up to 6,144, and in any.
const MEMBER: usize = 6;

const FEW_NAMES: usize = 64;

const SOME_NAMES: usize = 1024;

const MOST_NAMES: usize = 10923;

// The places of the names of the members between two places, put into the store; and how many they are.
fn list_names(packed: &[u8], store: &mut [u32], from: usize, end: usize) -> usize
    requires { MembersAsk packed.now store.old from end }
    ensures { Listed packed.now from end store.new result }
{
    let mut n = 0;
    let mut at = from;
    while at < end {
        store[n] = at as u32;
        n += 1;
        let value = next_at(packed, at);
        at = next_at(packed, value);
    }
    n
}

// Has the object at a place a name twice?
fn repeats_in(packed: &[u8], store: &mut [u32], scratch: &mut [u32], at: usize, next: usize) -> bool
    requires { RepeatsAsk packed.now store.old scratch.old at next }
    ensures { result ≡ is_found (first_repeat (name_at packed.now) (member_places packed.now (at + 3) next)) }
{
    let n = list_names(packed, store, at + HEAD, next);
    repeat_among(packed, &mut store[0..n], scratch)
}

// Does an object stand at a place that has a name twice?
fn repeats_at(packed: &[u8], store: &mut [u32], scratch: &mut [u32], at: usize, next: usize) -> bool
    requires { RepeatsAsk packed.now store.old scratch.old at next }
    ensures { result ≡ repeats_at packed.now at }
{
    peek(packed, at) == OBJECT && repeats_in(packed, store, scratch, at, next)
}

// Where the walk goes on: inside a container, behind any other field.
fn onward(packed: &[u8], at: usize, next: usize) -> usize
    requires { (at < 4294967296) × (next ≡ next_at packed.now at) }
    ensures { result ≡ onward_at packed.now at }
{
    match peek(packed, at) {
        OBJECT | ARRAY => at + HEAD,
        _ => next,
    }
}

// How many values a field is: none, if it is a name.
fn values_at(packed: &[u8], at: usize) -> usize
    ensures { result ≡ values_at packed.now at }
{
    if peek(packed, at) == NAME { 0 } else { 1 }
}

// The walk, with a store for the names of an object and a scratch to sort them.
fn walk(packed: &[u8], store: &mut [u32], scratch: &mut [u32]) -> Option<usize>
    requires { Roomy packed.now store.old scratch.old }
    ensures { result ≡ survey_from packed.now 0 0 }
{
    let mut at = 0;
    let mut n = 0;
    while at < packed.len() {
        let next = next_at(packed, at);
        if packed.len() < next {
            return None;
        }
        if repeats_at(packed, store, scratch, at, next) {
            return None;
        }
        n = n + values_at(packed, at);
        at = onward(packed, at, next);
    }
    Some(n)
}

// The survey of a packing that has at most N names. It becomes part of no other function: so these arrays are in no frame but its own.
#[inline(never)]
fn survey_in<const N: usize>(packed: &[u8]) -> Option<usize>
    requires { (length packed.now ≤ longest) × (length packed.now ≤ 6 * N) × (N ≤ 10923) }
    ensures { result ≡ survey_from packed.now 0 0 }
{
    let mut store = [0u32; N];
    let mut scratch = [0u32; N];
    walk(packed, &mut store, &mut scratch)
}

// How many values a packing has, unless a field is cut off or an object has a name twice; the arrays are as large as its length asks.
pub fn survey(packed: &[u8]) -> Option<usize>
    ensures { result ≡ survey_of packed.now }
{
    if LONGEST < packed.len() {
        return None;
    }
    match packed.len().div_ceil(MEMBER) {
        0..=FEW_NAMES => survey_in::<FEW_NAMES>(packed),
        0..=SOME_NAMES => survey_in::<SOME_NAMES>(packed),
        _ => survey_in::<MOST_NAMES>(packed),
    }
}
