// What speaks of no format: facts on lists, numbers, the order of two runs of bytes, and walks.
//   sort    one merge sort for every order
//   labels  places that have labels: sorted by these, and the earliest whose label an earlier one has
//   partial a test: an order need not be total to be one
#![tactic(auto)]

pub mod labels;
#[cfg(test)]
mod partial;
pub mod sort;
