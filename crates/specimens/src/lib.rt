// The rules paper's specimens, worked out by the definitions. There is no code here, and a crate of its own, since working them out takes as long as
// all proofs of `contact`, and each edit of a definition there would wait for it.
#![tactic(auto)]
