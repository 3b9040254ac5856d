// Repeated names of an object (docs/RULES.md, 3.5), looked for once the object ends: definitions and theorems above `text`, no code. `json` has the
// code that relies on them.
#![tactic(auto)]
