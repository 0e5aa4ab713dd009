// Theory for proofs by hand, no code: a loop and a call in a walk of a function, and a slice lent on for a call, for any element type that the kit can share. Rests on the kit alone.
#![tactic(auto)]
