// 01's starred examples. The crate holds no code: specs/ is the table of statements, and proofs/ shows them: computed from the definitions, or by `ladder`'s laws where intervals are wide.
#![tactic(auto)]
