// Binary floating point as whole numbers. The crate holds no code: specs/ defines the floats of any number of fraction and exponent bits, and proofs/ their laws.
#![tactic(auto)]
