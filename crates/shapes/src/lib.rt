// The shapes of loops over the lent areas, each with its laws, in proofs/: a new loop of a shape is an instance.
// There is no code here.
#![tactic(auto)]
