// A change of a connect telegram's random number changes the implicit bytes with it, and is seen all the same: proved
// by one computed test for each width (proofs/Echo), over what is known of functions that are linear over one bit
// (proofs/Linear). There is no code here, and no edit is tried on it: what is computed costs much, and is paid once.

#![tactic(auto)]
