// Wrong links and wrong checks, and that the demands shut each of them out: each file of proofs/ is of the file of
// specs/ that has its name. There is no code here, and no edit is tried on it: the faults are definitions, and each
// costs one computed case.

#![tactic(auto)]
