// Worked examples of the demands, computed: each file of specs/ is of the file of crates/demands/specs that has its
// name. There is no code here, and no edit is tried on it: what is computed costs much, and is paid once.

#![tactic(auto)]
