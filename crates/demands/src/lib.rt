// What the library is for, as theorems: specs/ states each demand under its own name, proofs/ proves it under the same
// name in small letters. There is no code here; every statement is about the calls of `node` and the definitions below
// them.

#![tactic(auto)]
