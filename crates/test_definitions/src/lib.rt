//! Worked recordings of the plain desktop, of viewers and of promises, computed on the definitions.
//! There is no code here.
#![tactic(auto)]
