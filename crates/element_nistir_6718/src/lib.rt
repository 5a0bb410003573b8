// The element as NISTIR 6718 prints it: formulas 105 to 108, four misprints put right, are the set we read from; each misprint breaks section 2's conditions.
#![tactic(auto)]

pub mod theorems;
