// Two sheets pooled: the pool, when the call is refused, and what it leaves. Definitions and theorems; the code is in `sheet_sums` and `sheet_pooling`.
#![tactic(auto)]

pub mod theorems;
