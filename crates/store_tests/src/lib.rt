// Tests of the stores: one table of calls and answers, run on each kind of store.
#![tactic(auto)]

#[cfg(test)]
mod cases;
#[cfg(test)]
mod tests;
