// Tests of the log store: its memory, its bytes, and what squeezing leaves.
#![tactic(auto)]

#[cfg(test)]
mod cases;
#[cfg(test)]
mod tests;
