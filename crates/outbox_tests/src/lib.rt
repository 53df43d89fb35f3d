// Tests of the outboxes: one set of checks for any outbox, run on each that ships.
#![tactic(auto)]

#[cfg(test)]
mod checks;
#[cfg(test)]
mod tests;
