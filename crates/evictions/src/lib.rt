#![tactic(auto)]

// Who leaves a topic that has more subscribers than it may have.
