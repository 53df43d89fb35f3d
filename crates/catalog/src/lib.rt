#![tactic(auto)]

// What a store says of topics: one topic, its reading, all topics in turn, and the links of a list.
