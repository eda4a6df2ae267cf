#![tactic(auto)]

// Theorems over the promises of the calls: nothing here runs.
