#![tactic(auto)]

// Lists: no code, only what the other crates say of lists. The definitions are in specs/, their laws in
// proofs/.
