#![tactic(auto)]

// The demands: no code, only the theorems that the library stands for. The statements are in specs/,
// each with its proof in proofs/.
