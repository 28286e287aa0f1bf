#![tactic(auto)]

// Wrong answers: no code, only theorems that a contract never allows an answer that the rules call wrong. The
// statements are in specs/, each with its proof in proofs/.
