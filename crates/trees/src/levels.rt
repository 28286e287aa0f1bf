// The level at which a server hangs in a tree.
ghost use Rattle.std.specs.Prelude.{◌≡◌, ◌≤◌};
ghost use Rattle.trees.specs.Trees.{level_at, lowered_at};
ghost use Rattle.trees.specs.Inside.{alike_in};

// The level at a place of a tree's order: its own level, and on from there, with 0 after k.
fn level_at(k: usize, tree: usize, place: usize) -> usize
    requires { (k ≤ 3) × (tree ≤ k) × (place ≤ k) }
    ensures { result ≡ level_at k tree place }
{
    let level = tree + place;
    if level <= k {
        return level;
    }
    level - k - 1
}

// The level at which a tree lowers a digit, from the digits of the source and of the server: its own where they
// agree there, else the last of its order at which they differ.
#[tactic(auto, using(crate::proofs::LevelLaws::at_le))]
pub(crate) fn lowered_level(k: usize, tree: usize, from: &[usize; 4], own: &[usize; 4]) -> usize
    requires { (k ≤ 3) × (tree ≤ k) }
    ensures { result ≡ lowered_at (alike_in from.now own.now) k tree }
{
    if from[tree] == own[tree] {
        return tree;
    }
    for place in (1..=k).rev() {
        let level = level_at(k, tree, place);
        if from[level] != own[level] {
            return level;
        }
    }
    tree
}
