// The spanning trees of a source: the parent of a server, and a tree whole.
#![tactic(auto, using(crate::proofs::TreeSmall::tree_numbers))]

ghost use Rattle.std.specs.Prelude.{◌≡◌};
ghost use Rattle.trees.specs.Answers.{parent_answer, tree_answer, tree_left};
ghost use Rattle.driver.specs.Rooms.{shape_in};
ghost use Rattle.driver.specs.Words.{number_word};

use crate::shapes::shape_in;
use crate::words::number_word;
use crate::{Answer, Room};

// The parent of a server in a tree of a source. Refusals 1, 2, 26, 3, 4, 20, 5.
pub fn bcube_parent(room: Room, source: usize, tree: usize, server: usize) -> Answer
    ensures { result ≡ number_word (parent_answer (shape_in room) source tree server) }
{
    number_word(trees::parent_of(shape_in(room), source, tree, server))
}

// The parent of each server in a tree of a source, into 4,096 numbers: 4,294,967,295 at the source, and zeros past the
// last server; the value is how many servers the room has. Refusals 1, 2, 26, 3, 4, 20.
pub fn bcube_tree(room: Room, source: usize, tree: usize, parents: &mut [u32; 4096]) -> Answer
    ensures { (result ≡ number_word (tree_answer (shape_in room) source tree)) × (parents.new ≡ tree_left (shape_in room) source tree parents.old) }
{
    number_word(trees::write_tree(shape_in(room), source, tree, parents))
}
