// A tree written whole: a number for each server.
ghost use Rattle.std.specs.Prelude.{◌≡◌, replicate};
ghost use Rattle.lists.specs.Lists.{filled};
ghost use Rattle.refusals.specs.Reasons.{tells};
ghost use Rattle.room.specs.Shapes.{Server};
ghost use Rattle.room.specs.Digits.{Below};
ghost use Rattle.room.specs.Addresses.{digits};
ghost use Rattle.room.specs.Refusals.{link_refusal};
ghost use Rattle.room.specs.Answers.{no_number, a_number};
ghost use Rattle.trees.specs.Inside.{strides_of, next_digits};
ghost use Rattle.trees.specs.Answers.{number_at, tree_of, tree_answer, tree_left};

use crate::parents::{parent_by, strides_of};
use refusals::Reason;
use room::{Shape, digits_of, link_refusal, server_count};

// What stands at the source, which has no parent: a number and no `None`, since C lends the numbers (BCUBE_NO_PARENT).
const NO_PARENT: u32 = 4294967295;

// Raises four digits to those of the next number to the base n.
fn raise_digits(n: usize, digits: &mut [usize; 4])
    requires { Below n digits.old }
    ensures { digits.new ≡ next_digits n digits.old }
{
    for digit in digits.iter_mut() {
        if *digit + 1 < n {
            *digit += 1;
            break;
        }
        *digit = 0;
    }
}

// The number that stands for a server, by the strides of the levels, the digits of the source and its own.
fn number_at(
    shape: Shape,
    source: usize,
    tree: usize,
    strides: &[usize; 4],
    from: &[usize; 4],
    own: &[usize; 4],
    server: usize,
) -> u32
    requires { ((link_refusal shape source tree ≡ 0) × Server shape server × (from.now ≡ filled 4 (digits shape source)) × (own.now ≡ filled 4 (digits shape server))) × (strides.now ≡ strides_of shape.n) }
    ensures { result ≡ number_at shape source tree server }
{
    if source == server {
        return NO_PARENT;
    }
    parent_by(shape, tree, strides, from, own, server) as u32
}

// Writes the number of each server over zeros, with no division in the loop: the digits are carried from server to
// server.
fn write_numbers(
    shape: Shape,
    source: usize,
    tree: usize,
    from: &[usize; 4],
    numbers: &mut [u32; 4096],
)
    requires { (link_refusal shape source tree ≡ 0) × (from.now ≡ filled 4 (digits shape source)) × (numbers.old ≡ replicate 4096 0) }
    ensures { numbers.new ≡ tree_of shape source tree }
{
    let strides = strides_of(shape.n);
    let count = server_count(shape);
    let mut own: [usize; 4] = [0; 4];
    for server in 0..count {
        numbers[server] = number_at(shape, source, tree, &strides, from, &own, server);
        raise_digits(shape.n, &mut own);
    }
}

// Writes the parent of each server in a tree of a source, 4,294,967,295 at the source and zeros past the last server;
// answers how many servers the room has. Refusals 1, 2, 26, 3, 4, 20; the numbers then stay as they were lent.
pub fn write_tree(
    shape: Shape,
    source: usize,
    tree: usize,
    parents: &mut [u32; 4096],
) -> Result<usize, Reason>
    ensures { (tells no_number a_number result ≡ tree_answer shape source tree) × (parents.new ≡ tree_left shape source tree parents.old) }
{
    link_refusal(shape, source, tree)?;
    let from = digits_of(shape, source)?;
    let zeros = [0u32; 4096];
    *parents = zeros;
    write_numbers(shape, source, tree, &from, &mut *parents);
    Ok(server_count(shape))
}
