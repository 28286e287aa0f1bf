// The parent of a server in a tree.
ghost use Rattle.std.specs.Prelude.{◌≡◌};
ghost use Rattle.lists.specs.Lists.{filled};
ghost use Rattle.refusals.specs.Reasons.{told, tells};
ghost use Rattle.room.specs.Shapes.{power_of, Link};
ghost use Rattle.room.specs.Addresses.{digits, digit};
ghost use Rattle.room.specs.Answers.{no_number, a_number};
ghost use Rattle.trees.specs.Trees.{lowered};
ghost use Rattle.trees.specs.Inside.{strides_of, parent_by};
ghost use Rattle.trees.specs.Answers.{parent_refusal, parent_answer};

use crate::levels::lowered_level;
use refusals::Reason;
use room::{Shape, digit_bound, digits_of, pair_refusal, power};

// The first of 1, 2, 26, 3, 4, 20, 5 that refuses to name a parent.
fn parent_refusal(shape: Shape, source: usize, tree: usize, server: usize) -> Result<(), Reason>
    ensures { told result ≡ parent_refusal shape source tree server }
{
    pair_refusal(shape, source, server)?;
    if shape.k < tree {
        return Err(Reason::Level);
    }
    if source == server {
        return Err(Reason::SameEnds);
    }
    Ok(())
}

// The strides of the four levels: how far apart two servers are whose digit there differs by one.
pub(crate) fn strides_of(n: usize) -> [usize; 4]
    ensures { result ≡ strides_of n }
{
    [power(n, 0), power(n, 1), power(n, 2), power(n, 3)]
}

// The server with its digit at a level lowered by one; a digit 0 becomes the greatest that the level has.
fn lower(shape: Shape, level: usize, stride: usize, own: usize, server: usize) -> usize
    requires { (Link shape server level × (own ≡ digit shape level server)) × (stride ≡ power_of shape.n level) }
    ensures { result ≡ lowered shape level server }
{
    if 0 < own {
        return server - stride;
    }
    server + (digit_bound(shape, level) - 1) * stride
}

// The parent of a server in a tree, by the strides of the levels, the digits of the source and its own.
pub(crate) fn parent_by(
    shape: Shape,
    tree: usize,
    strides: &[usize; 4],
    from: &[usize; 4],
    own: &[usize; 4],
    server: usize,
) -> usize
    requires { Link shape server tree × (own.now ≡ filled 4 (digits shape server)) × (strides.now ≡ strides_of shape.n) }
    ensures { result ≡ parent_by shape tree from.now own.now server }
{
    let level = lowered_level(shape.k, tree, from, own);
    lower(shape, level, strides[level], own[level], server)
}

// The parent of a server in a tree of a source: the server that hands it the file. Refusals 1, 2, 26, 3, 4, 20, 5.
pub fn parent_of(shape: Shape, source: usize, tree: usize, server: usize) -> Result<usize, Reason>
    ensures { tells no_number a_number result ≡ parent_answer shape source tree server }
{
    parent_refusal(shape, source, tree, server)?;
    let from = digits_of(shape, source)?;
    let own = digits_of(shape, server)?;
    let strides = strides_of(shape.n);
    Ok(parent_by(shape, tree, &strides, &from, &own, server))
}
