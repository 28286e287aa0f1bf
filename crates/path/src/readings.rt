// Plain reading.
ghost use Rattle.std.specs.Prelude.{◌≡◌, []};
ghost use Rattle.refusals.specs.Reasons.{tells_where};
ghost use Rattle.path.specs.Answers.{no_reading, the_reading, read_answer};
ghost use Rattle.path.specs.Inside.{no_way, the_way, Blank, WalkLeaves};

use crate::walks::walk_array;
use crate::{Reading, Way};
use refusals::Refused;
use room::Shape;

// The walk over a table with no bytes, in which no link is failed.
pub(crate) fn plain_walk(
    shape: Shape,
    source: usize,
    destination: usize,
    path: &[u8],
    met: &mut [usize],
    used: &mut [usize],
) -> Result<Way, Refused>
    requires { Blank met.old used.old }
    ensures { WalkLeaves shape [] source destination path.now (tells_where no_way the_way result) met.new used.new }
{
    let byte: [u8; 1] = [0; 1];
    walk_array(shape, &byte[..0], source, destination, path, met, used)
}

// The servers that an array meets, in turn. Refusals 1, 2, 26, 3, 4, 5, 7, 8, 9, 10, 28, 29, 13, 14.
pub fn read_path(
    shape: Shape,
    source: usize,
    destination: usize,
    path: &[u8],
) -> Result<Reading, Refused>
    ensures { tells_where no_reading the_reading result ≡ read_answer shape source destination path.now }
{
    let mut servers: [usize; 9] = [0; 9];
    let mut used: [usize; 8] = [0; 8];
    let way = plain_walk(
        shape,
        source,
        destination,
        path,
        &mut servers[..],
        &mut used[..],
    )?;
    Ok(Reading {
        count: way.hops + 1,
        servers,
    })
}
