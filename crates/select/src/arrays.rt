// The arrays of a route set, and their routes laid into a copy of the failed-link table.
ghost use Rattle.std.specs.Prelude.{◌≡◌, List, ℕ, ◌≤◌, ◌<◌, length};
ghost use Rattle.std.proofs.Math.Seq.{slice};
ghost use Rattle.links.specs.Table.{TableOf};
ghost use Rattle.build.specs.Sets.{array_in};
ghost use Rattle.laying.specs.Laid.{Laid};
ghost use Rattle.select.specs.Inside.{Holds};

use crate::slots::Slots;
use build::RouteSet;
use laying::lay_route;

// The array at a place of a set.
pub(crate) fn array_at(set: RouteSet, place: usize) -> [u8; 8]
    requires { place < 4 }
    ensures { result ≡ array_in place set }
{
    let (arrays, _) = set.bytes.as_chunks::<8>();
    arrays[place]
}

impl Slots<'_> {
    // Lays the routes of the arrays from one place of a set up to another into a copy of the table.
    pub(crate) fn lay_arrays(&self, copy: &mut [u8], set: RouteSet, first: usize, end: usize)
        requires { end ≤ 4 }
        ensures { (routes : List (List ℕ)) → Holds self.now.shape self.now.source self.now.destination set routes → end ≤ length routes → TableOf self.now.shape copy.old → Laid self.now.shape copy.old (slice first end routes) copy.new }
    {
        // read once: read again for each array, they make a selection with a broken route dearer
        let shape = self.shape;
        let source = self.source;
        let destination = self.destination;
        for place in first..end {
            let array = array_at(set, place);
            // an array that is no route is refused, and the copy then keeps its bytes
            let _ = lay_route(shape, &mut *copy, source, destination, &array);
        }
    }
}
