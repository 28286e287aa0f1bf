// The alternate for a slot: the search over a copy of the table into which is laid what the slot
// avoids.
ghost use Rattle.std.specs.Prelude.{suc};
ghost use Rattle.select.specs.Inside.{ToCome, Alternate};

use crate::slots::Slots;
use build::RouteSet;
use finder::Found;

impl Slots<'_> {
    // The alternate for a slot, where there is one: around the settled routes, then around the built
    // routes of the lower slots, which stand behind the slot's own.
    pub(crate) fn alternate(&self, settled: RouteSet, slot: usize) -> Option<Found>
        requires { ToCome self.now (suc slot) settled }
        ensures { Alternate self.now slot settled result }
    {
        let mut copy = [0u8; 4096];
        let copy = &mut copy[..self.table.len()];
        copy.copy_from_slice(self.table);
        self.lay_arrays(&mut *copy, settled, 0, settled.count);
        let end = self.shape.k + 1;
        self.lay_arrays(&mut *copy, self.built, end - slot, end);
        match finder::find_route(self.shape, &*copy, self.source, self.destination) {
            Ok(found) => found,
            Err(_) => unreachable!(),
        }
    }
}
