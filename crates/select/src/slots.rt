// The slots, one after another: a built route kept, an alternate, or nothing.
ghost use Rattle.std.specs.Prelude.{◌≡◌, ◌≤◌, length};
ghost use Rattle.links.specs.Table.{room_refusal};
ghost use Rattle.build.specs.Built.{built_arrays};
ghost use Rattle.build.specs.Sets.{set_of};

use crate::arrays::array_at;
use build::RouteSet;
use room::Shape;

// The slots of two servers, where the room does not refuse them: their built routes, and the
// failed-link table. What stands settled stays in the clauses: that fact holds the routes, and a
// ghost field holds no data.
#[derive(Drop)]
pub(crate) struct Slots<'a> {
    pub(crate) shape: Shape,
    pub(crate) table: &'a [u8],
    pub(crate) source: usize,
    pub(crate) destination: usize,
    pub(crate) built: RouteSet,
    ghost room: { room_refusal shape table.now source destination ≡ 0 },
    ghost levels: { shape.k ≤ 3 },
    ghost long: { length table.now ≤ 4096 },
    ghost whole: { built ≡ set_of (built_arrays shape source destination) },
}

impl Slots<'_> {
    ghost use Rattle.std.specs.Prelude.{suc};
    ghost use Rattle.select.specs.Inside.{ToCome};

    // The routes of slots k down to 0.
    pub(crate) fn settle(&self) -> RouteSet
        ensures { ToCome self.now 0 result }
    {
        let mut settled = RouteSet::new();
        for slot in (0..=self.shape.k).rev() {
            settled = self.settle_slot(settled, slot);
        }
        settled
    }

    // The settled routes with what a slot gives after them.
    fn settle_slot(&self, settled: RouteSet, slot: usize) -> RouteSet
        requires { ToCome self.now (suc slot) settled }
        ensures { ToCome self.now slot result }
    {
        let array = array_at(self.built, self.shape.k - slot);
        if path::walk(
            self.shape,
            self.table,
            self.source,
            self.destination,
            &array,
        )
        .is_ok()
        {
            return settled.with_route(array);
        }
        match self.alternate(settled, slot) {
            Some(found) => settled.with_route(found.bytes),
            None => settled,
        }
    }
}
