// What is usable between two servers of a tested room.
ghost use Rattle.std.specs.Prelude.{◌≡◌, ◌/◌, length, position};
ghost use Rattle.links.specs.Table.{room_refusal};
ghost use Rattle.verdict.specs.Checks.{arrays};
ghost use Rattle.pick.specs.Picks.{usable};

use room::Shape;

// Two servers and a failed-link table, where the room does not refuse them.
#[derive(Drop)]
pub(crate) struct Ends<'a> {
    pub(crate) shape: Shape,
    pub(crate) table: &'a [u8],
    pub(crate) source: usize,
    pub(crate) destination: usize,
    ghost room: { room_refusal shape table.now source destination ≡ 0 },
}

impl Ends<'_> {
    // Whether an array is usable.
    fn is_usable(&self, array: &[u8; 8]) -> bool
        ensures { result ≡ usable self.now.shape self.now.table.now self.now.source self.now.destination array.now }
    {
        path::walk(self.shape, self.table, self.source, self.destination, array).is_ok()
    }

    // The place of the first usable array of a list.
    pub(crate) fn first_usable(&self, list: &[u8]) -> Option<usize>
        ensures { result ≡ position (usable self.now.shape self.now.table.now self.now.source self.now.destination) (arrays (length list.now / 8) list.now) }
    {
        let (arrays, _) = list.as_chunks::<8>();
        self.first_place(arrays)
    }

    // The place of the first usable one of some arrays.
    fn first_place(&self, arrays: &[[u8; 8]]) -> Option<usize>
        ensures { result ≡ position (usable self.now.shape self.now.table.now self.now.source self.now.destination) arrays.now }
    {
        arrays.iter().position(|array| self.is_usable(array))
    }
}
