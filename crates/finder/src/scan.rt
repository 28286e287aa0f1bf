// The scan: breadth first from the source, levels from k down and values from 0 up, until the
// destination is met.
ghost use Rattle.std.specs.Prelude.{◌≡◌, ℕ, ◌<◌, ◌≤◌, Ok, List, length};
ghost use Rattle.room.specs.declared.Shape.{Shape as AShape};
ghost use Rattle.room.specs.Shapes.{servers_of, Link};
ghost use Rattle.links.specs.Table.{room_refusal};
ghost use Rattle.finder.specs.Hops.{step_of, Ok as Allowed};
ghost use Rattle.finder.specs.Kept.{Blank, Kept};
ghost use Rattle.finder.specs.Scan.{Sided, Visiting, Visited};
ghost use Rattle.finder.specs.Answers.{what_found, HasHops, Finding};

use crate::Found;
use crate::trace::retrace;
use links::is_live;
use room::{Shape, Side, side_of};

// What stands in the back-links of a server that is not found.
const NONE: u32 = 4294967295;

// What stands in the queue past the servers found: no server.
const NOBODY: u16 = 65535;

// The servers at the switch of a server at a level; none to try where the server's link is failed, or
// the switch has been scanned. A server has a mark for each level, set when its switch there is scanned.
fn to_scan(shape: Shape, table: &[u8], marks: &[u8; 16384], server: usize, level: usize) -> Side
    requires { Link shape server level × (length marks.now ≡ 16384) }
    ensures { Sided shape table.now marks.now server level result }
{
    if marks[server * 4 + level] == 0 {
        if is_live(table, level, server, server) {
            return side_of(shape, server, level);
        }
    }
    Side {
        first: 0,
        stride: 0,
        count: 0,
    }
}

// Tries one hop, with the value v at a level, from the server at the place `head`, whose link is live,
// to server w, which is not found yet: its link is left to test. The result is the number of servers
// found.
fn visit(
    shape: Shape,
    table: &[u8],
    back: &mut [u32; 4096],
    queue: &mut [u16; 4096],
    head: usize,
    tail: usize,
    level: usize,
    v: usize,
    w: usize,
) -> usize
    requires { Visiting shape table.now back.old queue.old head tail level v w }
    ensures { Visited shape table.now queue.old back.new queue.new head tail result level v }
{
    if is_live(table, level, w, w) {
        back[w] = (head * 256 + ((shape.k - level) * 64 + v)) as u32;
        queue[tail] = w as u16;
        return tail + 1;
    }
    tail
}

// The tables with the source alone in them.
fn begin(back: &mut [u32; 4096], queue: &mut [u16; 4096], source: usize)
    requires { (source < 4096) × Blank back.old × (length queue.old ≡ 4096) }
    ensures { (s : AShape) (t : List ℕ) → servers_of s ≤ 4096 → source < servers_of s → Kept (step_of s) (Allowed s t) (servers_of s) source back.new queue.new 1 0 }
{
    back[source] = 0;
    queue[0] = source as u16;
}

// The least route, where nothing is refused: servers in the order in which they are found, levels down
// from k, values up from 0; a switch is scanned once.
pub(crate) fn search(shape: Shape, table: &[u8], source: usize, destination: usize) -> Option<Found>
    requires { room_refusal shape table.now source destination ≡ 0 }
    ensures { Finding shape table.now source destination (what_found result) × HasHops (Ok result) }
{
    // Arrays filled with a no-parent value, and not options: the rules' own form.
    let mut back = [NONE; 4096];
    let mut queue = [NOBODY; 4096];
    begin(&mut back, &mut queue, source);
    let mut marks = [0u8; 16384];
    let mut head: usize = 0;
    let mut tail: usize = 1;
    // A `while`: the queue grows as it is gone through (the label is the rules' own form, to stop at the first arrival).
    'scan: while head < tail {
        let here = queue[head] as usize;
        for level in (0..=shape.k).rev() {
            let side = to_scan(shape, table, &marks, here, level);
            let mut w = side.first;
            for v in 0..side.count {
                marks[w * 4 + level] = 1;
                if back[w] == NONE {
                    tail = visit(shape, table, &mut back, &mut queue, head, tail, level, v, w);
                    let arrived = back[destination] != NONE;
                    if arrived {
                        break 'scan;
                    }
                }
                w += side.stride;
            }
        }
        head += 1;
    }
    if back[destination] == NONE {
        return None;
    }
    retrace(shape.k, &back, &queue, source, destination)
}
