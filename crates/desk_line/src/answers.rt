// The answer to an input.
ghost use Rattle.std.specs.Prelude.{◌≡◌, ◌++◌, ◌+◌, ◌-◌, ◌≤◌, length};
ghost use Rattle.room.specs.Refusals.{ends_refusal};
ghost use Rattle.build.specs.Built.{built_arrays};
ghost use Rattle.build.specs.Sets.{set_of};
ghost use Rattle.desk_line.specs.Answers.{slot_line, routes_text, built_text, desk_text};

use crate::Text;
use crate::numbers::question_of;
use build::{RouteSet, build_routes};
use path::read_path;
use room::Shape;

// Puts the line of the built route at a place of their set behind the text. The hops are those
// that reading the route's bytes finds. The shape and the ends are apart, as every lower crate takes them.
fn push_place(
    text: &mut Text,
    shape: Shape,
    source: usize,
    destination: usize,
    routes: RouteSet,
    place: usize,
)
    requires room { length text.old + 19 ≤ 128 }
    requires taken { ends_refusal shape source destination ≡ 0 }
    requires built { routes ≡ set_of (built_arrays shape source destination) }
    requires within { place ≤ shape.k }
    ensures { text.new ≡ text.old ++ slot_line shape source destination (shape.k - place) }
{
    let bytes = routes.bytes;
    let start = 8 * place;
    let end = start + 8;
    let route = &bytes[start..end];
    let Ok(reading) = read_path(shape, source, destination, route) else {
        unreachable!();
    };
    text.push_route(route, reading.count - 1);
}

// The lines of the built routes.
fn routes_text(shape: Shape, source: usize, destination: usize, routes: RouteSet) -> Text
    requires taken { ends_refusal shape source destination ≡ 0 }
    requires built { routes ≡ set_of (built_arrays shape source destination) }
    ensures { result ≡ routes_text shape source destination }
{
    let mut text = Text::new();
    for place in 0..shape.k + 1 {
        push_place(&mut text, shape, source, destination, routes, place);
    }
    text
}

// The built routes of two servers, or why there are none.
fn built_text(shape: Shape, source: usize, destination: usize) -> Text
    ensures { result ≡ built_text shape source destination }
{
    match build_routes(shape, source, destination) {
        Ok(routes) => routes_text(shape, source, destination, routes),
        Err(reason) => Text::refused(reason.number()),
    }
}

// What the desk prints for an input, of any length: "input", a refusal or the built routes.
pub fn answer_line(input: &[u8]) -> Text
    ensures { result ≡ desk_text input.now }
{
    match question_of(input) {
        Some(asked) => {
            let shape = Shape::full(asked.n, asked.k);
            built_text(shape, asked.source, asked.destination)
        }
        None => Text::input(),
    }
}
