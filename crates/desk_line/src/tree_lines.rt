// What `tree` answers to its line: a line for each server.
ghost use Rattle.std.specs.Prelude.{◌≡◌, [], ◌∷◌, ◌++◌, ◌+◌, ◌<◌, ◌≤◌, reverse, length, get_or};
ghost use Rattle.room.specs.Shapes.{Server, Link};
ghost use Rattle.desk_line.specs.Numbers.{as_tree_question};
ghost use Rattle.desk_line.specs.TreeLines.{pointed, server_words, parent_words, server_line, tree_line};

use crate::{Text, TreeQuestion};
use room::{Shape, digits_of, link_refusal, server_count};
use trees::parent_of;

// Puts digits behind the text, the last of them first and points between them.
fn push_digits(text: &mut Text, digits: &[usize])
    requires { length text.old + length (pointed (reverse digits.now)) ≤ 128 }
    ensures { text.new ≡ text.old ++ pointed (reverse digits.now) }
{
    if let [lower @ .., last] = digits {
        text.push_decimal(*last);
        for digit in lower.iter().rev() {
            text.push(b'.');
            text.push_decimal(*digit);
        }
    }
}

// Puts a server behind the text: its number, a space and its digits.
fn push_server(text: &mut Text, shape: Shape, server: usize)
    requires room { length text.old + length (server_words shape server) ≤ 128 }
    requires there { Server shape server }
    ensures { text.new ≡ text.old ++ server_words shape server }
{
    let Ok(places) = digits_of(shape, server) else {
        unreachable!();
    };
    text.push_decimal(server);
    text.push(b' ');
    let count = shape.k + 1;
    push_digits(text, &places[..count]);
}

// Puts a server's parent behind the text, or dashes at the source, which has none.
fn push_parent(text: &mut Text, shape: Shape, source: usize, tree: usize, server: usize)
    requires room { length text.old + length (parent_words shape source tree server) ≤ 128 }
    requires link { Link shape source tree }
    requires there { Server shape server }
    ensures { text.new ≡ text.old ++ parent_words shape source tree server }
{
    if source == server {
        text.push_word(b"- -");
    } else {
        let Ok(parent) = parent_of(shape, source, tree, server) else {
            unreachable!();
        };
        push_server(text, shape, parent);
    }
}

// The line of a server: itself and its parent.
fn server_line(shape: Shape, source: usize, tree: usize, server: usize) -> Text
    requires link { Link shape source tree }
    requires there { Server shape server }
    ensures { result ≡ server_line shape source tree server }
{
    let mut text = Text::new();
    push_server(&mut text, shape, server);
    text.push(b' ');
    push_parent(&mut text, shape, source, tree, server);
    text.push(b'\n');
    text
}

// A text that is the only line of an answer, at a place of it.
fn only_line(text: Text, place: usize) -> Text
    ensures { result ≡ get_or (text ∷ []) place [] }
{
    if place == 0 { text } else { Text::new() }
}

// What `tree` prints at a place of its answer, the first line being at place 0: the line of that server, "input" or
// a refusal at place 0 alone, and nothing past the last line.
pub fn tree_line(asked: Option<TreeQuestion>, place: usize) -> Text
    ensures { result ≡ tree_line (as_tree_question asked) place }
{
    let Some(asked) = asked else {
        return only_line(Text::input(), place);
    };
    let shape = Shape::new(asked.n, asked.k, asked.m);
    if let Err(reason) = link_refusal(shape, asked.source, asked.tree) {
        return only_line(Text::refused(reason.number()), place);
    }
    if place < server_count(shape) {
        return server_line(shape, asked.source, asked.tree, place);
    }
    Text::new()
}
