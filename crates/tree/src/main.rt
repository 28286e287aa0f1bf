// The program `tree`: reads a line from standard input and prints the spanning tree that it asks for, a line
// for each server.
#![tactic(auto)]

use desk_line::{TreeQuestion, tree_line, tree_question_of};
use first_line::read_line;
use room::Shape;
use std::io;

// Prints line after line to the last, or to the first that cannot be written, so that what is printed is a beginning of
// the text; no room has more servers than the loop has places.
fn print_lines(rt: &impl Print, asked: Option<TreeQuestion>) -> io::Result<()> {
    for place in 0..Shape::MOST_SERVERS {
        let text = tree_line(asked, place);
        let line = text.shown();
        if line.is_empty() {
            return Ok(());
        }
        rt.write_all(line)?;
    }
    Ok(())
}

fn main(rt: HostRuntime) -> io::Result<()> {
    let input = read_line(&rt);
    print_lines(&rt, tree_question_of(input.read()))
}
