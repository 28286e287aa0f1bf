// The desk program: reads a line from standard input and prints the built routes that it asks for.
#![tactic(auto)]

use first_line::read_line;
use std::io;

fn main(rt: HostRuntime) -> io::Result<()> {
    let input = read_line(&rt);
    let text = desk_line::answer_line(input.read());
    rt.write_all(text.shown())
}
