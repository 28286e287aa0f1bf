// The lines of the programs `desk` and `tree`: numbers read from a line of text, and the texts that answer
// it. Every call takes every input.
// answers.rt: what the desk answers to an input
#![tactic(auto)]

mod answers;
// lines.rt: the first line of an input
mod lines;
// numbers.rt: the numbers of a line
mod numbers;

// texts.rt: a text made longer, byte after byte
mod texts;
// tree_lines.rt: what `tree` answers, line by line
mod tree_lines;

pub use answers::answer_line;
pub use numbers::{question_of, tree_question_of};
pub use texts::Text;
pub use tree_lines::tree_line;

// A line has at most this many bytes, its newline among them.
pub const MOST_LINE: usize = 64;

// A number of a line is at most this.
pub const MOST_NUMBER: usize = 65535;

// The four numbers of the desk's line.
#[derive(Clone, Copy)]
pub struct Question {
    pub n: usize,
    pub k: usize,
    pub source: usize,
    pub destination: usize,
}

// The five numbers of the line of `tree`.
#[derive(Clone, Copy)]
pub struct TreeQuestion {
    pub n: usize,
    pub k: usize,
    pub m: usize,
    pub source: usize,
    pub tree: usize,
}
