// The numbers of a line.
ghost use Rattle.std.specs.Prelude.{◌≡◌, ◌-◌, ◌<◌, ◌≤◌};
ghost use Rattle.desk_line.specs.Numbers.{word_of, numbers_of, numbers_in, question_of, tree_question_of, as_word, as_words, as_question, as_tree_question};

use crate::lines::{first_word, line_of};
use crate::{MOST_NUMBER, Question, TreeQuestion};

// A word read as a decimal number.
fn number_of(word: &[u8]) -> Option<usize>
    ensures { as_word result ≡ word_of word.now }
{
    if word.is_empty() {
        return None;
    }
    let mut value = 0;
    // not `parse`, which takes a sign as well: a number of a line has none
    for byte in word {
        if !byte.is_ascii_digit() {
            return None;
        }
        value = 10 * value + usize::from(*byte - b'0');
        if MOST_NUMBER < value {
            return None;
        }
    }
    Some(value)
}

// The numbers of a line without its newline, where it has so many: its words are cut at single spaces.
fn numbers_of<const N: usize>(line: &[u8]) -> Option<[usize; N]>
    requires some { 0 < N }
    requires few { N ≤ 5 }
    ensures { as_words result ≡ numbers_of (N - 1) line.now }
{
    let mut values = [0; N];
    let mut rest = Some(line);
    for value in &mut values {
        let (word, after) = first_word(rest?);
        *value = number_of(word)?;
        rest = after;
    }
    match rest {
        None => Some(values),
        Some(_) => None,
    }
}

// The numbers of the first line of an input, where it has so many.
fn numbers_in<const N: usize>(input: &[u8]) -> Option<[usize; N]>
    requires some { 0 < N }
    requires few { N ≤ 5 }
    ensures { as_words result ≡ numbers_in (N - 1) input.now }
{
    numbers_of(line_of(input)?)
}

// The four numbers of the desk's line: n, k, source and destination. README names this and the next, one for each program.
pub fn question_of(input: &[u8]) -> Option<Question>
    ensures { as_question result ≡ question_of input.now }
{
    let [n, k, source, destination] = numbers_in::<4>(input)?;
    Some(Question {
        n,
        k,
        source,
        destination,
    })
}

// The five numbers of the line of `tree`: n, k, m, source and tree.
pub fn tree_question_of(input: &[u8]) -> Option<TreeQuestion>
    ensures { as_tree_question result ≡ tree_question_of input.now }
{
    let [n, k, m, source, tree] = numbers_in::<5>(input)?;
    Some(TreeQuestion {
        n,
        k,
        m,
        source,
        tree,
    })
}
