// The first line of an input, and the first word of a line.
ghost use Rattle.std.specs.Prelude.{◌≡◌, ◌<◌, ◌≤◌, ◌==◌, length, position, MatchOption};
ghost use Rattle.desk_line.specs.Lines.{newline, space, before, after, line_size};

use crate::MOST_LINE;

// The place of the first byte that is `stop`.
fn place_of(text: &[u8], stop: u8) -> Option<usize>
    ensures { result ≡ position (λ byte. byte == stop) text.now }
{
    text.iter().position(|byte| *byte == stop)
}

// The first line of an input without its newline, where it is short enough: the newline counts, and may be missing.
pub(crate) fn line_of(input: &[u8]) -> Option<&[u8]>
    ensures { MatchOption result (64 < line_size input.now) (λ line. (line_size input.now ≤ 64) × (line.now ≡ before newline input.now)) }
{
    let end = place_of(input, b'\n').unwrap_or(input.len());
    if MOST_LINE < input.len().min(end + 1) {
        return None;
    }
    Some(&input[..end])
}

// The first word of a line, and what follows the space behind it, where it has one.
// Not `split`: the check refuses a loop's invariant beside its closure in a function with a const parameter.
pub(crate) fn first_word(line: &[u8]) -> (&[u8], Option<&[u8]>)
    ensures word { result.0.now ≡ before space line.now }
    ensures rest { MatchOption result.1 (length line.now ≤ length (before space line.now)) (λ rest. (length (before space line.now) < length line.now) × (rest.now ≡ after space line.now)) }
{
    match place_of(line, b' ') {
        None => (line, None),
        Some(end) => (&line[..end], Some(&line[end + 1..])),
    }
}
