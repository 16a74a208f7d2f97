//! The lines of a results text.

ghost use Rattle.std.specs.Prelude.{◌≡◌, ◌==◌, ◌<◌, ◌∷◌, length, position, IfSome};
ghost use Rattle.std.specs.Str.Lines.{strip_carriage_return};
ghost use Rattle.testbench_runs.specs.Verdicts.{result_lines, started_name, is_done_line};
ghost use Rattle.testbench_runs.specs.Lines.{lines_of_rest, seen};

/// The index of the first line feed.
fn line_end(text: &[u8]) -> Option<usize>
    ensures { result ≡ position (λ byte. byte == 10) text.now }
{
    text.iter().position(|byte| *byte == b'\n')
}

/// The bytes without the carriage return at their end, if they end with one.
fn without_return(line: &[u8]) -> &[u8]
    ensures { result.now ≡ strip_carriage_return line.now }
{
    if line.len() > 0 && line[line.len() - 1] == b'\r' {
        &line[..line.len() - 1]
    } else {
        line
    }
}

/// The first line, and the bytes after its line feed; `None` if there is no line feed.
pub fn next_line(text: &[u8]) -> (&[u8], Option<&[u8]>)
    ensures lines { result_lines text.now ≡ result.0.now ∷ lines_of_rest result.1 }
    ensures less { IfSome result.1 (λ rest. length rest.now < length text.now) }
{
    match line_end(text) {
        None => (without_return(text), None),
        Some(at) => (without_return(&text[..at]), Some(&text[at + 1..])),
    }
}

/// The name that a line starts, if it starts one.
#[tactic(auto, unfolding(crate::specs::Verdicts::started_name))]
pub fn started_name(line: &[u8]) -> Option<&[u8]>
    ensures { seen result ≡ started_name line.now }
{
    line.strip_prefix(b"test_start:".as_slice())
}

/// Whether a line says that all is done.
pub fn is_done_line(line: &[u8]) -> bool
    ensures { result ≡ is_done_line line.now }
{
    line == b"test_suite_done".as_slice()
}
