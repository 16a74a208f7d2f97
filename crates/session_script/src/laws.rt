//! Laws of scripts, as functions with empty bodies: a caller cites one by calling it.

ghost use Rattle.std.specs.Prelude.{◌≡◌, ◌+◌, ◌<◌, ◌≤◌, ℕ, List, ◌∷◌, Option, length};
ghost use Rattle.outside.specs.Streams.{after_line};
ghost use Rattle.session_script.specs.declared.limits.TheConstants.{LINE_COUNT_LIMIT, LINE_LIMIT};
ghost use Rattle.session_script.specs.declared.lines.Ending.{Ending};
ghost use Rattle.session_script.specs.declared.lines.Ending.TheVariants.{OverLine, OverLines};
ghost use Rattle.session_script.specs.declared.lines.NextLine.TheVariants.{Got, Ends};
ghost use Rattle.session_script.specs.Scripts.{OpenPut, end_in, lines_of, next_line, next_of, script_in, then_line, then_next};
ghost use Rattle.session_script.specs.Examples.{CommandExamples, LimitExamples, PutExamples};

/// The laws of scripts: an input is read one line at a time.
pub fn laws_of_scripts()
    // The script of an input is its next line, and then the script of the lines after it.
    ensures step { (put : Option OpenPut) (taken : ℕ) (input : List ℕ) →
        script_in put taken (lines_of input)
        ≡ then_next (next_line (end_in put) taken input) (λ line.
        then_line put line (λ following.
        script_in following (taken + 1) (lines_of (after_line input)))) }
    // A line within both limits is taken.
    ensures taken { (at_end : Ending) (taken : ℕ) (line : List ℕ) (lines : List (List ℕ)) →
        length line ≤ LINE_LIMIT → taken < LINE_COUNT_LIMIT →
        next_of at_end taken (line ∷ lines) ≡ Got line }
    // A line that is too long is reported as such, after any number of lines.
    ensures long { (at_end : Ending) (taken : ℕ) (line : List ℕ) (lines : List (List ℕ)) →
        LINE_LIMIT < length line → next_of at_end taken (line ∷ lines) ≡ Ends OverLine }
    // A line after the last allowed one is reported as one too many.
    ensures many { (at_end : Ending) (taken : ℕ) (line : List ℕ) (lines : List (List ℕ)) →
        length line ≤ LINE_LIMIT → LINE_COUNT_LIMIT ≤ taken →
        next_of at_end taken (line ∷ lines) ≡ Ends OverLines }
{}

/// Scripts of small inputs, worked out by hand.
pub fn examples_of_scripts()
    ensures commands { CommandExamples }
    ensures puts { PutExamples }
    ensures limits { LimitExamples }
{}
