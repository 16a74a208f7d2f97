//! Laws of the listing of the generated project, as functions with empty bodies.

ghost use Rattle.std.specs.Prelude.{◌≡◌, ◌+◌, ◌<◌, ◌≤◌, ◌^◌, ℕ, [], length, Ok};
ghost use Rattle.memory_outside.specs.Trees.{listed_of};
ghost use Rattle.project_file.specs.Csv.{listed_command, listed_simulator};
ghost use Rattle.project_file.specs.Toml.{toml_project};
ghost use Rattle.generated_project.specs.Files.{generated_files, toml_text};
ghost use Rattle.generated_sources.specs.NumberedFiles.{AreAllNumbers, numbered_project};
ghost use Rattle.generated_sources.specs.ListedNumbers.{listed_numbers};

/// For the listing of the generated files, the project file gives one library: all packages in the order of their paths, and
/// then the bench. Its compiler and its simulator are the built-in ones.
pub fn laws_of_listings()
    ensures numbers { (count : ℕ) → count < 2 ^ 64 → AreAllNumbers count (listed_numbers count) }
    ensures few { (count : ℕ) → count < 2 ^ 64 → length (listed_numbers count) ≡ count + 1 }
    ensures project { (count edited : ℕ) → 1 ≤ count → count < 2 ^ 64 →
        toml_project toml_text (listed_of (generated_files count edited))
        ≡ Ok (numbered_project listed_command listed_simulator [] (listed_numbers count)) }
{}
