//! Laws of the answers of the compiler that is part of the program, as functions with empty bodies: a caller cites one by
//! calling it.

ghost use Rattle.std.specs.Prelude.{◌≡◌, ◌≢◌, ◌<◌, ◌≤◌, ◌/◌, ◌^◌, ◌++◌, true, false, ℕ, Bool, List, length};
ghost use Rattle.base.specs.Graphs.{IsBuilt, IsBuiltFile};
ghost use Rattle.base.specs.Jobs.{compile_request};
ghost use Rattle.base.specs.declared.child.Exit.{Exit};
ghost use Rattle.base.specs.declared.child.Request.{Request};
ghost use Rattle.base.specs.declared.graph.BuiltFile.{BuiltFile};
ghost use Rattle.base.specs.declared.graph.Entry.{Entry};
ghost use Rattle.base.specs.declared.limits.TheConstants.{ARTEFACT_LIMIT};
ghost use Rattle.vhdl_spec.specs.Scans.{Finding, IsScanner};
ghost use Rattle.child_lines.specs.Ends.{ends_with};
ghost use Rattle.memory_children.specs.Answers.{loop_answer};
ghost use Rattle.memory_children.specs.OneAnswer.{IsLoopAnswer};
ghost use Rattle.generated_project.specs.Files.{bench_body, bench_head, bench_path, package_path, package_text};
ghost use Rattle.generated_children.specs.AnswerExamples.{AnswerExamples};
ghost use Rattle.generated_children.specs.CompiledExamples.{CompiledExamples};
ghost use Rattle.generated_children.specs.CompiledFiles.{HasPackage, IsLoopEntry, IsPackageBuilt};
ghost use Rattle.generated_children.specs.CompiledTexts.{bench_artefact, package_artefact};

/// The built-in compiler compiles the file of each package, edited or not, over any built files that include the package that
/// it uses. The child ends with code 0 and the package's artefact, which depends on nothing else.
pub fn laws_of_package_answers()
    // By what a scanner finds in texts,
    ensures exit { (scan : List ℕ → Finding) (entry : Entry) (deps : List BuiltFile)
        (number : ℕ) (noted : Bool) →
        IsScanner scan → 0 < number → number < 2 ^ 64 →
        IsLoopEntry (package_path number) (package_text number noted) entry →
        IsBuilt deps → (1 < number → HasPackage (number / 2) deps) →
        loop_answer scan (compile_request entry deps)
        ≡ ends_with 0 (package_artefact number noted) }
    // and so by the one answer that there is.
    ensures answer { (answer : Request → Exit) (entry : Entry) (deps : List BuiltFile)
        (number : ℕ) (noted : Bool) →
        IsLoopAnswer answer → 0 < number → number < 2 ^ 64 →
        IsLoopEntry (package_path number) (package_text number noted) entry →
        IsBuilt deps → (1 < number → HasPackage (number / 2) deps) →
        answer (compile_request entry deps)
        ≡ ends_with 0 (package_artefact number noted) }
{}

/// The built-in compiler compiles the file of the bench over any built files that include the first package.
pub fn laws_of_bench_answers()
    ensures exit { (scan : List ℕ → Finding) (entry : Entry) (deps : List BuiltFile) →
        IsScanner scan → IsLoopEntry bench_path (bench_head ++ bench_body) entry →
        IsBuilt deps → HasPackage 1 deps →
        loop_answer scan (compile_request entry deps) ≡ ends_with 0 bench_artefact }
    ensures answer { (answer : Request → Exit) (entry : Entry) (deps : List BuiltFile) →
        IsLoopAnswer answer → IsLoopEntry bench_path (bench_head ++ bench_body) entry →
        IsBuilt deps → HasPackage 1 deps →
        answer (compile_request entry deps) ≡ ends_with 0 bench_artefact }
{}

/// The artefact of an edited package is another one, and no artefact is too long, so that files of packages that were built
/// may be handed on.
pub fn laws_of_generated_artefacts()
    ensures differ { (number : ℕ) →
        package_artefact number true ≢ package_artefact number false }
    ensures small { (number : ℕ) (noted : Bool) → number < 2 ^ 64 →
        length (package_artefact number noted) ≤ ARTEFACT_LIMIT }
    ensures bench_small { length bench_artefact ≤ ARTEFACT_LIMIT }
    ensures built { (number : ℕ) (file : BuiltFile) → number < 2 ^ 64 →
        file.name.path ≡ package_path number → IsPackageBuilt number file →
        IsBuiltFile file }
{}

/// The artefacts of the first package and of the twelfth, edited and not, and that of the bench, and the answers to requests
/// for these files, worked out by hand.
pub fn examples_of_answers()
    ensures artefacts { CompiledExamples }
    ensures answers { (scan : List ℕ → Finding) → IsScanner scan → AnswerExamples scan }
{}
