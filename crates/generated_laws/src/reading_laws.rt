//! Laws of what is read of the generated project, as functions with empty bodies.

ghost use Rattle.std.specs.Prelude.{◌≡◌, ◌≤◌, ℕ, List, [], Ok};
ghost use Rattle.base_outcomes.specs.declared.bench.Bench.{Bench};
ghost use Rattle.memory_outside.specs.Trees.{file_at, listed_of};
ghost use Rattle.order.specs.BuildOrder.{Ordered, file_order};
ghost use Rattle.vhdl_spec.specs.Scans.{Finding, IsScanner};
ghost use Rattle.project_reading.specs.Reading.{Found, ordered_reading, project_reading, wanted_tests};
ghost use Rattle.project_reading.specs.Queries.{wants_tests};
ghost use Rattle.project_reading.specs.declared.query.QueryKind.TheVariants.{Graph};
ghost use Rattle.project_reading.specs.declared.query.Query.{Query};
ghost use Rattle.generated_project.specs.Files.{generated_files};
ghost use Rattle.generated_sources.specs.NumberedFiles.{numbered_edges};
ghost use Rattle.generated_sources.specs.ListedNumbers.{listed_numbers};
ghost use Rattle.generated_laws.specs.ReadFiles.{found_links, read_graph, read_project, read_scans, read_texts};

/// What is read of the generated project of 1 to 4,095 packages, before and after its edit: its project, the graph of all
/// files in compile order, and no warning. If the query wants tests, they are the tests that the scans of its files give.
pub fn laws_of_readings()
    ensures graph { (scan : List ℕ → Finding) (count edited : ℕ) (patterns : List (List ℕ)) →
        IsScanner scan → 1 ≤ count → count ≤ 4095 →
        (order : List ℕ) ×
        (file_order (numbered_edges (listed_numbers count)) ≡ Ordered order) ×
        (project_reading scan (file_at (generated_files count edited))
        (listed_of (generated_files count edited))
        (record { query_kind = Graph; patterns = patterns })
        ≡ Found (record {
          project = read_project count;
          graph = read_graph count edited order;
          warnings = [];
          tests = [];
        })) }
    ensures tests { (scan : List ℕ → Finding) (count edited : ℕ) (query : Query)
        (order : List ℕ) (tests : List Bench) →
        IsScanner scan → 1 ≤ count → count ≤ 4095 →
        file_order (numbered_edges (listed_numbers count)) ≡ Ordered order →
        wanted_tests (wants_tests query.query_kind) (read_project count)
        (read_texts count edited) (read_scans count edited) ≡ Ok tests →
        project_reading scan (file_at (generated_files count edited))
        (listed_of (generated_files count edited)) query
        ≡ ordered_reading query (read_project count) (read_texts count edited)
        (read_scans count edited) (found_links count) order tests }
{}
