//! Laws of the files of packages, as functions with empty bodies: a caller cites one by calling it.

ghost use Rattle.std.specs.Prelude.{◌≡◌, ◌<◌, ◌^◌, ℕ, Bool, List, ◌++◌};
ghost use Rattle.std.specs.Fmt.{decimal};
ghost use Rattle.base.specs.declared.project.ProjectFile.{ProjectFile};
ghost use Rattle.vhdl_spec.specs.Dependencies.{link_unit};
ghost use Rattle.vhdl_spec.specs.References.{refs_of};
ghost use Rattle.vhdl_spec.specs.Scans.{Clean, Finding, IsScanOf, IsScanner};
ghost use Rattle.vhdl_spec.specs.Units.{roles_of};
ghost use Rattle.generated_project.specs.Files.{bench_head, bench_body, package_text};
ghost use Rattle.generated_sources.specs.BenchScans.{architecture_link, bench_architecture, bench_entity, bench_scan, entity_link};
ghost use Rattle.generated_sources.specs.PackageExamples.{FirstPackage, TwelfthPackage};
ghost use Rattle.generated_sources.specs.PackageLinks.{package_link, package_refs};
ghost use Rattle.generated_sources.specs.PackageScans.{AreDigits, file_roles, is_alone, package_name, package_scan, package_tokens, package_unit};

/// A number is written in digits, and has at least one; so no two packages have one name.
pub fn laws_of_names()
    ensures digits { (number : ℕ) → number < 2 ^ 64 → AreDigits (decimal number) }
    ensures distinct { (a b : ℕ) → a < 2 ^ 64 → b < 2 ^ 64 →
        package_name a ≡ package_name b → a ≡ b }
{}

/// The file of each package, edited or not, has a scan, which is what each scanner finds in it: the tokens at their
/// indices, a comment where it is edited, and the package. The roles of the tokens are the same for all packages but the
/// first.
pub fn laws_of_scans()
    ensures is_scan { (number : ℕ) (noted : Bool) → number < 2 ^ 64 →
        IsScanOf (package_text number noted) (package_scan number noted) }
    ensures found { (scan : List ℕ → Finding) (number : ℕ) (noted : Bool) →
        IsScanner scan → number < 2 ^ 64 →
        scan (package_text number noted) ≡ Clean (package_scan number noted) }
    ensures roles { (number : ℕ) (noted : Bool) → number < 2 ^ 64 →
        roles_of (package_text number noted) (package_tokens number)
        ≡ file_roles (is_alone number) }
{}

/// Each package but the first refers to the package of half its number, and to nothing else: its one library clause and
/// its one `use` name the library `lib`.
pub fn laws_of_references()
    ensures refs { (number : ℕ) (noted : Bool) → number < 2 ^ 64 →
        refs_of (package_text number noted) (package_tokens number) (package_unit number)
        ≡ package_refs number }
    ensures linked { (position : ℕ) (file : ProjectFile) (number : ℕ) (noted : Bool) →
        number < 2 ^ 64 →
        link_unit position file
        (package_text number noted) (package_scan number noted) (package_unit number)
        ≡ package_link position file number }
{}

/// The file of the bench has a scan, which is what each scanner finds in it: an entity, which uses the first package, and
/// its architecture.
pub fn laws_of_bench()
    ensures is_scan { IsScanOf (bench_head ++ bench_body) bench_scan }
    ensures found { (scan : List ℕ → Finding) → IsScanner scan →
        scan (bench_head ++ bench_body) ≡ Clean bench_scan }
    ensures entity { (position : ℕ) (file : ProjectFile) →
        link_unit position file (bench_head ++ bench_body) bench_scan bench_entity
        ≡ entity_link position file }
    ensures architecture { (position : ℕ) (file : ProjectFile) →
        link_unit position file (bench_head ++ bench_body) bench_scan bench_architecture
        ≡ architecture_link position file }
{}

/// The first package and the twelfth, worked out by hand.
pub fn examples_of_packages()
    ensures first { FirstPackage }
    ensures twelfth { TwelfthPackage }
{}
