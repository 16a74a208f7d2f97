//! The files of the generated project.

ghost use Rattle.std.specs.Prelude.{◌≡◌, ◌+◌, ◌/◌, ◌≤◌, ◌<◌, ◌++◌, [], ◌∷◌, IfOk, OnOk};
ghost use Rattle.std.specs.Fmt.{decimal};
ghost use Rattle.generated_project.specs.Files.{toml_path, toml_text, toml_file, bench_path, bench_head, bench_body, bench_file, source_folder, source_end, package_path, library_words, all_words, use_lines, used_lines, package_words, constant_words, end_words, package_begin, package_end, package_lines, note_line, noted_lines, package_text, package_file, packages, generated_files, edited_package};

use crate::puts::{put, put_number};
use base::{NamedText, NamedTextList, NoMemory, Text};
use std::alloc::Global;

/// The project file: one library, which has all sources.
#[tactic(auto, unfolding(crate::specs::Files::toml_path, crate::specs::Files::toml_text))]
fn toml_file(alloc: Global) -> Result<NamedText, NoMemory>
    ensures { IfOk result (λ file. file ≡ toml_file) }
{
    Ok(NamedText {
        path: Text::from_slice(alloc, b"vunit.toml")?,
        bytes: Text::from_slice(
            alloc,
            b"[[library]]\nname = \"lib\"\nfiles = [\"src/*.vhd\", \"tb.vhd\"]\n",
        )?,
    })
}

#[tactic(auto, unfolding(crate::specs::Files::bench_head))]
fn put_bench_head(out: &mut Vec<u8>) -> Result<(), NoMemory>
    ensures { OnOk result (out.new.items ≡ out.old.items ++ bench_head) }
{
    put(
        out,
        b"library lib;\nuse lib.p1.all;\nentity tb is generic (runner_cfg : string); end;\n",
    )
}

#[tactic(auto, unfolding(crate::specs::Files::bench_body))]
fn put_bench_body(out: &mut Vec<u8>) -> Result<(), NoMemory>
    ensures { OnOk result (out.new.items ≡ out.old.items ++ bench_body) }
{
    put(
        out,
        b"architecture a of tb is begin\n  x <= run(\"one\");\n  y <= run(\"two\");\nend;\n",
    )
}

fn bench_text(alloc: Global) -> Result<Text, NoMemory>
    ensures { IfOk result (λ text. text ≡ bench_head ++ bench_body) }
{
    let mut text = Vec::new(alloc);
    put_bench_head(&mut text)?;
    put_bench_body(&mut text)?;
    Ok(Text::from_vec(text))
}

/// The file of the bench, which uses the first package.
#[tactic(auto, unfolding(crate::specs::Files::bench_path))]
fn bench_file(alloc: Global) -> Result<NamedText, NoMemory>
    ensures { IfOk result (λ file. file ≡ bench_file) }
{
    Ok(NamedText {
        path: Text::from_slice(alloc, b"tb.vhd")?,
        bytes: bench_text(alloc)?,
    })
}

/// The path of the file of a package.
#[tactic(auto, unfolding(crate::specs::Files::source_folder, crate::specs::Files::source_end))]
pub fn package_path(alloc: Global, number: u64) -> Result<Text, NoMemory>
    ensures { IfOk result (λ path. path ≡ package_path number) }
{
    let mut path = Vec::new(alloc);
    put(&mut path, b"src/f")?;
    put_number(alloc, &mut path, number)?;
    put(&mut path, b".vhd")?;
    Ok(Text::from_vec(path))
}

/// Puts the lines that make a package visible.
#[tactic(auto, unfolding(crate::specs::Files::library_words, crate::specs::Files::all_words))]
fn put_use(alloc: Global, out: &mut Vec<u8>, number: u64) -> Result<(), NoMemory>
    ensures { OnOk result (out.new.items ≡ out.old.items ++ use_lines number) }
{
    put(out, b"library lib;\nuse lib.p")?;
    put_number(alloc, out, number)?;
    put(out, b".all;\n")?;
    Ok(())
}

/// Puts what a package uses.
fn put_used(alloc: Global, out: &mut Vec<u8>, number: u64) -> Result<(), NoMemory>
    ensures { OnOk result (out.new.items ≡ out.old.items ++ used_lines number) }
{
    if number == 1 {
        return Ok(());
    }
    put_use(alloc, out, number / 2)
}

#[tactic(auto, unfolding(crate::specs::Files::constant_words))]
fn put_constant(out: &mut Vec<u8>) -> Result<(), NoMemory>
    ensures { OnOk result (out.new.items ≡ out.old.items ++ constant_words) }
{
    put(out, b" is\n  constant c : integer := 0;\nend package p")
}

/// Puts a package, up to where it is named again.
#[tactic(auto, unfolding(crate::specs::Files::package_words))]
fn put_begin(alloc: Global, out: &mut Vec<u8>, number: u64) -> Result<(), NoMemory>
    ensures { OnOk result (out.new.items ≡ out.old.items ++ package_begin number) }
{
    put(out, b"package p")?;
    put_number(alloc, out, number)?;
    put_constant(out)?;
    Ok(())
}

/// Puts the end of a package from there on.
#[tactic(auto, unfolding(crate::specs::Files::end_words))]
fn put_end(alloc: Global, out: &mut Vec<u8>, number: u64) -> Result<(), NoMemory>
    ensures { OnOk result (out.new.items ≡ out.old.items ++ package_end number) }
{
    put_number(alloc, out, number)?;
    put(out, b";\n")?;
    Ok(())
}

/// Puts a package.
fn put_package(alloc: Global, out: &mut Vec<u8>, number: u64) -> Result<(), NoMemory>
    ensures { OnOk result (out.new.items ≡ out.old.items ++ package_lines number) }
{
    put_begin(alloc, out, number)?;
    put_end(alloc, out, number)?;
    Ok(())
}

/// Puts what an edit adds.
#[tactic(auto, unfolding(crate::specs::Files::note_line))]
fn put_note(out: &mut Vec<u8>, noted: bool) -> Result<(), NoMemory>
    ensures { OnOk result (out.new.items ≡ out.old.items ++ noted_lines noted) }
{
    if noted {
        return put(out, b"-- child: note 1\n");
    }
    Ok(())
}

/// The text of the file of a package.
pub fn package_text(alloc: Global, number: u64, noted: bool) -> Result<Text, NoMemory>
    ensures { IfOk result (λ text. text ≡ package_text number noted) }
{
    let mut text = Vec::new(alloc);
    put_used(alloc, &mut text, number)?;
    put_package(alloc, &mut text, number)?;
    put_note(&mut text, noted)?;
    Ok(Text::from_vec(text))
}

/// The file of a package, which is edited if its number is `edited`.
fn package_file(alloc: Global, edited: u64, number: u64) -> Result<NamedText, NoMemory>
    ensures { IfOk result (λ file. file ≡ package_file edited number) }
{
    Ok(NamedText {
        path: package_path(alloc, number)?,
        bytes: package_text(alloc, number, number == edited)?,
    })
}

/// Adds the files of packages.
fn push_packages(
    alloc: Global,
    files: &mut NamedTextList,
    edited: u64,
    count: u32,
) -> Result<(), NoMemory>
    ensures { OnOk result (files.new ≡ files.old ++ packages edited count) }
{
    for before in 0..count {
        files.push(package_file(alloc, edited, before as u64 + 1)?)?;
    }
    Ok(())
}

/// The number of the package that is edited: 2, or 1 if there are fewer than two packages.
pub fn edited_package(count: u32) -> u64
    ensures { result ≡ edited_package count }
{
    if 1 < count { 2 } else { 1 }
}

/// The files of the generated project with `count` packages: the project file `vunit.toml`, the bench `tb.vhd`, and the
/// packages `src/fK.vhd`, with the numbers K from 1 on. The bench uses the first package. Each package K but the first uses
/// package K / 2, rounded down. The package with the number `edited` is edited; if no package has this number, none is
/// edited.
pub fn generated_files(alloc: Global, count: u32, edited: u64) -> Result<NamedTextList, NoMemory>
    ensures { IfOk result (λ files. files ≡ generated_files count edited) }
{
    let mut files = NamedTextList::new(alloc);
    files.push(toml_file(alloc)?)?;
    files.push(bench_file(alloc)?)?;
    push_packages(alloc, &mut files, edited, count)?;
    Ok(files)
}
