//! What a child is asked for, by the head of its request.

use base::{MaybeText, NoMemory, Request, Text, TextList};
use base_bytes::ByteReader;
use std::alloc::Global;

/// The first bytes of a request to a simulator.
const BENCH_MAGIC: &[u8] = b"VRB1";

/// The first command word that denotes the program itself.
const OWN_WORD: &[u8] = b"@self";

/// What a child is asked for.
#[derive(Drop)]
pub struct Asked {
    /// The file, as `lib, src/a.vhd`; of tests the bench, as `lib.tb`.
    pub name: Vec<u8>,
    /// The tests that it is asked to run. A compiler is asked for none.
    pub tests: Option<AskedTests>,
    /// Whether its command is the program itself.
    pub is_own: bool,
}

/// The tests of one run.
#[derive(Drop)]
pub struct AskedTests {
    /// The names of the cases; none where `is_whole` is true.
    pub cases: TextList,
    /// Whether the bench has no case with a name.
    pub is_whole: bool,
    /// The folder of its results and its output.
    pub folder: Vec<u8>,
}

impl Asked {
    /// The name of a case, as `lib.tb.case`.
    pub fn case_name(&self, alloc: Global, case: &[u8]) -> Result<Vec<u8>, NoMemory> {
        let mut name = Vec::from_slice(alloc, self.name.as_slice())?;
        name.push(b'.')?;
        name.extend_from_slice(case)?;
        Ok(name)
    }

    /// What is running: the file, the one case, or the bench of several.
    pub fn title(&self, alloc: Global) -> Result<Vec<u8>, NoMemory> {
        let Some(tests) = &self.tests else {
            return Ok(Vec::from_slice(alloc, self.name.as_slice())?);
        };
        match tests.cases.as_slice() {
            [] => self.case_name(alloc, b"all"),
            [case] => self.case_name(alloc, case.bytes()),
            _ => Ok(Vec::from_slice(alloc, self.name.as_slice())?),
        }
    }
}

/// What a request asks for; nothing where it is of another form.
pub fn asked_of(alloc: Global, request: &Request) -> Result<Option<Asked>, NoMemory> {
    let mut reader = ByteReader::new(request.input.bytes());
    let Some(magic) = reader.take(4) else {
        return Ok(None);
    };
    let Some(library) = reader.text() else {
        return Ok(None);
    };
    let Some(name) = reader.text() else {
        return Ok(None);
    };
    let is_bench = magic == BENCH_MAGIC;
    let between = if is_bench {
        b".".as_slice()
    } else {
        b", ".as_slice()
    };
    let tests = if is_bench {
        tests_of(alloc, &mut reader, &request.results)?
    } else {
        None
    };
    Ok(Some(Asked {
        name: join_three(alloc, library, between, name)?,
        tests,
        is_own: is_own(request.command.as_slice()),
    }))
}

fn join_three(alloc: Global, a: &[u8], between: &[u8], b: &[u8]) -> Result<Vec<u8>, NoMemory> {
    let mut text = Vec::from_slice(alloc, a)?;
    text.extend_from_slice(between)?;
    text.extend_from_slice(b)?;
    Ok(text)
}

fn is_own(command: &[Text]) -> bool {
    match command.first() {
        Some(word) => word.bytes() == OWN_WORD,
        None => false,
    }
}

/// The tests, from the architecture on.
fn tests_of(
    alloc: Global,
    reader: &mut ByteReader<'_>,
    results: &MaybeText,
) -> Result<Option<AskedTests>, NoMemory> {
    let Some(_) = reader.text() else {
        return Ok(None);
    };
    let Some(count) = reader.u32() else {
        return Ok(None);
    };
    let mut cases = TextList::new(alloc);
    for _ in 0..count {
        let Some(case) = reader.text() else {
            return Ok(None);
        };
        cases.push(Text::from_slice(alloc, case)?)?;
    }
    Ok(Some(AskedTests {
        is_whole: count == 0,
        cases,
        folder: folder_of(alloc, results)?,
    }))
}

/// The folder that the results lie in.
fn folder_of(alloc: Global, results: &MaybeText) -> Result<Vec<u8>, NoMemory> {
    let MaybeText::Given(path) = results else {
        return Ok(Vec::new(alloc));
    };
    let path = path.bytes();
    match path.iter().rposition(|byte| *byte == b'/') {
        Some(at) if at <= path.len() => Ok(Vec::from_slice(alloc, &path[..at])?),
        _ => Ok(Vec::new(alloc)),
    }
}
