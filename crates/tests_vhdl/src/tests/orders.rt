//! Orders and cycles of small projects: rows by hand, and a table of random edges beside a plain program.

use crate::tests::edges::are_edges;
use base::{Edges, NoMemory, OrderFault, Positions};
use order::order;
use std::alloc::Global;
use std::process::Abort;
use std::test::Fail;

/// A line for each project: a word for each file, of its own letter and those of the files that it depends on; and the
/// order after `=`, or the cycle after `!`.
static ROWS: &[u8] = b"a b c =abc
ac b c =bca
ac bac c =cab
a bac c =acb
ac bc cd de ec !cde
a bc cb dab !bc
abc ba ca !ab
a bd c dce ed !de
abd b cd d =bdac
ab bc cd de e =edcba
";

/// An answer, wanted or found: an order or a cycle.
#[derive(Drop)]
struct Answer {
    is_cycle: bool,
    files: Positions,
}

fn no_answer(alloc: Global) -> Answer {
    Answer {
        is_cycle: false,
        files: Positions::new(alloc),
    }
}

/// The order of files with these edges, or their cycle; nothing where they aren't edges.
fn answer_of(alloc: Global, edges: &Edges) -> Result<Option<Answer>, NoMemory> {
    if !are_edges(edges) {
        return Ok(None);
    }
    match order(alloc, edges) {
        Ok(files) => Ok(Some(Answer {
            is_cycle: false,
            files,
        })),
        Err(OrderFault::Cycle { files }) => Ok(Some(Answer {
            is_cycle: true,
            files,
        })),
        Err(OrderFault::NoMemory) => Err(NoMemory),
    }
}

/// Whether the answer for these edges is the wanted one.
fn is_answer(alloc: Global, edges: &Edges, wanted: &Answer) -> Result<bool, NoMemory> {
    match answer_of(alloc, edges)? {
        Some(found) => Ok(
            found.is_cycle == wanted.is_cycle && found.files.as_slice() == wanted.files.as_slice(),
        ),
        None => Ok(false),
    }
}

/// Reads the rows letter by letter, and counts the rows that have the wanted answer.
fn rows_answered(alloc: Global) -> Result<u32, NoMemory> {
    let mut count = 0u32;
    let mut edges = Edges::new(alloc);
    let mut deps = Positions::new(alloc);
    let mut wanted = no_answer(alloc);
    let mut is_own = true;
    let mut is_wanted = false;
    for letter in ROWS {
        let file = (*letter as u32).saturating_sub(97);
        if *letter == b'\n' {
            if is_answer(alloc, &edges, &wanted)? {
                count = count.saturating_add(1);
            }
            edges = Edges::new(alloc);
            wanted = no_answer(alloc);
            is_wanted = false;
        } else if *letter == b' ' {
            edges.push(deps)?;
            deps = Positions::new(alloc);
            is_own = true;
        } else if *letter == b'=' || *letter == b'!' {
            wanted.is_cycle = *letter == b'!';
            is_wanted = true;
        } else if is_wanted {
            wanted.files.push(file)?;
        } else if is_own {
            is_own = false;
        } else {
            deps.push(file)?;
        }
    }
    Ok(count)
}

#[test]
fn rows_are_ordered(rt: HostRuntime) -> Result<(), Fail> {
    assert!(rt; rows_answered(rt.alloc())? == 10);
    Ok(())
}

/// The files that a file of at most 8 depends on, as bits.
fn edges_of(alloc: Global, count: u32, masks: &[u32; 8]) -> Result<Edges, NoMemory> {
    let mut edges = Edges::new(alloc);
    for file in 0..8u32 {
        if file < count {
            let mut deps = Positions::new(alloc);
            for dep in 0..8u32 {
                if masks[file as usize] & 1 << dep != 0 {
                    deps.push(dep)?;
                }
            }
            edges.push(deps)?;
        }
    }
    Ok(edges)
}

/// The order of at most 8 files by a plain program: each time all files are looked at.
fn plain_order(alloc: Global, count: u32, masks: &[u32; 8]) -> Result<Answer, NoMemory> {
    let mut found = no_answer(alloc);
    let mut left = (1u32 << count.min(8)) - 1;
    for _step in 0..8u32 {
        let mut next = 8u32;
        for file in 0..8u32 {
            let is_free = left & 1 << file != 0 && masks[file as usize] & left == 0;
            if next == 8 && is_free {
                next = file;
            }
        }
        if next < 8 {
            left = left & !(1 << next);
            found.files.push(next)?;
        }
    }
    if left == 0 {
        return Ok(found);
    }
    plain_cycle(alloc, masks, left)
}

/// The cycle that is met from the first file that is left.
fn plain_cycle(alloc: Global, masks: &[u32; 8], left: u32) -> Result<Answer, NoMemory> {
    let mut found = no_answer(alloc);
    found.is_cycle = true;
    let mut file = left.trailing_zeros();
    for _step in 0..8u32 {
        file = (masks[(file % 8) as usize] & left).trailing_zeros();
    }
    let cycle = plain_loop(masks, left, file);
    let mut at = left.trailing_zeros();
    for _step in 0..8u32 {
        if cycle & 1 << (at % 8) == 0 {
            at = (masks[(at % 8) as usize] & left).trailing_zeros();
        }
    }
    let mut passed = 0u32;
    for _step in 0..8u32 {
        if passed & 1 << (at % 8) == 0 {
            passed = passed | 1 << (at % 8);
            found.files.push(at % 8)?;
        }
        at = (masks[(at % 8) as usize] & left).trailing_zeros();
    }
    Ok(found)
}

/// The files on the way from a file that is on a cycle, as bits.
fn plain_loop(masks: &[u32; 8], left: u32, start: u32) -> u32 {
    let mut cycle = 0u32;
    let mut file = start;
    for _step in 0..8u32 {
        cycle = cycle | 1 << (file % 8);
        file = (masks[(file % 8) as usize] & left).trailing_zeros();
    }
    cycle
}

/// The next random number.
fn random(seed: u32) -> u32 {
    seed.wrapping_mul(1_664_525).wrapping_add(1_013_904_223)
}

/// Random edges of 1 to 8 files: of some few, of some many.
fn random_masks(seed: u32) -> [u32; 8] {
    let mut masks = [0u32; 8];
    let mut next = seed;
    for file in 0..8u32 {
        next = random(next);
        let many = next >> 16;
        next = random(next);
        let few = many & next >> 16;
        let others = if seed & 1 << 20 == 0 {
            few & few >> 3
        } else {
            few
        };
        masks[file as usize] = others & 255 & !(1 << file);
    }
    masks
}

/// How many of `rows` random projects have the same answer as by the plain program, and how many have a cycle.
fn random_answered(alloc: Global, rows: u32) -> Result<(u32, u32), NoMemory> {
    let mut count = 0u32;
    let mut cycles = 0u32;
    let mut seed = 20_261_127;
    for _row in 0..rows {
        seed = random(seed);
        let files = (seed >> 24) % 8 + 1;
        let mut masks = random_masks(seed);
        for file in 0..8u32 {
            masks[file as usize] = masks[file as usize] & (1u32 << files) - 1;
        }
        let wanted = plain_order(alloc, files, &masks)?;
        if wanted.is_cycle {
            cycles = cycles.saturating_add(1);
        }
        if is_answer(alloc, &edges_of(alloc, files, &masks)?, &wanted)? {
            count = count.saturating_add(1);
        }
    }
    Ok((count, cycles))
}

#[test]
fn random_projects_are_ordered_as_by_a_plain_program(rt: HostRuntime) -> Result<(), Fail> {
    let (count, cycles) = random_answered(rt.alloc(), 200)?;
    assert!(rt; count == 200);
    assert!(rt; cycles >= 50 && cycles <= 150);
    Ok(())
}
