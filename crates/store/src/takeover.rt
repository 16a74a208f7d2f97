//! Records of requests that stand for records of the views of nodes.

ghost use Rattle.std.specs.Prelude.{◌≡◌, ◌<◌, ◌++◌, ◌∷◌, [], List, Some, length, map, All, IfOk, OnOk};
ghost use Rattle.store_form_2.specs.Nodes.{AreNodes};
ghost use Rattle.store_form_2.specs.NodeContents.{contents_of as node_contents_of};
ghost use Rattle.store_form_2.specs.Locations.{IsContents, contents_in, texts_in};
ghost use Rattle.outside.specs.Records.{Record, latest_alone};
ghost use Rattle.store_codec.specs.Compaction.{compacted_requests};
ghost use Rattle.store_codec.specs.RecordTables.{record_table_of};
ghost use Rattle.store_form_2.specs.Migrating.{migrated_requests};
ghost use Rattle.store.specs.Taking.{AreEachNext, IsNext, request_at, taken_payloads};

use crate::LoadedStore;
use crate::parts::{entry_of, products_of, record_nodes};
use base::NoMemory;
use base_bytes::bytes_in;
use std::alloc::Global;
use store_form_2::{ContentsLocations, Segments, contents_of, migrated_rows};
use store_journal::Payloads;

/// Adds the request that stands for a record.
fn add_row(
    alloc: Global,
    held: &mut LoadedStore<'_>,
    segments: &Segments,
    contents: &ContentsLocations,
    number: usize,
) -> Result<(), NoMemory>
    requires contents { IsContents segments.now.payloads contents.now }
    requires nodes { AreNodes (texts_in segments.now.payloads contents.now.texts) contents.now.table.nodes }
    requires number { number < length contents.now.records.locations.items }
    requires next { (new : Record) × (request_at segments.now.payloads contents.now number ≡ Some new)
        × IsNext (record_table_of held.old.payloads).records new }
    ensures { (new : Record) → request_at segments.now.payloads contents.now number ≡ Some new →
        OnOk result
        ((record_table_of held.new.payloads).records
        ≡ (record_table_of held.old.payloads).records ++ new ∷ []) }
{
    let location = contents.records.locations[number];
    let row = contents.table.row(location.node);
    let entry = entry_of(alloc, contents, segments, row)?;
    let deps = products_of(alloc, held, &contents.table, row.deps.as_slice())?;
    let artefact = bytes_in(segments.get(location.payload), location.artefact);
    held.add(alloc, &entry, deps.as_slice(), artefact)
}

/// The requests that stand for some records, one after the other.
fn requests_of<'g>(
    alloc: Global,
    segments: &Segments,
    contents: &ContentsLocations,
    rows: &[usize],
) -> Result<LoadedStore<'g>, NoMemory>
    requires contents { IsContents segments.now.payloads contents.now }
    requires nodes { AreNodes (texts_in segments.now.payloads contents.now.texts) contents.now.table.nodes }
    requires rows { All (λ number. number < length contents.now.records.locations.items) rows.now }
    requires each { (requests : List Record)
        × (map (request_at segments.now.payloads contents.now) rows.now
        ≡ map (λ kept. Some kept) requests)
        × AreEachNext requests }
    ensures { (requests : List Record) →
        map (request_at segments.now.payloads contents.now) rows.now
        ≡ map (λ kept. Some kept) requests →
        IfOk result (λ held. (record_table_of held.payloads).records ≡ requests) }
{
    let mut held = LoadedStore::of(alloc, Payloads::new(alloc))?;
    for number in rows {
        add_row(alloc, &mut held, segments, contents, *number)?;
    }
    Ok(held)
}

/// The requests that stand for the latest records of a contents of nodes.
fn contents_requests<'g>(
    alloc: Global,
    segments: &Segments,
    contents: &ContentsLocations,
) -> Result<LoadedStore<'g>, NoMemory>
    requires contents { IsContents segments.now.payloads contents.now }
    requires is { contents_in segments.now.payloads contents.now ≡ node_contents_of segments.now.payloads }
    ensures { IfOk result
        (λ held.
        (record_table_of held.payloads).records
        ≡ migrated_requests (node_contents_of segments.now.payloads).records) }
{
    let _nodes = contents.table.len();
    let nodes = record_nodes(alloc, contents.records.locations.as_slice())?;
    let rows = migrated_rows(
        alloc,
        &contents.table,
        &contents.records.names,
        nodes.as_slice(),
    )?;
    let held = requests_of(alloc, segments, contents, rows.as_slice())?;
    Ok(held)
}

/// The payloads that keep the latest records of what is held, and nothing else.
fn payloads_of(alloc: Global, held: &LoadedStore<'_>) -> Result<Payloads, NoMemory>
    ensures is { IfOk result
        (λ payloads.
        payloads ≡ compacted_requests (record_table_of held.now.payloads).records) }
    ensures records { IfOk result
        (λ payloads.
        (record_table_of payloads).records
        ≡ latest_alone (record_table_of held.now.payloads).records) }
{
    let plan = held.latest_plan(alloc)?;
    let payloads = held.latest_payloads(alloc, &plan)?;
    Ok(payloads)
}

/// The requests that stand for the latest records of payloads of the earlier form.
fn requests_from<'g>(alloc: Global, segments: &Segments) -> Result<LoadedStore<'g>, NoMemory>
    ensures { IfOk result
        (λ held.
        (record_table_of held.payloads).records
        ≡ migrated_requests (node_contents_of segments.now.payloads).records) }
{
    let contents = contents_of(alloc, segments)?;
    let held = contents_requests(alloc, segments, &contents)?;
    Ok(held)
}

/// The payloads that take the location of those of the earlier form.
fn taken_from(alloc: Global, segments: &Segments) -> Result<Payloads, NoMemory>
    ensures is { IfOk result (λ payloads. payloads ≡ taken_payloads segments.now.payloads) }
    ensures records { IfOk result
        (λ payloads.
        (record_table_of payloads).records
        ≡ migrated_requests (node_contents_of segments.now.payloads).records) }
{
    let held = requests_from(alloc, segments)?;
    let payloads = payloads_of(alloc, &held)?;
    Ok(payloads)
}

/// The payloads that take the location of those of the earlier form: they keep the requests that stand for the latest records, and
/// nothing else.
pub fn taken_over(alloc: Global, opened: Payloads) -> Result<Payloads, NoMemory>
    ensures is { IfOk result (λ payloads. payloads ≡ taken_payloads opened) }
    ensures records { IfOk result
        (λ payloads.
        (record_table_of payloads).records
        ≡ migrated_requests (node_contents_of opened).records) }
{
    let segments = Segments::of(opened);
    let payloads = taken_from(alloc, &segments)?;
    Ok(payloads)
}
