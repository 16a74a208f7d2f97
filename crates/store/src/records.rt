//! The store of requests as a store of records.

ghost use Rattle.store.specs.Held.{latest_held};
ghost use Rattle.store.specs.Stored.{IsOver, IsRequestReady, IsRequestStoreInStep, IsResting, prepared_record, requests_in};
ghost use Rattle.store.specs.StoreLaws.{request_store_durable, request_store_held};

use crate::store::{PreparedRequest, RequestStore};
use base::{DiskFailed, FileName, Graph, NoMemory, Text};
use outside::{Disk, OpenRecords, Records, StoreFault};
use std::alloc::Global;

impl<'g> Records for RequestStore<'g> {
    type Prepared = PreparedRequest;

    ghost records_of = { requests_in };

    ghost is_resting = { λ image. IsResting image };

    ghost latest_of = { λ store. latest_held store.held.payloads };

    ghost in_step = { λ store disk. IsRequestStoreInStep store disk };

    ghost broken = { λ store. store.journal.broken };

    ghost record_of = { λ store prepared. prepared_record store.held.payloads prepared };

    ghost is_ready = { λ store prepared. IsRequestReady store.held prepared };

    ghost position_of = { λ prepared. prepared.addition.at };

    ghost is_over = { λ store graph. IsOver store graph };

    fn is_current(&self, graph: &Graph, at: u32) -> bool {
        RequestStore::is_current(self, graph, at)
    }

    fn artefact_at(&self, graph: &Graph, at: u32) -> Option<&[u8]> {
        RequestStore::artefact_at(self, graph, at)
    }

    fn artefact(&self, name: &FileName) -> Option<&[u8]> {
        RequestStore::artefact(self, name)
    }

    fn prepare(
        &mut self,
        alloc: Global,
        graph: &Graph,
        at: u32,
        artefact: &Text,
    ) -> Result<PreparedRequest, NoMemory> {
        RequestStore::prepare(self, alloc, graph, at, artefact)
    }

    fn commit<D: Disk>(
        &mut self,
        disk: &mut D,
        prepared: PreparedRequest,
    ) -> Result<(), DiskFailed> {
        RequestStore::commit(self, disk, prepared)
    }

    fn is_broken(&self) -> bool {
        RequestStore::is_broken(self)
    }

    ghost durable = { λ store disk in_step. request_store_durable store disk in_step };

    ghost held = { λ store disk name in_step. request_store_held store disk name in_step };
}

impl<'g> OpenRecords<'g> for RequestStore<'g> {
    fn open<D: Disk>(
        alloc: Global,
        disk: &mut D,
        graph: &'g Graph,
    ) -> Result<RequestStore<'g>, StoreFault> {
        RequestStore::open(alloc, disk, graph)
    }

    fn open_empty<D: Disk>(
        alloc: Global,
        disk: &mut D,
        graph: &'g Graph,
    ) -> Result<RequestStore<'g>, StoreFault> {
        RequestStore::open_empty(alloc, disk, graph)
    }
}
