//! Laws of payloads and of what they stand for, as functions with empty bodies.

ghost use Rattle.std.specs.Prelude.{◌≡◌, ◌↔◌, ℕ, List, Some, true};
ghost use Rattle.base_bytes.specs.Reading.{AreBytes};
ghost use Rattle.store_codec.specs.Forms.{ProductDraft, RequestDraft, RequestPayload, IsSpellable, request_payload_bytes, request_payload_in};
ghost use Rattle.store_codec.specs.Forms.RequestPayload.{OfProduct, OfRequest};
ghost use Rattle.store_codec.specs.RecordTables.{AreNumberedOnce, IsNewProduct, IsRequest, RecordTable, after_request_payload, is_new_product, is_request, record_table_of, with_product, with_request};

/// What holds of the bytes of payloads, whoever writes or reads them.
pub fn laws_of_request_payloads()
    // What is read is spelled so,
    ensures takes { (bytes : List ℕ) (payload : RequestPayload) → AreBytes bytes →
        request_payload_in bytes ≡ Some payload →
        (bytes ≡ request_payload_bytes payload) × IsSpellable payload }
    // and what is spelled so is read.
    ensures again { (payload : RequestPayload) → IsSpellable payload →
        request_payload_in (request_payload_bytes payload) ≡ Some payload }
{}

/// What holds of the texts, products and records that payloads stand for.
pub fn laws_of_record_tables()
    // Whatever the payloads, no text and no product has two numbers.
    ensures once { (payloads : List (List ℕ)) → AreNumberedOnce (record_table_of payloads) }
    // `is_request` decides whether the draft of a record is valid on a table,
    ensures request { (table : RecordTable) (draft : RequestDraft) →
        (is_request table draft ≡ true) ↔ IsRequest table draft }
    // and `is_new_product` whether the draft of a product is valid and its product new.
    ensures product { (table : RecordTable) (draft : ProductDraft) →
        (is_new_product table draft ≡ true) ↔ IsNewProduct table draft }
    // The payload of a valid record adds it, with its texts and its product if the table lacks them;
    ensures adds { (table : RecordTable) (draft : RequestDraft) → IsRequest table draft →
        IsSpellable (OfRequest draft) →
        after_request_payload table (request_payload_bytes (OfRequest draft))
        ≡ with_request table draft }
    // the payload of a new product adds the product, and no record.
    ensures adds_product { (table : RecordTable) (draft : ProductDraft) →
        IsNewProduct table draft → IsSpellable (OfProduct draft) →
        after_request_payload table (request_payload_bytes (OfProduct draft))
        ≡ with_product table draft }
{}
