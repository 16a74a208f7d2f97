//! Laws of the spelling of numbers, texts and names, as functions with empty bodies.

ghost use Rattle.std.specs.Prelude.{◌≡◌, ℕ, List, ◌<◌, ◌^◌, ◌++◌, length, Some};
ghost use Rattle.std.specs.Int.{w32, w64, to_le_bytes};
ghost use Rattle.base.specs.declared.file.FileName.{FileName};
ghost use Rattle.base.specs.Bytes.{number_bytes, text_bytes};
ghost use Rattle.base.specs.Jobs.{name_bytes};
ghost use Rattle.base_bytes.specs.Reading.{AreBytes, Takes, number_at, text_at};
ghost use Rattle.base_bytes.specs.Names.{name_at, HasNameSpelling};

/// What is read is spelled so, and what is spelled so is read, whatever bytes follow.
pub fn laws_of_bytes()
    ensures u32_takes { (bytes : List ℕ) (n : ℕ) (left : List ℕ) → AreBytes bytes →
        number_at w32 bytes ≡ Some (n, left) →
        Takes bytes (number_bytes n) left × (n < 2 ^ 32) }
    ensures u32_again { (n : ℕ) (left : List ℕ) → n < 2 ^ 32 →
        number_at w32 (number_bytes n ++ left) ≡ Some (n, left) }
    ensures u64_takes { (bytes : List ℕ) (n : ℕ) (left : List ℕ) → AreBytes bytes →
        number_at w64 bytes ≡ Some (n, left) →
        Takes bytes (to_le_bytes w64 n) left × (n < 2 ^ 64) }
    ensures u64_again { (n : ℕ) (left : List ℕ) → n < 2 ^ 64 →
        number_at w64 (to_le_bytes w64 n ++ left) ≡ Some (n, left) }
    ensures text_takes { (bytes text left : List ℕ) → AreBytes bytes →
        text_at bytes ≡ Some (text, left) →
        Takes bytes (text_bytes text) left × (length text < 2 ^ 32) }
    ensures text_again { (text left : List ℕ) → length text < 2 ^ 32 →
        text_at (text_bytes text ++ left) ≡ Some (text, left) }
    ensures name_takes { (bytes : List ℕ) (name : FileName) (left : List ℕ) → AreBytes bytes →
        name_at bytes ≡ Some (name, left) →
        Takes bytes (name_bytes name) left × HasNameSpelling name }
    ensures name_again { (name : FileName) (left : List ℕ) → HasNameSpelling name →
        name_at (name_bytes name ++ left) ≡ Some (name, left) }
{}
