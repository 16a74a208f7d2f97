//! The law of values in XML, as a function with an empty body: a caller cites it by calling it.

ghost use Rattle.std.specs.Prelude.{◌≡◌, ℕ, List};
ghost use Rattle.std.specs.List.{flat_map};
ghost use Rattle.std.specs.Str.{encode_utf8_all};
ghost use Rattle.report.specs.Junit.{value, xml_character};

/// What holds of names as values in XML.
pub fn laws_of_values()
    // The value of a name that is UTF-8 is that of its characters, one after the other.
    ensures { (name characters : List ℕ) → name ≡ encode_utf8_all characters →
        value name ≡ flat_map xml_character characters }
{}
