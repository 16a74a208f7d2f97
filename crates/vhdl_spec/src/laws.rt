//! Laws of the token cut and of the unit grammar, as functions with empty bodies: a caller cites one by calling it.

ghost use Rattle.std.specs.Prelude.{◌≡◌, ◌<◌, ◌≤◌, ◌↔◌, ◌⊎◌, ℕ, Bool, List, Contains, IsTrue, length};
ghost use Rattle.std.specs.List.{All, flat_map, list_any};
ghost use Rattle.base.specs.declared.lexical.LexFault.{LexFault};
ghost use Rattle.base.specs.declared.lexical.Token.{Token};
ghost use Rattle.base.specs.declared.lexical.Tokens.{Tokens};
ghost use Rattle.base.specs.declared.design.Role.{Role};
ghost use Rattle.base.specs.declared.design.UnitFault.{UnitFault};
ghost use Rattle.vhdl_spec.specs.Units.{AreTokensOf, Element, IsOutline, HasUnitFault, roles_of, units_of};
ghost use Rattle.vhdl_spec.specs.References.{BeginsClauseOf, IsBackAt, back_to, clause_start};
ghost use Rattle.vhdl_spec.specs.UnitIndices.{IsPlaced, FollowOn};
ghost use Rattle.vhdl_spec.specs.Visibility.{AreClosed, ScopeUnit, Sets, seen_after, sees};
ghost use Rattle.vhdl_spec.specs.Tokens.{LexicalElement, IsCut, HasFault, bytes_of};

/// The lexical elements of a cut, joined, are the text.
pub fn joined_lexical_elements()
    ensures { (text : List ℕ) (lexical_elements : List LexicalElement) →
        IsCut text lexical_elements → flat_map (bytes_of text) lexical_elements ≡ text }
{}

/// A text has no two cuts.
pub fn one_cut()
    ensures { (text : List ℕ) (a b : List LexicalElement) → IsCut text a → IsCut text b → a ≡ b }
{}

/// A text has no two faults.
pub fn one_fault()
    ensures { (text : List ℕ) (a b : LexFault) → HasFault text a → HasFault text b → a ≡ b }
{}

/// A text that has a cut has no fault.
pub fn no_fault_beside()
    ensures { (text : List ℕ) (lexical_elements : List LexicalElement) (fault : LexFault) →
        IsCut text lexical_elements → HasFault text fault → ⊥ }
{}

/// Each text has a cut or a fault.
pub fn cut_or_fault()
    ensures { (text : List ℕ) →
        ((lexical_elements : List LexicalElement) × IsCut text lexical_elements) ⊎ ((fault : LexFault) × HasFault text fault) }
{}

/// The tokens of a cut are in the text, and no more than its bytes.
pub fn laws_of_tokens()
    ensures within { (text : List ℕ) (tokens : Tokens) → AreTokensOf text tokens →
        All (λ token. (token.start < token.end) × (token.end ≤ length text)) tokens.list }
    ensures few { (text : List ℕ) (tokens : Tokens) → AreTokensOf text tokens →
        length tokens.list ≤ length text }
{}

/// Tokens have no two outlines.
pub fn one_outline()
    ensures { (roles : List Role) (a b : List Element) →
        IsOutline roles a → IsOutline roles b → a ≡ b }
{}

/// Tokens have no two faults of the unit grammar.
pub fn one_unit_fault()
    ensures { (text : List ℕ) (tokens : List Token) (a b : UnitFault) →
        HasUnitFault text tokens a → HasUnitFault text tokens b → a ≡ b }
{}

/// Tokens that have an outline have no fault of the unit grammar.
pub fn no_unit_fault_beside()
    ensures { (text : List ℕ) (tokens : List Token) (elements : List Element) (fault : UnitFault) →
        IsOutline (roles_of text tokens) elements → HasUnitFault text tokens fault → ⊥ }
{}

/// The tokens of each text have an outline or a fault of the unit grammar.
pub fn outline_or_fault()
    ensures { (text : List ℕ) (tokens : List Token) →
        ((elements : List Element) × IsOutline (roles_of text tokens) elements)
        ⊎ ((fault : UnitFault) × HasUnitFault text tokens fault) }
{}

/// Each unit of an outline is where its token numbers say: `lead` to `first` are its context items, at `first` is its
/// keyword, at `last` its final semicolon, and its name and owner lie between. The units follow one another: each
/// `lead` is the token after the `last` before, so their ranges rise and are disjoint. There are no more units than tokens.
pub fn laws_of_units()
    ensures placed { (text : List ℕ) (tokens : List Token) (elements : List Element) →
        IsOutline (roles_of text tokens) elements →
        All (IsPlaced text tokens) (units_of text tokens elements) }
    ensures ordered { (text : List ℕ) (tokens : List Token) (elements : List Element) →
        IsOutline (roles_of text tokens) elements → FollowOn 0 (units_of text tokens elements) }
    ensures few { (text : List ℕ) (tokens : List Token) (elements : List Element) →
        IsOutline (roles_of text tokens) elements →
        length (units_of text tokens elements) ≤ length tokens }
{}

/// The visible libraries of the units of a list are closed, and they are within all closed sets. A library that a unit sees after
/// any number of steps is visible: no set grows after as many steps as the definition takes.
pub fn laws_of_visibility()
    ensures closed { (units : List ScopeUnit) → AreClosed units (sees units) }
    ensures least { (units : List ScopeUnit) (sets : Sets) → AreClosed units sets →
        (user : ScopeUnit) (name : List ℕ) → Contains units user →
        IsTrue (sees units user name) → IsTrue (sets user name) }
    ensures enough { (units : List ScopeUnit) (steps : ℕ) (user : ScopeUnit) (name : List ℕ) →
        Contains units user →
        IsTrue (seen_after units steps user name) → IsTrue (sees units user name) }
{}

/// A token on the way back from an index passes a test exactly if some token before the index passes, and no token from there up
/// to the index ends the way back. For example, an index is in the list of a `use` exactly if a `use` is before it with no `;`
/// between. `clause_start` gives the token that begins the clause of an index.
pub fn laws_of_references()
    ensures back { (test ends : Role → Bool) (roles : List Role) (at : ℕ) → at ≤ length roles →
        IsTrue (list_any test (back_to ends roles at)) ↔ IsBackAt test ends roles at }
    ensures start { (roles : List Role) (at : ℕ) → at ≤ length roles →
        BeginsClauseOf roles (clause_start roles at) at }
{}
