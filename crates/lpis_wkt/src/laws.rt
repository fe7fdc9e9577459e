//! Laws of the definitions: functions that do nothing, and whose contracts say them.

ghost use Rattle.std.specs.Prelude.{◌≡◌, ◌↔◌, ◌⊎◌, ◌*◌, ◌^◌, ℕ, ℤ, pos, neg_ℤ, nat_abs, length};
ghost use Rattle.std.specs.Prelude.{List, [], ◌∷◌, ◌++◌, Ok, Err};
ghost use Rattle.lpis_rings.specs.declared.polygon.Member.{Member};
ghost use Rattle.lpis_wkt.specs.declared.fault.WktCode.{WktCode};
ghost use Rattle.lpis_wkt.specs.Answer.{polygon_of};
ghost use Rattle.std.specs.Str.Parse.{digits_value};
ghost use Rattle.lpis_wkt.specs.Number.{coordinate_decimals, decimals, number, whole};
ghost use Rattle.lpis_wkt.specs.Table.{TableCode};
ghost use Rattle.lpis_wkt.specs.Text.{PolygonText, TextFault};
ghost use Rattle.lpis_wkt.specs.Tokens.{Token};
ghost use Rattle.lpis_wkt.specs.Viable.{Viable};

/// A text spells one polygon, or has one first fault, and never both.
pub fn one_answer()
    ensures some { (text : List ℕ) → ((members : List Member) × PolygonText text members)
        ⊎ ((code : WktCode) × (offset : ℕ) × TextFault text code offset) }
    ensures one_polygon { (text : List ℕ) (members members' : List Member)
        → PolygonText text members → PolygonText text members' → members ≡ members' }
    ensures one_fault { (text : List ℕ) (code code' : WktCode) (offset offset' : ℕ)
        → TextFault text code offset → TextFault text code' offset' → (code ≡ code')
        × (offset ≡ offset') }
    ensures never_both { (text : List ℕ) (members : List Member) (code : WktCode) (offset : ℕ)
        → PolygonText text members → TextFault text code offset → ⊥ }
{}

/// What a text says as a function is its polygon or its first fault.
pub fn function_of_text()
    ensures polygon { (text : List ℕ) (members : List Member) → PolygonText text members
        ↔ (polygon_of text ≡ Ok members) }
    ensures fault { (text : List ℕ) (code : WktCode) (offset : ℕ) → TextFault text code offset
        ↔ (polygon_of text ≡ Err (code, offset)) }
{}

/// The table of faults gives one code for one place: for tokens that some text of the grammar
/// begins with, and a next token that cannot stand after them.
pub fn one_code()
    ensures { (before : List Token) (t : Token) (code code' : WktCode) → Viable before
        → (Viable (before ++ t ∷ []) → ⊥) → TableCode before t code → TableCode before t code'
        → code ≡ code' }
{}

/// A number is read exactly: with as many digits more as it has decimals, its amount is what its
/// digits spell with the decimals of a coordinate more. So 1.25 metres are 1250 millimetres: 1250 *
/// 10^2 is 10^3 * 125. Behind a `-` (45) it is not above 0, else not below.
pub fn exact_numbers()
    ensures amount { (word : List ℕ) (z : ℤ) → number word ≡ Ok z
        → nat_abs z * 10 ^ length (decimals word) ≡ 10 ^ coordinate_decimals * digits_value 10
        (whole word ++ decimals word) }
    ensures minus { (rest : List ℕ) (z : ℤ) → number (45 ∷ rest) ≡ Ok z
        → z ≡ neg_ℤ (pos (nat_abs z)) }
    ensures plus { (b : ℕ) (rest : List ℕ) (z : ℤ) → (b ≡ 45 → ⊥) → number (b ∷ rest) ≡ Ok z
        → z ≡ pos (nat_abs z) }
{}
