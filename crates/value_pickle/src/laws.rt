// What holds of the definitions.
ghost use Rattle.std.specs.Prelude.{◌≡◌, ◌++◌, ◌≤◌, ◌<◌, ◌^◌, List, ℕ, [], length, true};
ghost use Rattle.web_data.specs.declared.datum.Datum.{Datum};
ghost use Rattle.web_data.specs.declared.datum.Desc.{Desc};
ghost use Rattle.web_data.specs.Data.{has_desc};
ghost use Rattle.web_data.specs.Pickles.{pickle, number_pickle};
ghost use Rattle.value_pickle.specs.Leb128.{leb128_value};

/// Two data of one description have equal pickles exactly where they are equal.
pub fn equal_pickles_are_of_equal_data()
    ensures data { (desc : Desc) (x y : Datum) → has_desc desc x ≡ true → has_desc desc y ≡ true → pickle desc x ≡ pickle desc y → x ≡ y }
    ensures pickles { (desc : Desc) (x y : Datum) → x ≡ y → pickle desc x ≡ pickle desc y }
{}

/// No pickle of a description is a proper prefix of another.
pub fn no_pickle_begins_another()
    ensures { (desc : Desc) (x y : Datum) (more : List ℕ) → has_desc desc x ≡ true → has_desc desc y ≡ true → pickle desc x ++ more ≡ pickle desc y → more ≡ [] }
{}

/// A number's bytes are its LEB128, no fewer bytes stand for it, and they are ten at most.
pub fn numbers_are_shortest()
    ensures value { (n : ℕ) → n < 2 ^ 64 → leb128_value (number_pickle n) ≡ n }
    ensures shortest { (n : ℕ) (bytes : List ℕ) → n < 2 ^ 64 → 0 < length bytes → leb128_value bytes ≡ n → length (number_pickle n) ≤ length bytes }
    ensures at_most { (n : ℕ) → length (number_pickle n) ≤ 10 }
{}
