ghost use Rattle.std.specs.Prelude.{◌≡◌, ℕ, List, true, nat_le};
ghost use Rattle.std.specs.List.{list_all};
ghost use Rattle.json.specs.Print.{quoted};
ghost use Rattle.json_lines.specs.Strings.{plain_text, string_text, strings_text};

/// A string is written as the crate `json` writes it, and neither it nor an array of strings holds a control sign, such
/// as a line feed.
pub fn strings_stand_on_one_line()
    ensures written { (text : List ℕ) → quoted (plain_text text) ≡ string_text text }
    ensures string { (text : List ℕ) → list_all (nat_le 32) (string_text text) ≡ true }
    ensures strings { (texts : List (List ℕ)) → list_all (nat_le 32) (strings_text texts) ≡ true }
{}
