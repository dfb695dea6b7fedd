ghost use Rattle.std.specs.Prelude.{◌≡◌, ◌<◌, ℕ, List, Some, nat_le, true};
ghost use Rattle.std.specs.List.{list_all};
ghost use Rattle.json.specs.Json.{document};
ghost use Rattle.trace_forms.specs.Forms.{event_value, value_text};

/// A line of JSON is read as the object of the event's number, name and findings, by the grammar of the crate `json`.
pub fn a_line_of_json_is_read_as_its_object()
    ensures { (number : ℕ) (event : List ℕ) (findings : List (List ℕ)) → number < 18446744073709551616
        → document (value_text (event_value number event findings)) ≡ Some (event_value number event findings) }
{}

/// It holds no control sign: no line feed comes before its end.
pub fn a_line_of_json_is_one_line()
    ensures { (number : ℕ) (event : List ℕ) (findings : List (List ℕ)) → number < 18446744073709551616
        → list_all (nat_le 32) (value_text (event_value number event findings)) ≡ true }
{}
