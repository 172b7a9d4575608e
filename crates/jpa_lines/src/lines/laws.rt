//! Laws of the definitions.
ghost use Rattle.std.specs.Prelude.{◌≡◌, ℕ, List, map, Some};
ghost use Rattle.std.specs.Cmp.Lexicographic.{slice_cmp};
ghost use Rattle.std.specs.List.Sorted.{IsStrictlySortedBy};
ghost use Rattle.std.specs.Ordering.{nat_cmp};
ghost use Rattle.jpa_protocol.specs.declared.call.Parameter.{Parameter};
ghost use Rattle.jpa_protocol.specs.declared.reply.Reply.{Reply};
ghost use Rattle.serde_json.specs.Data.{Data};
ghost use Rattle.serde_json.specs.Written.{compact_text};
ghost use Rattle.jpa_json.specs.readers.JsonOf.{text_data};
ghost use Rattle.jpa_lines.specs.lines.CallOf.{parameters_at};
ghost use Rattle.jpa_lines.specs.lines.ReplyText.{reply_data};
ghost use Rattle.jpa_lines.specs.lines.Run.{lines_of, texts_of};

/// Each reply is one line: the lines of what is written are the replies' JSON.
pub fn one_line_each()
    ensures { (replies : List Reply) → lines_of (texts_of replies)
        ≡ map (λ r. compact_text (reply_data r)) replies }
{}

/// A line names each parameter once: the names of what it says as parameters rise.
pub fn each_parameter_once()
    ensures { (line : List ℕ) (d : Data) (ps : List Parameter)
        → text_data line ≡ Some d → parameters_at d ≡ Some ps
        → IsStrictlySortedBy (slice_cmp nat_cmp) (map (λ p. p.name) ps) }
{}
