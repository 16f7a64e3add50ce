//! Laws of the canonical text. Each is the contract of a function that does nothing.
ghost use Rattle.std.specs.Prelude.{◌≡◌, ◌≤◌};
ghost use Rattle.cd_model.specs.Canonical.{canonical};
ghost use Rattle.cd_model.specs.Thing.{Thing, IsValue, IsData};
ghost use Rattle.cd_documents.specs.Reading.{WritesValue, most_open};
ghost use Rattle.cd_print.specs.Brackets.{brackets};
ghost use Rattle.cd_print.specs.Examples as example;

/// The canonical text of data is a document of that data, if at most 1,000 brackets are open in it
/// at once.
pub fn text_is_read_back()
    ensures { (value : Thing) → IsValue value → IsData value → brackets value ≤ most_open
        → WritesValue (canonical value) value }
{}

/// How many brackets are open at once in some texts.
pub fn bracket_examples()
    ensures number { brackets example.one ≡ 0 }
    ensures empty { brackets example.empty ≡ 1 }
    ensures text { brackets example.text ≡ 0 }
    ensures sequence { brackets example.sequence ≡ 2 }
    ensures tuple { brackets example.tuple ≡ 3 }
    ensures xml { brackets example.xml ≡ 2 }
{}
