//! What follows a start in an IRI's text.
ghost use Rattle.std.specs.Prelude.{◌≡◌, Some};
ghost use Rattle.std.specs.Option.{option_copied};
ghost use Rattle.def_selection.specs.Iris.{rest_after};

/// What follows a start that is shorter than the text.
pub fn rest_after<'a>(text: &'a str, start: &str) -> Option<&'a str>
    ensures { option_copied result ≡ rest_after text.now (Some start.now) }
{
    if start.len() < text.len() {
        text.strip_prefix(start)
    } else {
        None
    }
}
