//! Classes of characters (RDF 1.1 N-Quads, section 4 and appendix A).
ghost use Rattle.std.specs.Prelude.{◌≡◌, ◌||◌, nat_eq};
ghost use Rattle.def_patch_texts.specs.Characters as class;
ghost use Rattle.lf_nquads.specs.Scanning.{is_tag_char, hex_value};

fn is_between(low: char, high: char, c: char) -> bool
    ensures { result ≡ class.is_between low high c }
{
    low <= c && c <= high
}

fn is_letter(c: char) -> bool
    ensures { result ≡ class.is_letter c }
{
    is_between('A', 'Z', c) || is_between('a', 'z', c)
}

fn is_digit(c: char) -> bool
    ensures { result ≡ class.is_digit c }
{
    is_between('0', '9', c)
}

/// A space or a tab.
pub fn is_blank(c: char) -> bool
    ensures { result ≡ class.is_blank c }
{
    c == ' ' || c == '\t'
}

/// A character of a scheme (RFC 3986, section 3.1).
pub fn is_scheme_char(c: char) -> bool
    ensures { result ≡ class.is_scheme_char c }
{
    is_letter(c) || is_digit(c) || c == '+' || c == '-' || c == '.'
}

/// A character with which a scheme begins.
pub fn begins_scheme(c: char) -> bool
    ensures { result ≡ class.is_letter c }
{
    is_letter(c)
}

/// A character that may stand raw in an IRI (production `IRIREF`).
pub fn is_iri_char(c: char) -> bool
    ensures { result ≡ class.is_iri_char c }
{
    c > ' ' && !is_delimiter(c)
}

fn is_delimiter(c: char) -> bool
    ensures { result ≡ class.is_delimiter c }
{
    c == '"'
        || c == '<'
        || c == '>'
        || c == '\\'
        || c == '^'
        || c == '`'
        || c == '{'
        || c == '|'
        || c == '}'
}

/// A character that may stand raw in a string (production `STRING_LITERAL_QUOTE`).
pub fn is_string_char(c: char) -> bool
    ensures { result ≡ class.is_string_char c }
{
    c != '"' && c != '\\' && c != '\n' && c != '\r'
}

fn is_pn_chars_base(c: char) -> bool
    ensures { result ≡ class.is_pn_chars_base c }
{
    is_letter(c)
        || is_between('\u{C0}', '\u{D6}', c)
        || is_between('\u{D8}', '\u{F6}', c)
        || is_between('\u{F8}', '\u{2FF}', c)
        || is_between('\u{370}', '\u{37D}', c)
        || is_between('\u{37F}', '\u{1FFF}', c)
        || is_between('\u{200C}', '\u{200D}', c)
        || is_between('\u{2070}', '\u{218F}', c)
        || is_between('\u{2C00}', '\u{2FEF}', c)
        || is_between('\u{3001}', '\u{D7FF}', c)
        || is_between('\u{F900}', '\u{FDCF}', c)
        || is_between('\u{FDF0}', '\u{FFFD}', c)
        || is_between('\u{10000}', '\u{EFFFF}', c)
}

fn is_pn_chars_u(c: char) -> bool
    ensures { result ≡ class.is_pn_chars_u c }
{
    is_pn_chars_base(c) || c == '_' || c == ':'
}

fn is_pn_chars(c: char) -> bool
    ensures { result ≡ class.is_pn_chars c }
{
    is_pn_chars_u(c)
        || c == '-'
        || is_digit(c)
        || c == '\u{B7}'
        || is_between('\u{300}', '\u{36F}', c)
        || is_between('\u{203F}', '\u{2040}', c)
}

/// A character with which the label of a blank node begins.
pub fn begins_label(c: char) -> bool
    ensures { result ≡ (class.is_pn_chars_u c || class.is_digit c) }
{
    is_pn_chars_u(c) || is_digit(c)
}

/// A character of the label of a blank node (production `BLANK_NODE_LABEL`).
pub fn is_label_char(c: char) -> bool
    ensures { result ≡ class.is_label_char c }
{
    is_pn_chars(c) || c == '.'
}

/// A character of a language tag, where a digit may stand or not, and `-` may stand or not
/// (production `LANGTAG`).
pub fn is_tag_char(needed: bool, digits: bool, c: char) -> bool
    ensures { result ≡ is_tag_char needed digits c }
{
    is_letter(c) || (digits && is_digit(c)) || (!needed && c == '-')
}

/// The character that the backslash and this one stand for (production `ECHAR`).
pub fn short_escape(c: char) -> Option<char>
    ensures { result ≡ class.short_escape c }
{
    match c {
        't' => Some('\t'),
        'b' => Some('\u{8}'),
        'n' => Some('\n'),
        'r' => Some('\r'),
        'f' => Some('\u{C}'),
        '"' | '\'' | '\\' => Some(c),
        _ => None,
    }
}

/// The value of a hexadecimal digit (production `HEX`).
pub fn hex_digit(c: char) -> Option<u32>
    ensures { result ≡ hex_value c }
{
    if is_digit(c) {
        return Some(c as u32 - 48);
    }
    if is_between('A', 'F', c) {
        return Some(c as u32 - 55);
    }
    if is_between('a', 'f', c) {
        return Some(c as u32 - 87);
    }
    None
}
