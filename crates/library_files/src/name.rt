ghost use Rattle.std.specs.Prelude.{◌≡◌, ◌||◌, MatchOption, None, Some, map};
ghost use Rattle.std.specs.List.{list_all};
ghost use Rattle.design_lexer.specs.Pieces as piece;
ghost use Rattle.library_files.specs.Names as spec;

use design_parser::FileKind;

/// The most bytes of a name.
const MAX_NAME: usize = 64;

/// The words of the language, which are no names.
const RESERVED: [&str; 19] = [
    "poset",
    "elements",
    "interface",
    "template",
    "catalogue",
    "choose",
    "mcdp",
    "provides",
    "requires",
    "row",
    "table",
    "instance",
    "ignore",
    "Nat",
    "up",
    "product",
    "max",
    "min",
    "Top",
];

/// What the ending of a file's name says that the file is.
#[derive(Clone, Copy, Debug, PartialEq, Eq)]
pub enum Ending {
    /// A file of the language.
    Tree(FileKind),
    /// A file of comma-separated values.
    Table,
}

fn is_letter(byte: u8) -> bool
    ensures { result ≡ piece.is_letter byte }
{
    byte.is_ascii_lowercase() || (byte.is_ascii_uppercase() || byte == b'_')
}

fn is_digit(byte: u8) -> bool
    ensures { result ≡ piece.is_digit byte }
{
    byte.is_ascii_digit()
}

/// Whether the bytes are letters, digits and `_`.
fn go_on(bytes: &[u8]) -> bool
    ensures { result ≡ list_all (λ byte. piece.is_letter byte || piece.is_digit byte) bytes.now }
{
    bytes.iter().all(|byte| is_letter(*byte) || is_digit(*byte))
}

/// Whether the bytes are a letter or `_`, and then letters, digits and `_`.
fn is_named(bytes: &[u8]) -> bool
    ensures { result ≡ piece.is_named bytes.now }
{
    match bytes {
        [] => false,
        [byte, rest @ ..] => is_letter(*byte) && go_on(rest),
    }
}

fn is_one_of(words: &[&str], bytes: &[u8]) -> bool
    ensures { result ≡ piece.is_one_of (map (λ word. word.now) words.now) bytes.now }
{
    for word in words {
        if word.as_bytes() == bytes {
            return true;
        }
    }
    false
}

#[tactic(auto, unfolding(design_lexer::specs::Pieces::is_reserved))]
fn is_reserved(bytes: &[u8]) -> bool
    ensures { result ≡ piece.is_reserved bytes.now }
{
    let words: [&str; 19] = RESERVED;
    is_one_of(words.as_slice(), bytes)
}

/// Whether the bytes are a name: of at most 64 bytes, and no word of the language.
#[tactic(auto, unfolding(crate::specs::Names::is_name))]
fn is_name(bytes: &[u8]) -> bool
    ensures { result ≡ spec.is_name bytes.now }
{
    is_named(bytes) && (!is_reserved(bytes) && bytes.len() <= MAX_NAME)
}

/// The ending that these bytes are.
fn ending_named(bytes: &str) -> Option<Ending>
    ensures { result ≡ spec.ending_named bytes.now }
{
    match bytes {
        "poset" => Some(Ending::Tree(FileKind::Poset)),
        "interface" => Some(Ending::Tree(FileKind::Interface)),
        "mcdp" => Some(Ending::Tree(FileKind::Design)),
        "template" => Some(Ending::Tree(FileKind::Template)),
        "csv" => Some(Ending::Table),
        _ => None,
    }
}

/// A file's name without its ending, and its ending.
pub fn parts_of(name: &str) -> Option<(&str, Ending)>
    ensures { MatchOption result (spec.ending_of name.now ≡ None) (λ parts. (parts.0.now ≡ spec.stem_of name.now) × (spec.ending_of name.now ≡ Some parts.1)) }
{
    match name.split_once('.') {
        Some((stem, ending)) => match ending_named(ending) {
            Some(ending) => Some((stem, ending)),
            None => None,
        },
        None => None,
    }
}

/// Whether a file of this name belongs to a library: whether it is a name and one of the five endings.
#[tactic(auto, unfolding(crate::specs::Names::is_recognised))]
pub fn is_recognised(name: &str) -> bool
    ensures { result ≡ spec.is_recognised name.now }
{
    match parts_of(name) {
        Some((stem, _)) => is_name(stem.as_bytes()),
        None => false,
    }
}
