use super::{Outcome, file_outcome};
use design_lexer::{BodyTree, File, lex};
use design_parser::{FileKind, parse_file};
use std::alloc::Global;
use std::test::Fail;

/// Whether the text is a catalogue without ports, rows and a table.
fn is_empty_catalogue(alloc: Global, text: &[u8]) -> bool {
    let Ok(tokens) = lex(alloc, text) else {
        return false;
    };
    match parse_file(alloc, FileKind::Design, text, &tokens) {
        Ok(File::Design(BodyTree::Catalogue { ports, rows, table })) => {
            ports.items().is_empty() && rows.items().is_empty() && table.is_none()
        }
        _ => false,
    }
}

#[test]
fn nothing_is_no_design(rt: HostRuntime) -> Result<(), Fail> {
    assert_eq!(rt;
        file_outcome(rt.alloc(), FileKind::Design, b""),
        Outcome::At(0)
    );
    assert_eq!(rt;
        file_outcome(rt.alloc(), FileKind::Design, b" # a comment\n"),
        Outcome::At(13)
    );
    Ok(())
}

#[test]
fn choices_have_a_branch(rt: HostRuntime) -> Result<(), Fail> {
    assert_eq!(rt;
        file_outcome(rt.alloc(), FileKind::Design, b"choose { }"),
        Outcome::At(9)
    );
    Ok(())
}

#[test]
fn nothing_follows_the_last_brace(rt: HostRuntime) -> Result<(), Fail> {
    assert_eq!(rt;
        file_outcome(rt.alloc(), FileKind::Design, b"mcdp { } }"),
        Outcome::At(9)
    );
    assert_eq!(rt;
        file_outcome(rt.alloc(), FileKind::Design, b"mcdp { } mcdp { }"),
        Outcome::At(9)
    );
    Ok(())
}

#[test]
fn catalogues_may_be_empty(rt: HostRuntime) -> Result<(), Fail> {
    assert!(rt; is_empty_catalogue(rt.alloc(), b"catalogue { } "));
    Ok(())
}

#[test]
fn truncated_file_ends_at_its_length(rt: HostRuntime) -> Result<(), Fail> {
    let text = b"catalogue { provides x [Nat]; row r: 1";
    assert_eq!(rt;
        file_outcome(rt.alloc(), FileKind::Design, text.as_slice()),
        Outcome::At(38)
    );
    Ok(())
}

#[test]
fn files_are_of_their_kind(rt: HostRuntime) -> Result<(), Fail> {
    let text = b"interface { }";
    assert_eq!(rt;
        file_outcome(rt.alloc(), FileKind::Interface, text.as_slice()),
        Outcome::Written
    );
    assert_eq!(rt;
        file_outcome(rt.alloc(), FileKind::Design, text.as_slice()),
        Outcome::At(0)
    );
    assert_eq!(rt;
        file_outcome(rt.alloc(), FileKind::Poset, text.as_slice()),
        Outcome::At(0)
    );
    assert_eq!(rt;
        file_outcome(rt.alloc(), FileKind::Template, text.as_slice()),
        Outcome::At(0)
    );
    Ok(())
}
