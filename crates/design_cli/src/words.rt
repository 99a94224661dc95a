ghost use Rattle.std.specs.Prelude.{◌≡◌, Some, None, map};
ghost use Rattle.std.specs.Option.{option_map};
ghost use Rattle.design_cli.specs.Words.{Asked, is_option, asked_by};

/// What `solve` is asked: the least resources of a design in a folder, for a functionality.
#[derive(Clone, Copy, Debug)]
pub struct Question<'a> {
    /// The folder of the library.
    pub place: &'a str,
    /// The name of the design.
    pub name: &'a str,
    /// The functionality, as it was written.
    pub query: &'a str,
}

fn is_option_word(word: &str) -> bool
    ensures { result ≡ is_option word.now }
{
    match word.as_bytes() {
        [] => false,
        [first, others @ ..] => *first == b'-' && !others.is_empty(),
    }
}

/// What the words ask, or `None` where they aren't of the form `solve FOLDER NAME QUERY`.
pub fn question_of<'a>(words: &[&'a str]) -> Option<Question<'a>>
    ensures { option_map (λ question. record { place = question.place.now; name = question.name.now; query = question.query.now }) result
        ≡ asked_by (map (λ word. word.now) words.now) }
{
    match words {
        [command, place, name, query] => {
            if *command == "solve"
                && (!is_option_word(place) && (!is_option_word(name) && !is_option_word(query)))
            {
                Some(Question { place, name, query })
            } else {
                None
            }
        }
        _ => None,
    }
}
