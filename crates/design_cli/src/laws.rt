//! What holds of the questions that a user asks. A law is the promise of a function that does nothing.

ghost use Rattle.design_cli.specs.OneWay.{AreOne};

use library_load::{libraries_are_judged_in_one_way, names_have_one_design};
use query_read::{refused_texts_have_one_fault, refused_texts_write_no_row, texts_write_one_row};

/// Libraries, designs and queries are what they are in one way.
pub fn questions_have_one_answer()
    ensures { AreOne }
{
    libraries_are_judged_in_one_way();
    names_have_one_design();
    texts_write_one_row();
    refused_texts_have_one_fault();
    refused_texts_write_no_row();
}
