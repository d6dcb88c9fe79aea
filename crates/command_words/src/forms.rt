// What one word behind a command says by itself.
ghost use Rattle.std.specs.Prelude.{◌≡◌};
ghost use Rattle.command_words.specs.Items.{form_if, form_of, is_plain, takes_value};
ghost use Rattle.command_words.specs.Shown.{form_in, value_in};

use crate::option_name::{OptionName, named};
use crate::splits::cut_at;

#[derive(Clone, Copy)]
pub(crate) enum Form<'a> {
    // It is no option.
    Plain,
    // A flag, whose value is empty, or an option with its value behind `=`.
    Given { option: OptionName, value: &'a [u8] },
    // An option whose value is the next word.
    Awaiting { option: OptionName },
    // It begins with a dash and is no option of the command.
    Unknown,
}

pub(crate) fn is_plain(word: &[u8]) -> bool
    ensures { result ≡ is_plain word.now }
{
    match word {
        [first, _second, ..] => *first != b'-',
        _ => true,
    }
}

// An option with what stands behind `=` in its word.
fn form_if<'a>(option: OptionName, value: Option<&'a [u8]>) -> Form<'a>
    ensures { form_in result ≡ form_if option (takes_value option) (value_in value.entry) }
{
    match value {
        Some(value) if option.takes_value() => Form::Given { option, value },
        Some(_) => Form::Unknown,
        None if option.takes_value() => Form::Awaiting { option },
        None => Form::Given { option, value: b"" },
    }
}

#[tactic(auto, unfolding(crate::specs::Items::form_of))]
pub(crate) fn form_of<'a>(options: &[OptionName], word: &'a [u8]) -> Form<'a>
    ensures { form_in result ≡ form_of options.now word.now }
{
    if is_plain(word) {
        return Form::Plain;
    }
    let (name, value) = cut_at(b'=', word);
    match named(options, name) {
        Some(option) => form_if(option, value),
        None => Form::Unknown,
    }
}
