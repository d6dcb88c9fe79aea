// The words behind a command, as options with their values and other words.
use crate::error::WrongWords;
use crate::forms::{Form, form_of, is_plain};
use crate::option_name::OptionName;
use std::rc::RcStr;

#[derive(Drop)]
pub(crate) enum Item<'a> {
    // A word that is no option.
    Word { word: &'a str },
    // An option with its value, or a flag with an empty one.
    Given { option: OptionName, value: &'a [u8] },
    // What can't stand behind the command.
    Wrong,
}

// The items that are left, first to last.
#[derive(Drop)]
struct Items<'a> {
    options: &'static [OptionName],
    rest: &'a [RcStr],
}

impl<'a> Items<'a> {
    ghost use Rattle.std.specs.Prelude.{◌≡◌, ◌∷◌, map, Some};
    ghost use Rattle.std.specs.Rc.{rc_str_bytes};
    ghost use Rattle.command_words.specs.Items.{items_from};
    ghost use Rattle.command_words.specs.Shown.{item_in, items_left};

    // The option, whose value is the next word.
    fn awaited(&mut self, option: OptionName) -> Item<'a>
        ensures { items_from self.old.options.now (Some option) (map rc_str_bytes self.old.rest.now)
            ≡ item_in result ∷ items_left self.new }
    {
        let [word, rest @ ..] = self.rest else {
            return Item::Wrong;
        };
        self.rest = rest;
        let value = word.as_str().as_bytes();
        if is_plain(value) {
            Item::Given { option, value }
        } else {
            Item::Wrong
        }
    }
}

impl<'a> Iterator for Items<'a> {
    ghost use Rattle.std.specs.Iterator.{YieldsFirstBy, item_count};
    ghost use Rattle.command_words.specs.Shown.{item_in, items_left};

    type Item = Item<'a>;

    ghost next_gives = { YieldsFirstBy item_in items_left };

    ghost remaining = { item_count items_left };

    fn next(&mut self) -> Option<Item<'a>> {
        let [word, rest @ ..] = self.rest else {
            return None;
        };
        self.rest = rest;
        let word = word.as_str();
        Some(match form_of(self.options, word.as_bytes()) {
            Form::Plain => Item::Word { word },
            Form::Given { option, value } => Item::Given { option, value },
            Form::Awaiting { option } => self.awaited(option),
            Form::Unknown => Item::Wrong,
        })
    }
}

// The words behind a command that has these options.
#[derive(Clone, Copy)]
pub(crate) struct Words<'a> {
    options: &'static [OptionName],
    words: &'a [RcStr],
}

impl<'a> Words<'a> {
    ghost use Rattle.std.specs.Prelude.{◌≡◌, ◌≤◌, map, length, MatchOption, MatchResult};
    ghost use Rattle.std.specs.Prelude.{Some, None, slice_get};
    ghost use Rattle.std.specs.Rc.{rc_str_bytes};
    ghost use Rattle.command_words.specs.Items.{items_of, all_known, values_of, words_of};
    ghost use Rattle.command_words.specs.Shown.{items_in, items_left, listed};

    pub(crate) fn new(options: &'static [OptionName], words: &'a [RcStr]) -> Words<'a>
        ensures { items_in result ≡ items_of options.now (map rc_str_bytes words.now) }
    {
        Words { options, words }
    }

    fn items(self) -> Items<'a>
        ensures { items_left result ≡ items_in self.entry }
    {
        Items {
            options: self.options,
            rest: self.words,
        }
    }

    // Whether each may stand behind the command.
    pub(crate) fn all_known(self) -> bool
        ensures { result ≡ all_known (items_in self.entry) }
    {
        for item in self.items() {
            if let Item::Wrong = item {
                return false;
            }
        }
        true
    }

    // The value of an option, where it is given. It is given at most once.
    pub(crate) fn value_of(self, wanted: OptionName) -> Result<Option<&'a [u8]>, WrongWords>
        ensures { MatchResult result
            (λ found. values_of wanted (items_in self.entry) ≡ listed found)
            (λ _. 2 ≤ length (values_of wanted (items_in self.entry))) }
    {
        let mut found = None;
        for item in self.items() {
            match item {
                Item::Given { option, value } if option.word() == wanted.word() => {
                    if found.is_some() {
                        return Err(WrongWords);
                    }
                    found = Some(value);
                }
                _ => {}
            }
        }
        Ok(found)
    }

    // The word that stands behind so many other words that are no options.
    pub(crate) fn nth_word(self, n: usize) -> Option<&'a str>
        ensures { MatchOption result
            (slice_get (words_of (items_in self.entry)) n ≡ None)
            (λ word. slice_get (words_of (items_in self.entry)) n ≡ Some word.now) }
    {
        let mut left = n;
        for item in self.items() {
            if let Item::Word { word } = item {
                if left == 0 {
                    return Some(word);
                }
                left -= 1;
            }
        }
        None
    }
}
