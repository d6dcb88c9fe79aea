// The options of commands, as data.
ghost use Rattle.std.specs.Prelude.{◌≡◌};
ghost use Rattle.command_words.specs.Items.{named};

/// An option of a command, or a flag.
#[derive(Clone, Copy, Debug)]
pub(crate) enum OptionName {
    PrimaryGeometry,
    RollbackGeometry,
    RootKey,
    FirstVector,
    HashBits,
    Cut,
    Secure,
    ByClient,
}

impl OptionName {
    ghost use Rattle.std.specs.Prelude.{◌≡◌};
    ghost use Rattle.command_words.specs.Items.{option_word, takes_value};

    // How it is written.
    pub(crate) fn word(self) -> &'static [u8]
        ensures { result.now ≡ option_word self }
    {
        match self {
            OptionName::PrimaryGeometry => b"--geom",
            OptionName::RollbackGeometry => b"--rgeom",
            OptionName::RootKey => b"--root",
            OptionName::FirstVector => b"--iv",
            OptionName::HashBits => b"--hash-bits",
            OptionName::Cut => b"--cut",
            OptionName::Secure => b"--secure",
            OptionName::ByClient => b"--by-client",
        }
    }

    // Whether a value belongs to it. A flag has none.
    pub(crate) fn takes_value(self) -> bool
        ensures { result ≡ takes_value self }
    {
        match self {
            OptionName::Secure => false,
            OptionName::ByClient => false,
            OptionName::PrimaryGeometry => true,
            OptionName::RollbackGeometry => true,
            OptionName::RootKey => true,
            OptionName::FirstVector => true,
            OptionName::HashBits => true,
            OptionName::Cut => true,
        }
    }
}

// The option of these that is written so.
pub(crate) fn named(options: &[OptionName], word: &[u8]) -> Option<OptionName>
    ensures { result ≡ named options.now word.now }
{
    for option in options {
        if option.word() == word {
            return Some(*option);
        }
    }
    None
}
