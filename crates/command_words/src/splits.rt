// A word that a byte cuts in two.
ghost use Rattle.std.specs.Prelude.{◌≡◌, MatchOption, Some, None};
ghost use Rattle.command_words.specs.Splits.{before, behind};

// What stands in front of the first separator, or all where there is none, and what stands behind
// it.
pub(crate) fn cut_at(separator: u8, word: &[u8]) -> (&[u8], Option<&[u8]>)
    ensures front { result.0.now ≡ before separator word.now }
    ensures back { MatchOption result.1
        (behind separator word.now ≡ None)
        (λ rest. behind separator word.now ≡ Some rest.now) }
{
    for (at, byte) in word.iter().enumerate() {
        if *byte == separator {
            return (&word[..at], Some(&word[at + 1..]));
        }
    }
    (word, None)
}
