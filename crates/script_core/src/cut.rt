// The word for a power cut.
ghost use Rattle.std.specs.Prelude.{MatchOption};
ghost use Rattle.script_core.specs.declared.line.PowerCut.{PowerCut};
ghost use Rattle.script_core.specs.Grammar.{SpellsCut};
ghost use Rattle.script_core.specs.Parts.{parts_left};
ghost use Rattle.script_core.specs.Reading.{GivesIt, GivesAct, GivesCut, side_of, mix_of, plain_pattern_of, lone_pattern_of, pattern_of, cut_of, lone_cut_of};

use crate::error::Malformed;
use crate::fields;
use crate::line::{PowerCut, Side};
use crate::parts::Parts;
use crate::spelled::SpelledAct;
use kv_model::Pattern;

#[tactic(auto, unfolding(crate::specs::Reading::side_of))]
fn side(word: &[u8]) -> Result<Side, Malformed>
    ensures { GivesIt result (side_of word.now) }
{
    match word {
        b"p" => Ok(Side::Primary),
        b"r" => Ok(Side::Rollback),
        _ => Err(Malformed),
    }
}

#[tactic(auto, unfolding(crate::specs::Reading::mix_of))]
fn mix(mut parts: Parts) -> Result<Pattern, Malformed>
    ensures { GivesIt result (mix_of (parts_left parts.entry)) }
{
    let seed = fields::number(parts.part()?)?;
    parts.end()?;
    Ok(Pattern::Mix { seed })
}

#[tactic(auto, unfolding(crate::specs::Reading::plain_pattern_of))]
fn plain_pattern(name: &[u8]) -> Result<Pattern, Malformed>
    ensures { GivesIt result (plain_pattern_of name.now) }
{
    match name {
        b"none" => Ok(Pattern::None),
        b"half" => Ok(Pattern::Half),
        b"zero" => Ok(Pattern::Zero),
        b"all" => Ok(Pattern::All),
        _ => Err(Malformed),
    }
}

#[tactic(auto, unfolding(crate::specs::Reading::lone_pattern_of))]
fn lone_pattern(name: &[u8], parts: Parts) -> Result<Pattern, Malformed>
    ensures { GivesIt result (lone_pattern_of name.now (parts_left parts.entry)) }
{
    let pattern = plain_pattern(name)?;
    parts.end()?;
    Ok(pattern)
}

#[tactic(auto, unfolding(crate::specs::Reading::pattern_of))]
fn pattern(mut parts: Parts) -> Result<Pattern, Malformed>
    ensures { GivesIt result (pattern_of (parts_left parts.entry)) }
{
    let name = parts.part()?;
    if name == b"mix".as_slice() {
        return mix(parts);
    }
    lone_pattern(name, parts)
}

// Side, number and pattern, with one colon between each two.
#[tactic(auto, unfolding(crate::specs::Reading::cut_of))]
fn cut(word: &[u8]) -> Result<PowerCut, Malformed>
    ensures { GivesCut result (cut_of word.now) }
{
    let mut parts = Parts::new(b':', word);
    let side = side(parts.part()?)?;
    let n = fields::count(parts.part()?)?;
    let pattern = pattern(parts)?;
    Ok(PowerCut { side, n, pattern })
}

#[tactic(auto, unfolding(crate::specs::Reading::lone_cut_of))]
pub(crate) fn lone_cut<'a>(mut words: Parts<'a>) -> Result<SpelledAct<'a>, Malformed>
    ensures { GivesAct result (lone_cut_of (parts_left words.entry)) }
{
    let PowerCut { side, n, pattern } = cut(words.part()?)?;
    words.end()?;
    Ok(SpelledAct::Cut { side, n, pattern })
}

/// The cut that one word spells, as a line of client 0 has it behind `cut`: side, number and
/// pattern, with one colon between each two. `None` where it spells none. It takes no memory.
pub fn read_cut(word: &[u8]) -> Option<PowerCut>
    ensures { MatchOption result
        ((other : PowerCut) → SpellsCut word.now other → ⊥)
        (SpellsCut word.now) }
{
    match cut(word) {
        Ok(cut) => Some(cut),
        Err(Malformed) => None,
    }
}
