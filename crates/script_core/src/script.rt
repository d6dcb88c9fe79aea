use crate::line::Line;
use std::marker::Model;

/// How a script will be run, since it decides which lines are allowed.
#[derive(Clone, Copy, Debug, PartialEq, Eq)]
pub struct ScriptMode {
    /// Each client's lines run on a thread of their own: there are no lines of client 0.
    pub threads: bool,
    /// There is a rollback store: a cut may name it.
    pub secure: bool,
}

/// A list of at most 8,192 lines, each of which a line of a text can spell.
#[derive(Debug, Drop)]
pub struct Script {
    lines: Vec<Line>,
}

impl Model for Script {
    ghost use Rattle.std.specs.Prelude.{List};
    ghost use Rattle.script_core.specs.declared.line.Line.{Line};
    ghost use Rattle.script_core.specs.Grammar.{AreLines};

    ghost Value = { List Line };

    ghost view = { λ s. s.lines.items };

    ghost invariant = { λ s. AreLines s.lines.items };
}

impl Script {
    ghost use Rattle.std.specs.Prelude.{◌≡◌};
    ghost use Rattle.script_core.specs.Grammar.{AreLines};

    /// A script of these lines, which it keeps. It takes no memory.
    pub fn new(lines: Vec<Line>) -> Script
        requires { AreLines lines.items }
        ensures { result ≡ lines.items }
    {
        Script { lines }
    }

    /// Lends the lines, first to last.
    pub fn lines(&self) -> &[Line]
        ensures lines { result.now ≡ self.now }
        ensures valid { AreLines self.now }
    {
        &self.lines
    }

    /// Gives the lines away, first to last: they are moved, not copied.
    pub fn into_lines(self) -> Vec<Line>
        ensures lines { result.items ≡ self }
        ensures valid { AreLines self }
    {
        self.lines
    }
}
